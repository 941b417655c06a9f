//! What compiled bodies save, restore and spill, by the marks that are listed of them.

use crate::outside::{RUN, check_well, repeat};
use sch_asm::Mark;
use sch_driver::{Compiled, MAX_SOURCE_SIZE, compile};
use sch_listing::{Cycle, Listing};
use sch_word::{Bytes, Limits, MarkKind, Mem, Place};
use std::alloc::Global;
use std::str;
use std::test::Fail;

/// What a mark is: `s` a save, `r` a restore, `p` a spill, `t` an operand that is set aside, `a` one that is handed over, `c` a
/// call, `j` a tail call, `.` a return; and the number of its variable.
fn letter(kind: MarkKind) -> (u8, u32) {
    match kind {
        MarkKind::Enter(body) => (b'e', body),
        MarkKind::Save(x) => (b's', x),
        MarkKind::Restore(x) => (b'r', x),
        MarkKind::Spill(x) => (b'p', x),
        MarkKind::Temp => (b't', 0),
        MarkKind::Argument => (b'a', 0),
        MarkKind::Call(_) => (b'c', 0),
        MarkKind::Tail(_) => (b'j', 0),
        MarkKind::Return => (b'.', 0),
    }
}

fn compiled(alloc: Global, text: &[u8]) -> Result<Compiled, Fail> {
    if text.len() as u64 > MAX_SOURCE_SIZE {
        return Err(Fail::from("a text that is too long"));
    }
    let Some(limits) = Limits::new(65_536, 100) else {
        return Err(Fail::from("other limits"));
    };
    let Ok(made) = compile(alloc, text, limits) else {
        return Err(Fail::from("not compiled"));
    };
    Ok(made)
}

// The number of the body of this name.
fn body_of(bodies: &[Bytes], name: &[u8]) -> u32 {
    let mut number = 0u32;
    for body in bodies {
        if body.as_slice() == name {
            return number;
        }
        number = number.saturating_add(1);
    }
    number
}

// The marks of a body behind its entry.
fn marks_of(alloc: Global, marks: &[Mark], body: u32) -> Result<Vec<(u8, u32)>, Fail> {
    let mut all = Vec::new(alloc);
    let mut inside = false;
    for mark in marks {
        if let MarkKind::Enter(other) = mark.kind {
            inside = other == body;
        } else if inside {
            all.push(letter(mark.kind))?;
        }
    }
    Ok(all)
}

// The site of the last tail call of a body.
fn last_tail(marks: &[Mark], body: u32) -> u32 {
    let mut inside = false;
    let mut last = 0;
    for mark in marks {
        match mark.kind {
            MarkKind::Enter(other) => inside = other == body,
            MarkKind::Tail(site) if inside => last = site,
            _ => {}
        }
    }
    last
}

// How many bytes lie between the first two saves of a body.
fn gap(marks: &[Mark], body: u32) -> u64 {
    let mut inside = false;
    let mut first = None;
    for mark in marks {
        match mark.kind {
            MarkKind::Enter(other) => inside = other == body,
            MarkKind::Save(_) if inside => match first {
                None => first = Some(mark.address),
                Some(address) => return mark.address.saturating_sub(address),
            },
            _ => {}
        }
    }
    0
}

// The failure of the body of a name.
fn failed(name: &[u8]) -> Fail {
    match str::from_utf8(name) {
        Ok(name) => Fail::new(format_args!("other marks of {name}")),
        Err(_) => Fail::from("other marks"),
    }
}

// What is listed of the program of a text.
fn listed(alloc: Global, text: &[u8]) -> Result<Listing, Fail> {
    let made = compiled(alloc, text)?;
    Ok(made.listing)
}

// The marks of the body of this name.
fn marks_named(alloc: Global, listing: &Listing, name: &[u8]) -> Result<Vec<(u8, u32)>, Fail> {
    let body = body_of(listing.bodies.as_slice(), name);
    marks_of(alloc, listing.marks.as_slice(), body)
}

// The marks of the body of this name in the program of a text.
fn marks_in(alloc: Global, text: &[u8], name: &[u8]) -> Result<Vec<(u8, u32)>, Fail> {
    let listing = listed(alloc, text)?;
    marks_named(alloc, &listing, name)
}

// Compiles a text: the marks of the body of this name.
fn check_marks(alloc: Global, text: &[u8], name: &[u8], wanted: &[(u8, u32)]) -> Result<(), Fail> {
    let marks = marks_in(alloc, text, name)?;
    if marks.as_slice() != wanted {
        return Err(failed(name));
    }
    Ok(())
}

const ARM: &[u8] =
    b"(define (h z) z)(define (g x y) (if (and x (h y)) y (not (h x))))(display (g 1 7))(display (g #f 7))";

// The test of `x` lies between them.
#[test]
fn saves_behind_a_test(rt: HostRuntime) -> Result<(), Fail> {
    let listing = listed(rt.alloc(), ARM)?;
    let body = body_of(listing.bodies.as_slice(), b"g");
    assert!(rt; gap(listing.marks.as_slice(), body) > 7);
    Ok(())
}

const ONE_ARM: &[u8] = b"(define (fact n) (if (= n 0) 1 (* n (fact (- n 1)))))(display (fact 5))";

const TWO_CALLS: &[u8] = b"(define (g x) x)(define (k x) (g 1) (g 2) (+ x 1))(display (k 4))";

const SWAP: &[u8] =
    b"(define (swap a b n) (if (= n 0) (display a) (swap b a (- n 1))))(swap 1 2 3)";

/// A text, the name of one of its bodies, and the marks of this.
const MARKS: &[(&[u8], &[u8], &[(u8, u32)])] = &[
    // The return address is saved at the entry, as every way through has a call behind which it is wanted, and both operands in
    // the arm of the inner call, behind which they are.
    (
        ARM,
        b"g",
        &[
            (b's', 0),
            (b's', 2),
            (b's', 3),
            (b'c', 0),
            (b'r', 0),
            (b'r', 2),
            (b'r', 3),
            (b'.', 0),
            (b'c', 0),
            (b'r', 0),
            (b'.', 0),
            (b'.', 0),
        ],
    ),
    // The arm that calls saves the return address and the operand, and the other one nothing.
    (
        ONE_ARM,
        b"fact",
        &[
            (b'.', 0),
            (b's', 0),
            (b's', 2),
            (b'c', 0),
            (b'r', 0),
            (b'r', 2),
            (b'.', 0),
        ],
    ),
    // Nothing is wanted between the two calls.
    (
        TWO_CALLS,
        b"k",
        &[
            (b's', 0),
            (b's', 2),
            (b'c', 0),
            (b'c', 0),
            (b'r', 0),
            (b'r', 2),
            (b'.', 0),
        ],
    ),
    // Two operands change places, by way of one register.
    (SWAP, b"swap", &[(b'j', 0), (b't', 0), (b'j', 0)]),
];

#[test]
fn bodies_have_marks(rt: HostRuntime) -> Result<(), Fail> {
    for (text, name, marks) in MARKS {
        check_marks(rt.alloc(), text, name, marks)?;
    }
    check_well(rt.alloc(), RUN, TWO_CALLS, (0, b"5", b""))
}

// How many of these cycles are of RBX and R8, for the call at this site.
fn swaps_at(cycles: &[Cycle], site: u32) -> u64 {
    let mut found = 0u64;
    for cycle in cycles {
        if let [Place::Reg(3), Place::Reg(8)] = cycle.places.as_slice() {
            if cycle.site == site {
                found = found.saturating_add(1);
            }
        }
    }
    found
}

// Of the second call there is one cycle.
#[test]
fn swaps_by_one_cycle(rt: HostRuntime) -> Result<(), Fail> {
    let listing = listed(rt.alloc(), SWAP)?;
    let body = body_of(listing.bodies.as_slice(), b"swap");
    let site = last_tail(listing.marks.as_slice(), body);
    assert!(rt; swaps_at(listing.cycles.as_slice(), site) == 1);
    Ok(())
}

const SEVEN: &[u8] =
    b"(define (f v) (let ((a (vector-ref v 0)) (b (vector-ref v 1)) (c (vector-ref v 2)) (d (vector-ref v 3)) (e (vector-ref v 4)) (g (vector-ref v 5)) (h (vector-ref v 6))) (+ a (+ b (+ c (+ d (+ e (+ g h))))))))(display (f (make-vector 7 1)))";

// How many spills are among the marks.
fn spills(marks: &[(u8, u32)]) -> u64 {
    let mut count = 0u64;
    for (kind, _) in marks {
        if *kind == b'p' {
            count = count.saturating_add(1);
        }
    }
    count
}

// Of seven variables that live at once six have registers.
#[test]
fn spills_the_seventh(rt: HostRuntime) -> Result<(), Fail> {
    let marks = marks_in(rt.alloc(), SEVEN, b"f")?;
    assert!(rt; spills(marks.as_slice()) == 1);
    Ok(())
}

// A procedure that binds this many variables, each inside the one before it, and calls another one inside them all.
fn push_nest(source: &mut Bytes, count: usize) -> Result<(), Mem> {
    source.extend_from_slice(b"(define (g x) x)(define (f a) ")?;
    repeat(source, b"(let ((a (+ 1 a))) ", count)?;
    source.extend_from_slice(b"(+ (g 0) a)")?;
    repeat(source, b")", count)?;
    source.extend_from_slice(b")(display (f 0))")
}

// Runs such a procedure.
fn check_nest(alloc: Global, count: usize, printed: &[u8]) -> Result<(), Fail> {
    let mut source = Bytes::new(alloc);
    push_nest(&mut source, count)?;
    check_well(alloc, RUN, source.as_slice(), (0, printed, b""))
}

/// How many variables are bound, and what is printed.
const NESTS: &[(usize, &[u8])] = &[(50, b"50"), (70, b"70"), (300, b"300")];

// Sets of variables have one, four and sixteen words.
#[test]
fn bodies_of_many_variables_run(rt: HostRuntime) -> Result<(), Fail> {
    for (count, printed) in NESTS {
        check_nest(rt.alloc(), *count, printed)?;
    }
    Ok(())
}
