//! Calls of procedures, run over memory: their operands, their results, and how they stop.

use crate::outside::{
    Called, Ended, RUN, check_files, check_lines, check_printed, check_well, repeat,
};
use sch_word::{Bytes, Mem};
use std::alloc::Global;
use std::test::Fail;

const CALLS: &[(&[u8], &[u8])] = &[
    (
        b"(define (fact n) (if (= n 0) 1 (* n (fact (- n 1)))))(display (fact 10))",
        b"3628800",
    ),
    (
        b"(define (swap a b n) (if (= n 0) (display a) (swap b a (- n 1))))(swap 1 2 3)",
        b"2",
    ),
    (
        b"(define (even? n) (if (= n 0) #t (odd? (- n 1))))(define (odd? n) (if (= n 0) #f (even? (- n 1))))(display (even? 9))",
        b"#f",
    ),
    (
        b"(define (adder n) (lambda (m) (+ n m)))(display ((adder 3) 4))",
        b"7",
    ),
    (
        b"(let ((if (lambda (a b c) b)))(display (if #f 1 2)))",
        b"1",
    ),
    (
        b"(define (counter) (let ((n 0)) (lambda () (set! n (+ n 1)) n)))(define c (counter))(c)(display (c))(display ((counter)))",
        b"21",
    ),
    (
        b"(lambda (x) (if #f (set! car x)))(define (car x) (+ x 1))(display (car 1))",
        b"2",
    ),
    // Loops.
    (
        b"(define (loop i) (if (= i 0) (display 7) (loop (- i 1))))(loop 1000)",
        b"7",
    ),
    (
        b"(let loop ((i 0) (sum 0)) (if (= i 10) (display sum) (loop (+ i 1) (+ sum i))))",
        b"45",
    ),
    (b"(do ((i 0 (+ i 1))) ((= i 3)) (display i))", b"012"),
    (
        b"(display (letrec ((e? (lambda (n) (if (= n 0) #t (o? (- n 1))))) (o? (lambda (n) (if (= n 0) #f (e? (- n 1)))))) (e? 100)))",
        b"#t",
    ),
    (
        b"(display (cond ((- 7 2) => (lambda (n) (* n n))) (else 0)))",
        b"25",
    ),
    // A procedure that is made in a loop has the loop's variable of its turn, and each call of it sees what others set.
    (
        b"(define p 0)(do ((i 0 (+ i 1))) ((= i 3)) (if (= i 1) (set! p (lambda () i))))(display (p))",
        b"1",
    ),
    (
        b"(define p 0)(do ((i 0 (+ i 1))) ((= i 3)) (if (= i 1) (set! p (lambda () (set! i (+ i 10)) i))))(display (p))(display (p))",
        b"1121",
    ),
    // Operands that arrive in slots are read in slots: a tail call that exchanges them, and a call that has as many
    // between two uses.
    (
        b"(define (r a b c d e g h i n) (if (= n 0) (begin (display a)(display h)(display i)) (r b c d e g h i a (- n 1))))(r 1 2 3 4 5 6 7 8 3)",
        b"423",
    ),
    (
        b"(define (k a b c d e g h i) i)(define (f a b c d e g h i) (begin (k 0 0 0 0 0 0 0 0) (+ h i)))(display (f 1 2 3 4 5 6 7 8))",
        b"15",
    ),
    // Where a call may stand: a value that is set, a test, an operand, an init, an operator, a clause.
    (
        b"(define (t x) x)(define x 0)(set! x (t 4))(if (t #f) (display 1) (display (+ x (t 1))))(let ((y (t 5)) (z (t 6))) (display (- y z)))(letrec ((a (t 7))) (display a))(display (cond ((t #f) 1) ((t 8)) (else 0)))(display (and (t 1) (t 9)))(display ((t t) 3))",
        b"5-17893",
    ),
];

#[test]
fn calls_print(rt: HostRuntime) -> Result<(), Fail> {
    check_printed(rt.alloc(), RUN, CALLS)
}

const NO_PROCEDURE: &[u8] = b"stop 67: not a procedure\n";

const COUNT: &[u8] = b"stop 68: wrong argument count\n";

const STOPS: &[Ended] = &[
    (b"(1 2)", (67, b"", NO_PROCEDURE)),
    (
        b"(define x 5)(display 1)(display (x))",
        (67, b"1", NO_PROCEDURE),
    ),
    (b"((lambda (x) x))", (68, b"", COUNT)),
    (
        b"(define (f) 1)(display 1)(f (display 2))",
        (68, b"12", COUNT),
    ),
    (
        b"(define (f x) (+ x 1))(f f)",
        (65, b"", b"stop 65: wrong type\n"),
    ),
    (
        b"(define (f) (g))(f)(define (g) 1)",
        (73, b"", b"stop 73: unset variable\n"),
    ),
];

#[test]
fn calls_stop(rt: HostRuntime) -> Result<(), Fail> {
    check_files(rt.alloc(), RUN, STOPS)
}

const NINE_PENDING: &[u8] = b"(define (d n) (if (= n 0) 0 (+ 1 (d (- n 1)))))(display (d 9))";

const AT_ONE: &str = "run a --heap 4096 --depth 1";

const FULL: &[u8] = b"stop 72: depth limit\n";

const DEPTHS: &[Called] = &[
    // Ten calls are pending at the most, the first of a form among them; a tail call takes no depth.
    ("run a --heap 4096 --depth 10", NINE_PENDING, (0, b"9", b"")),
    ("run a --heap 4096 --depth 9", NINE_PENDING, (72, b"", FULL)),
    (
        AT_ONE,
        b"(define (loop i) (if (= i 0) (display 7) (loop (- i 1))))(loop 1000000)",
        (0, b"7", b""),
    ),
    // Without the option 100,000 calls are pending at the most.
    (
        "run a",
        b"(define (d n) (if (= n 0) 0 (+ 1 (d (- n 1)))))(display (d 99999))",
        (0, b"99999", b""),
    ),
    (
        "run a",
        b"(define (d n) (if (= n 0) 0 (+ 1 (d (- n 1)))))(display (d 100000))",
        (72, b"", FULL),
    ),
    // The operator is looked at first, then the depth, then the count of operands; operands are no pending calls.
    (
        AT_ONE,
        b"(define (g) 1)(define (f) (+ 1 (g 2)))(f)",
        (72, b"", FULL),
    ),
    (
        AT_ONE,
        b"(define (f) (+ 1 (1)))(f)",
        (67, b"", NO_PROCEDURE),
    ),
    (AT_ONE, b"(define (f) (1))(f)", (67, b"", NO_PROCEDURE)),
    (
        AT_ONE,
        b"(define (g) 1)(define (f) (g 2))(f)",
        (68, b"", COUNT),
    ),
    (
        AT_ONE,
        b"(define (f x) x)(display (f (f 1)))",
        (0, b"1", b""),
    ),
    // What runs for ever is ended by the number of steps.
    (
        "run a --heap 4096 --depth 20 --steps 1000",
        b"(define (f) (f))(f)",
        (9, b"", b"steps spent\n"),
    ),
    // Frames of 17 variables at a depth of 10,000,000 would take more than 1 GiB.
    (
        "compile a p --depth 10000000",
        b"(define (f a b c d e g h i j k l m n o p q) (begin (f a b c d e g h i j k l m n o p q) (vector a b c d e g h i j k l m n o p q)))",
        (7, b"", b"a: limit stack\n"),
    ),
];

#[test]
fn depth_steps_and_frames_have_limits(rt: HostRuntime) -> Result<(), Fail> {
    check_lines(rt.alloc(), DEPTHS)
}

// Pushes these bytes, and then a name of this many letters.
fn push_name(source: &mut Bytes, before: &[u8], letters: usize) -> Result<(), Mem> {
    source.extend_from_slice(before)?;
    repeat(source, b"a", letters)
}

// `(define (f a aa ..) (begin 0 (display a) (display aa) ..))`.
fn of_operands(alloc: Global, count: usize) -> Result<Bytes, Mem> {
    let mut formals = Bytes::from_slice(alloc, b"(define (f")?;
    let mut body = Bytes::from_slice(alloc, b") (begin 0")?;
    for i in 0..count {
        push_name(&mut formals, b" ", i + 1)?;
        push_name(&mut body, b"(display ", i + 1)?;
        body.push(b')')?;
    }
    formals.append(body)?;
    formals.extend_from_slice(b"))")?;
    Ok(formals)
}

// The digits of so many numbers from 0 on, each behind these bytes.
fn digits(alloc: Global, count: usize, before: &[u8]) -> Result<Bytes, Mem> {
    let mut all = Bytes::new(alloc);
    for i in 0..count {
        all.extend_from_slice(before)?;
        all.push(b'0' + (i % 10) as u8)?;
    }
    Ok(all)
}

// Calls `f` with so many operands, which stand between these texts.
fn check_operands(alloc: Global, count: usize, call: (&[u8], &[u8])) -> Result<(), Fail> {
    let mut source = of_operands(alloc, count)?;
    source.extend_from_slice(call.0)?;
    source.append(digits(alloc, count, b" ")?)?;
    source.extend_from_slice(call.1)?;
    let printed = digits(alloc, count, b"")?;
    check_well(alloc, RUN, source.as_slice(), (0, printed.as_slice(), b""))
}

// Six operands are handed over in registers, the others in slots of frames.
#[test]
fn calls_take_many_operands(rt: HostRuntime) -> Result<(), Fail> {
    for count in [0, 1, 6, 7, 8, 200] {
        check_operands(rt.alloc(), count, (b"(define (g) (f", b"))(g)"))?;
        check_operands(rt.alloc(), count, (b"(define (g) (begin (f", b") 0))(g)"))?;
    }
    Ok(())
}
