//! Texts that have a program, the limit of variables, and how deep data are walked.

ghost use Rattle.std.specs.Prelude.{◌≡◌, ◌+◌, ◌*◌, length, IfOk};
ghost use Rattle.sch_read.specs.Grammar.{atom, list, symbol};
ghost use Rattle.sch_read.specs.Valid.{weight};
ghost use Rattle.sch_read.specs.Views.{tree_of, data_of};

use crate::texts::{Piece, joined, program_of};
use sch_core::{CoreError, Library, core};
use sch_read::{Atom, Datum, Node};
use sch_word::{Bytes, List, Mem};
use std::alloc::{AllocError, Global};
use std::str;
use std::test::Fail;

// How many globals and sites the program of a text has.
fn counts_of(alloc: Global, text: &[u8]) -> Result<(usize, usize), CoreError> {
    let p = program_of(alloc, text)?;
    Ok((p.globals.len(), p.sites.len()))
}

// Both numbers, or the line of the text's fault.
fn answer_of(alloc: Global, text: &str) -> Result<String, AllocError> {
    match counts_of(alloc, text.as_bytes()) {
        Ok((globals, sites)) => format!(in alloc; "globals {globals}, sites {sites}"),
        Err(fault) => format!(in alloc; "{fault}"),
    }
}

// What the expander answers to a text.
fn check_answer(alloc: Global, text: &str, wanted: &str) -> Result<(), Fail> {
    let answer = answer_of(alloc, text)?;
    if answer.as_str() == wanted {
        return Ok(());
    }
    Err(Fail::new(format_args!("{answer}: {text}")))
}

const TEXTS: &[(&str, &str)] = &[
    ("", "globals 0, sites 0"),
    ("(char? 1)(null? '())(char? #\\a)", "globals 0, sites 3"),
    (
        "(define x 7)(let ((y (* x 6))) (if (< y 40) (null? '()) (null? (- y 50))))",
        "globals 1, sites 6",
    ),
    (
        "(begin (begin) (define x 1) x) (+) (*) (- x) (= x x x x)",
        "globals 1, sites 5",
    ),
    (
        "(and 1 2 3)(or 1 2)(if (or 1 2) 3 4)(not 1)(let* ((x 1) (y x)) y)",
        "globals 0, sites 3",
    ),
    (
        "(cond (1 2) (3) (else 4))(case 1 ((2 3) 4) (else 5))(let ((else 1)) (cond (else 2)))",
        "globals 0, sites 5",
    ),
    (
        "(define (f x) (f x))(define g 1)(set! g 2)",
        "globals 2, sites 1",
    ),
    (
        "(letrec ((a 1)) (let loop ((i 0)) (if i (loop i) a)))",
        "globals 0, sites 3",
    ),
    (
        "\"a\"'(1 2)'b(do ((i 0 (+ i 1))) ((= i 5) i))",
        "globals 0, sites 4",
    ),
    ("(cond (1 => (lambda (x) x)))", "globals 0, sites 2"),
    ("(case 1 ((x) 2))", "globals 0, sites 2"),
    ("(let () (define x 1) x)", "globals 0, sites 2"),
    // Badly formed.
    ("(cond)", "byte 0: bad form"),
    ("(cond (else))", "byte 0: bad form"),
    ("(cond (else 1) (2))", "byte 0: bad form"),
    ("(cond (1 =>))", "byte 9: bad form"),
    ("(case 1)", "byte 0: bad form"),
    ("(case 1 ((2)))", "byte 0: bad form"),
    ("(let* ((x 1)))", "byte 0: bad form"),
    ("(let () (define x 1))", "byte 0: bad form"),
    ("(let ((x 1) (x 2)) x)", "byte 0: bad form"),
    ("(lambda (x x) 1)", "byte 0: bad form"),
    ("(set! if 1)", "byte 0: bad form"),
    ("(define (f 1) 2)", "byte 0: bad form"),
    ("(define if . 1)", "byte 0: bad form"),
    ("(do ((i 0)) ())", "byte 0: bad form"),
    ("(let () (define x) 1)", "byte 8: bad form"),
    // Names that are not bound, and a keyword that is defined.
    ("(set! q 1)", "byte 6: unbound"),
    (
        "(lambda (x) (if #f (set! car x)))(car 1)",
        "byte 25: unbound",
    ),
    ("(display 1)", "byte 1: unbound"),
    ("(define (if) 1)", "byte 0: keyword defined"),
];

#[test]
fn expands_or_refuses_each_form(rt: HostRuntime) -> Result<(), Fail> {
    for (text, wanted) in TEXTS {
        check_answer(rt.alloc(), text, wanted)?;
    }
    Ok(())
}

/// Texts of pieces.
const LEVELS: &[(&[Piece], &str)] = &[
    // 998 bindings of nothing, each around an expression and the next, and a chain of comparisons in the last:
    // its second element would stand at level 2,001.
    (
        &[("(let () 1 ", 998), ("(= 1 2 3 4)", 1), (")", 998)],
        "byte 9985: limit core",
    ),
    // A choice of 1,997 levels is walked, and then a name that is nowhere bound.
    (&[("(or", 1), (" 1", 999), (") x", 1)], "byte 2003: unbound"),
];

#[test]
fn counts_and_walks_levels(rt: HostRuntime) -> Result<(), Fail> {
    for (pieces, wanted) in LEVELS {
        let text = joined(rt.alloc(), pieces)?;
        check_answer(rt.alloc(), text.as_str(), wanted)?;
    }
    Ok(())
}

// The bindings of 200 variables, up to where their body begins.
fn push_bindings(out: &mut Bytes) -> Result<(), Mem> {
    out.extend_from_slice(b"(let (")?;
    for k in 0..200u8 {
        let (hundreds, tens, ones) = (b'0' + k / 100, b'0' + k / 10 % 10, b'0' + k % 10);
        out.extend_from_slice(&[b'(', b'v', hundreds, tens, ones, b' ', b'1', b')'])?;
    }
    out.extend_from_slice(b") ")
}

// A part of a form at top level with this body inside the bindings of 1,000 variables.
fn exceeding(alloc: Global, body: &[u8]) -> Result<Bytes, Mem> {
    let mut text = List::from_slice(alloc, b"1 (begin (begin) ")?;
    for _ in 0..5 {
        push_bindings(&mut text)?;
    }
    text.extend_from_slice(body)?;
    text.extend_from_slice(b")))))) 2")?;
    Ok(text)
}

// What the expander answers to it.
fn check_exceeding(alloc: Global, body: &str, wanted: &str) -> Result<(), Fail> {
    let text = exceeding(alloc, body.as_bytes())?;
    let text = str::from_utf8(text.as_slice()).ok().ok_or("no text")?;
    check_answer(alloc, text, wanted)
}

#[test]
fn counts_variables(rt: HostRuntime) -> Result<(), Fail> {
    check_exceeding(rt.alloc(), "(+ v000 v199)", "globals 0, sites 6")?;
    check_exceeding(rt.alloc(), "(let ((x 1)) 1)", "byte 17: limit variables")
}

fn word(at: u32, name: List<u8>) -> Datum
    ensures { tree_of result ≡ atom at (symbol name) }
{
    let node = Node::Atom(Atom::Symbol(name));
    Datum { at, node }
}

fn listed(at: u32, items: List<Datum>) -> Datum
    ensures { tree_of result ≡ list at (data_of items) }
{
    let node = Node::List(items, None);
    Datum { at, node }
}

// A datum behind a name of five letters, in a list.
fn behind(alloc: Global, at: u32, name: &[u8], d: Datum) -> Result<Datum, Mem>
    requires { length name.now ≡ 5 }
    ensures { IfOk result (λ r. weight (tree_of r) ≡ 7 + weight (tree_of d)) }
{
    let mut items = List::new(alloc);
    items.push(word(at, List::from_slice(alloc, name)?))?;
    items.push(d)?;
    Ok(listed(at, items))
}

// An empty list in this number of `begin`s.
fn in_beginnings(alloc: Global, levels: u32) -> Result<Datum, Mem>
    ensures { IfOk result (λ d. weight (tree_of d) ≡ 1 + 7 * levels) }
{
    let mut d = listed(0, List::new(alloc));
    for at in 0..levels {
        d = behind(alloc, at, b"begin", d)?;
    }
    Ok(d)
}

// Whether the data are walked: an empty list in `begin`s is a bad form.
fn is_walked(alloc: Global, levels: u32) -> Result<bool, Mem> {
    let d = in_beginnings(alloc, levels.min(1_000_000))?;
    let mut items = List::new(alloc);
    items.push(d)?;
    match core(alloc, &Library::empty(alloc), items.as_slice()) {
        Err(CoreError::BadForm(0)) => Ok(true),
        _ => Ok(false),
    }
}

#[test]
fn very_deep_data_are_walked(rt: HostRuntime) -> Result<(), Fail> {
    assert!(rt; is_walked(rt.alloc(), 900)?);
    assert!(rt; is_walked(rt.alloc(), 300_000)?);
    Ok(())
}

// Whether such data, quoted, have a program of one literal.
fn is_one_literal(alloc: Global, levels: u32) -> Result<bool, Mem> {
    let d = in_beginnings(alloc, levels.min(1_000_000))?;
    let d = behind(alloc, 0, b"quote", d)?;
    let mut items = List::new(alloc);
    items.push(d)?;
    match core(alloc, &Library::empty(alloc), items.as_slice()) {
        Ok(p) => Ok(p.literals.len() == 1),
        Err(_) => Ok(false),
    }
}

#[test]
fn very_deep_data_are_quoted(rt: HostRuntime) -> Result<(), Fail> {
    assert!(rt; is_one_literal(rt.alloc(), 300_000)?);
    Ok(())
}
