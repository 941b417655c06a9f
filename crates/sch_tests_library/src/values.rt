//! Procedures of the library, run over memory: as values, under names of the text, and what depth they take.

use crate::program::{
    DEPTH_LIMIT, DIVIDE_BY_ZERO, HEAP_LIMIT, NOT_PROCEDURE, RUN, WRONG_COUNT, check, check_rows,
    check_stops, repeated,
};
use std::test::Fail;

const VALUES: &[(&[u8], &[u8])] = &[
    (
        b"(define (twice f a) (f (f a)))(display (twice not #f))",
        b"#f",
    ),
    (b"(define p display)(p 5)(define q newline)(q)", b"5\n"),
    (
        b"(define (f g) (g 7 2))(display (f quotient))(display (f modulo))",
        b"31",
    ),
    (
        b"(display (eq? display display))(display (eq? not display))",
        b"#t#f",
    ),
    (
        b"(display (procedure? newline))(display not)",
        b"#t#<procedure>",
    ),
    (b"(display ((if #t char->integer not) #\\a))", b"97"),
    (
        b"(let ((f integer->char) (g char?)) (display (g (f 98))))",
        b"#t",
    ),
    (
        b"(display (cond (7 => pair?)))(display (cond (7 => integer?)))",
        b"#f#t",
    ),
    // A name of the library that the text defines or assigns is the text's own, and holds the procedure until then. The
    // library keeps its own.
    (b"(define (display a) 1)(display 2)", b""),
    (b"(set! not (lambda (a) 7))(display (not 1))", b"7"),
    (
        b"(display (not 1))(set! not (lambda (a) 7))(display (not 1))",
        b"#f7",
    ),
    (
        b"(define old display)(set! display (lambda (a) (old (+ a 1))))(display 1)",
        b"2",
    ),
    (
        b"(define (not a) (if a 3 4))(define (f g) (g #f))(display (f not))",
        b"4",
    ),
    (b"(display (let ((newline 3)) newline))", b"3"),
    (
        b"(let ((display (lambda (a) (newline)))) (display 2))",
        b"\n",
    ),
    (b"(define car 5)(display car)", b"5"),
    (
        b"(lambda (x) (if #f (set! car x)))(display (car '(1)))(set! car (lambda (a) 7))(display (car '(1)))",
        b"17",
    ),
];

#[test]
fn library_procedures_are_values(rt: HostRuntime) -> Result<(), Fail> {
    check_rows(rt.alloc(), VALUES)
}

const STOPS: &[(&[u8], u8, &[u8])] = &[
    (b"(display)", 68, WRONG_COUNT),
    (b"(not)", 68, WRONG_COUNT),
    (b"(display (quotient 1))", 68, WRONG_COUNT),
    (b"(define (f g) (g 1 0))(f quotient)", 69, DIVIDE_BY_ZERO),
    (b"(set! newline 1)(newline)", 67, NOT_PROCEDURE),
];

#[test]
fn library_procedures_stop(rt: HostRuntime) -> Result<(), Fail> {
    check_stops(rt.alloc(), STOPS)
}

const AT_ONE: [&str; 6] = ["run", "a", "--heap", "4096", "--depth", "1"];

/// Sources at a depth of one call: the status, what is printed, and what is said.
const ENDINGS: &[(&[u8], u8, &[u8], &[u8])] = &[
    // An operation takes no depth. Where its name is assigned anywhere it is a global of the text, which is called.
    (b"(define (f) (begin (car '(1)) 2))(f)", 0, b"", b""),
    (
        b"(lambda (x) (if #f (set! car x)))(define (f) (begin (car '(1)) 2))(f)",
        72,
        b"",
        DEPTH_LIMIT,
    ),
    // A call of a procedure of the library takes depth as any other.
    (b"(display 1)(newline)", 0, b"1\n", b""),
    (b"(define (f) (display 1))(f)", 0, b"1", b""),
    (
        b"(define (f) (begin (display 1) 2))(f)",
        72,
        b"",
        DEPTH_LIMIT,
    ),
];

#[test]
fn library_procedures_take_depth(rt: HostRuntime) -> Result<(), Fail> {
    for (source, status, printed, said) in ENDINGS {
        check(rt.alloc(), &AT_ONE, source, (*status, printed, said))?;
    }
    Ok(())
}

const WRONG_COUNTS: &[&[u8]] = &[b"(display 1)(display 1 2)", b"(newline (display 1))"];

// What stands before is done.
#[test]
fn counts_are_checked_late(rt: HostRuntime) -> Result<(), Fail> {
    for source in WRONG_COUNTS {
        check(rt.alloc(), &RUN, source, (68, b"1", WRONG_COUNT))?;
    }
    Ok(())
}

const AT_TWENTY: [&str; 6] = ["run", "a", "--heap", "4096", "--depth", "20"];

const CELL: &[u8] = b"(let ((n 0)) (set! n 1))";

// The procedures take no heap: 4,096 bytes have room for 256 cells beside them.
#[test]
fn library_procedures_take_no_heap(rt: HostRuntime) -> Result<(), Fail> {
    let alloc = rt.alloc();
    let mut source = repeated(alloc, b"(define p not)(display (p (p 1)))", CELL, 256)?;
    check(alloc, &AT_TWENTY, source.as_slice(), (0, b"#t", b""))?;
    source.extend_from_slice(CELL)?;
    check(
        alloc,
        &AT_TWENTY,
        source.as_slice(),
        (71, b"#t", HEAP_LIMIT),
    )
}
