//! Lists of operands, run over memory: behind many formals, and in calls of many operands (R5RS 4.1.4).

use crate::program::{WRONG_COUNT, check_printed, check_rows, check_stops};
use std::alloc::{AllocError, Global};
use std::test::Fail;

/// Formals before the rest variable that come in registers, and such that come in the frame.
const FORMALS: &[(&[u8], &[u8])] = &[
    (
        b"(define (f a b c d e g . l) (write l))(f 1 2 3 4 5 6)",
        b"()",
    ),
    (
        b"(define (f a b c d e g . l) (write l))(f 1 2 3 4 5 6 7)",
        b"(7)",
    ),
    (
        b"(define (f a b c d e g . l) (write l))(f 1 2 3 4 5 6 7 8 9)",
        b"(7 8 9)",
    ),
    (
        b"(define (f a b c d e g h . l) (write l))(f 1 2 3 4 5 6 7)",
        b"()",
    ),
    (
        b"(define (f a b c d e g h . l) (write l)(write h))(f 1 2 3 4 5 6 7 8)",
        b"(8)7",
    ),
    (
        b"(define (f a b c d e g h i . l) (write (list a g h i l)))(f 1 2 3 4 5 6 7 8)",
        b"(1 6 7 8 ())",
    ),
    (
        b"(define (f a b c d e g h i . l) (write (list a g h i l)))(f 1 2 3 4 5 6 7 8 9)",
        b"(1 6 7 8 (9))",
    ),
    (
        b"(define (f a b c d e g h i . l) (write (list a g h i l)))(f 1 2 3 4 5 6 7 8 9 10 11)",
        b"(1 6 7 8 (9 10 11))",
    ),
    (
        b"(define k 7)(define (f a b c d e g h i . l) (lambda () (list k a i l)))(write ((f 1 2 3 4 5 6 7 8 9 10)))",
        b"(7 1 8 (9 10))",
    ),
    // Calls of no and of some operands.
    (b"(define (f . l) l)(write (f))", b"()"),
    (
        b"(define (f . l) l)(write (f 1 2 3 4 5 6))",
        b"(1 2 3 4 5 6)",
    ),
    (
        b"(define (f . l) l)(write (f 1 2 3 4 5 6 7))",
        b"(1 2 3 4 5 6 7)",
    ),
    (b"(define (f . l) l)(define (g) (f))(write (g))", b"()"),
    (
        b"(define (f . l) l)(define (g a) (f a 2 3 4 5 6 7 a))(write (g 1))",
        b"(1 2 3 4 5 6 7 1)",
    ),
    (
        b"(define (f a . l) (if (null? l) a (set! l (cons a l))) l)(write (f 1))(write (f 1 2))",
        b"()(1 2)",
    ),
    (
        b"(define (f . l) (if (null? l) 'none (car l)))(define (g n) (if (= n 0) (f) (g (- n 1))))(write (g 100))(write (f 3 4))",
        b"none3",
    ),
    (
        b"(define (f a . l) (eq? l l))(write (f 1 2))(write ((lambda l l) \"a\" #\\b))",
        b"#t(\"a\" #\\b)",
    ),
];

#[test]
fn behind_many_formals_and_in_calls(rt: HostRuntime) -> Result<(), Fail> {
    check_rows(rt.alloc(), FORMALS)
}

/// The digits of these places, each behind a space.
fn push_digits(out: &mut Vec<u8>, first: usize, end: usize) -> Result<(), AllocError> {
    for place in first..end {
        out.push(b' ')?;
        out.push(b'0' + (place % 10) as u8)?;
    }
    Ok(())
}

/// `(define (g) (f 0 1 ... ))`, with this many operands, each the digit of its place, between these texts.
fn push_call(out: &mut Vec<u8>, texts: (&[u8], &[u8]), operands: usize) -> Result<(), AllocError> {
    out.extend_from_slice(b"(define (f a . l) l)(define (g) ")?;
    out.extend_from_slice(texts.0)?;
    push_digits(out, 0, operands)?;
    out.extend_from_slice(texts.1)
}

/// What `f` makes of them, or what stands behind its first element, is written: the digits from this place on.
fn push_list(out: &mut Vec<u8>, first: usize, operands: usize) -> Result<(), AllocError> {
    out.push(b'(')?;
    out.push(b'0' + (first % 10) as u8)?;
    push_digits(out, first.saturating_add(1), operands)?;
    out.push(b')')?;
    Ok(())
}

/// What stands before and behind the operands of a call, and the place of the first operand that is written.
const CALLS: &[((&[u8], &[u8]), usize)] = &[
    ((b"(cdr (f", b")))(write (g))"), 2),
    ((b"(f", b"))(write (g))"), 1),
];

// Calls with this many operands, and with a tail call.
fn check_calls(alloc: Global, operands: usize) -> Result<(), Fail> {
    for (texts, first) in CALLS {
        let mut source = Vec::new(alloc);
        push_call(&mut source, *texts, operands)?;
        let mut printed = Vec::new(alloc);
        push_list(&mut printed, *first, operands)?;
        check_printed(alloc, source.as_slice(), printed.as_slice())?;
    }
    Ok(())
}

// 200 operands are the most that a call may have.
#[test]
fn in_calls_of_many_operands(rt: HostRuntime) -> Result<(), Fail> {
    for operands in [6, 7, 8, 199, 200] {
        check_calls(rt.alloc(), operands)?;
    }
    Ok(())
}

/// Fewer operands than formals are a wrong count, before anything is charged.
const STOPS: &[(&[u8], u8, &[u8])] = &[
    (b"(define (f a . l) l)(f)", 68, WRONG_COUNT),
    (
        b"(define (f a b c d e g h i . l) l)(f 1 2 3 4 5 6 7)",
        68,
        WRONG_COUNT,
    ),
];

#[test]
fn counts_are_checked(rt: HostRuntime) -> Result<(), Fail> {
    check_stops(rt.alloc(), STOPS)?;
    check_printed(rt.alloc(), b"(define (f a . l) l)(write (f 1))", b"()")
}
