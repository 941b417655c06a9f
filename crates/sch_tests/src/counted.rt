//! The verb `count` over memory.

use crate::outside::{Outside, check, check_printed, check_well};
use sch_word::Answer;
use std::test::Fail;

const COUNTS: &[(&[u8], &[u8])] = &[
    (
        b"(define (fact n) (if (= n 0) 1 (* n (fact (- n 1)))))(display (fact 5))",
        b"display 1 1 0 0\nform 1 0 0 0\nfact 6 1 10 0\nform 1 0 0 0\nstatus 0\n",
    ),
    (
        b"(define (h z) z)(define (g x y) (if (and x (h y)) y (not (h x))))(display (g 1 7))(display (g #f 7))",
        b"display 2 2 0 0\nform 1 0 0 0\nh 2 2 0 0\nform 1 0 0 0\ng 2 0 4 0\nform 1 0 0 0\nform 1 0 0 0\nstatus 0\n",
    ),
];

#[test]
fn counts_of_sources(rt: HostRuntime) -> Result<(), Fail> {
    check_printed(rt.alloc(), "count a", COUNTS)
}

#[test]
fn counts_that_are_not_printed(rt: HostRuntime) -> Result<(), Fail> {
    let alloc = rt.alloc();
    let spent = (9, b"".as_slice(), b"steps spent\n".as_slice());
    check_well(alloc, "count a --steps 0", b"(display 1)", spent)?;
    let failing = Outside {
        out: &[Answer::Took(4), Answer::Failed],
        ..Outside::of(b"(quotient 1 0)")
    };
    check(alloc, "count a", failing, (3, b"form", b"output failed\n"))
}
