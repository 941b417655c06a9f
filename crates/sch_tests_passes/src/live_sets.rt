//! What is live after the calls of a body.

use crate::texts::{Piece, joined};
use crate::trees::{check_each, check_shown};
use std::test::Fail;

// Variable 0 is the return address, 2 and 3 are the formals. In a form at top level no return address is live, and variable 2
// is the first that is bound.
const LIVE: &[(&str, &str)] = &[
    (
        "(define (h z) z)(define (g x y) (if (and x (h y)) y (not (h x))))",
        "live(after 0 2 3)(after 0)\n",
    ),
    (
        "(define (h z) z)(define (g x y) (h y) (h y) x)",
        "live(after 0 2 3)(after 0 2)\n",
    ),
    ("(define (g x y) y)", "live\n"),
    (
        "(define (h z) z)(let ((x (h 1))) (h x) x)",
        "live(after)(after 2)\n",
    ),
];

#[test]
fn live_sets(rt: HostRuntime) -> Result<(), Fail> {
    check_each(rt.alloc(), LIVE)
}

// A procedure that calls another in an arm of a test and then again, where its second formal is bound anew 64 times, and 256.
const BOUND_64: &[Piece] = &[
    ("(define (h z) z)(define (g x y) ", 1),
    ("(let ((y y)) ", 64),
    ("(if (and x (h y)) y (not (h x)))", 1),
    (")", 65),
];

const BOUND_256: &[Piece] = &[
    ("(define (h z) z)(define (g x y) ", 1),
    ("(let ((y y)) ", 256),
    ("(if (and x (h y)) y (not (h x)))", 1),
    (")", 257),
];

// This formal is variable 67, and 259.
#[test]
fn live_sets_of_many_words(rt: HostRuntime) -> Result<(), Fail> {
    let alloc = rt.alloc();
    let few = joined(alloc, BOUND_64)?;
    check_shown(alloc, 4, few.as_str(), "live(after 0 2 67)(after 0)\n")?;
    let many = joined(alloc, BOUND_256)?;
    check_shown(alloc, 16, many.as_str(), "live(after 0 2 259)(after 0)\n")
}
