//! Where the variables of a body live.

use crate::trees::check_each;
use std::test::Fail;

// The return address stays in R15, the closure in R14 and the formals in RBX, R8, R9, R10, RSI and RDI, as they arrive. Another
// variable has the first of these six that holds nothing that is live behind it, and else a slot; so has a global that is called.
const PLACES: &[(&str, &str)] = &[
    (
        "(define (h z) z)(define (g x y) (if (and x (h y)) y (not (h x))))",
        "places 15 14 3 8 9 8\n",
    ),
    ("(define (g x y) y)", "places 15 14 3 8\n"),
    (
        "(define (g a b c d e f) (let ((x 1)) (g a b c d e x)))",
        "places 15 14 3 8 9 10 6 7 7 s 0\n",
    ),
    (
        "(define (g a b c d e f) (let ((x 1)) (g f a b c d e x)))",
        "places 15 14 3 8 9 10 6 7 s 0 s 1\n",
    ),
    ("(let ((x 1)) x)", "places 15 14 3\n"),
];

#[test]
fn places_of_variables(rt: HostRuntime) -> Result<(), Fail> {
    check_each(rt.alloc(), PLACES)
}
