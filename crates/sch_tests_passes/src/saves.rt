//! Where a body saves its variables, and what its calls restore.

use crate::trees::check_each;
use std::test::Fail;

// The return address is saved where the body begins, and the formals in the arm of the first call alone. Between two calls
// what only the last part reads is not restored. What is bound in a region is saved where it is bound.
const SAVES: &[(&str, &str)] = &[
    (
        "(define (h z) z)(define (g x y) (if (and x (h y)) y (not (h x))))",
        "saves(save 0(save 2 3(after 0 2 3))(after 0))\nrestores(save 0(save 2 3(after 0 2 3))(after 0))\n",
    ),
    (
        "(define (h z) z)(define (g x y) (h y) (h y) x)",
        "saves(save 0 2 3(after 0 2 3)(after 0 2))\nrestores(save 0 2 3(after 3)(after 0 2))\n",
    ),
    ("(define (g x y) y)", "saves\nrestores\n"),
    (
        "(define (h z) z)(let ((x (h 1))) (h x) x)",
        "saves(save 2(after)(after 2))\nrestores(save 2(after)(after 2))\n",
    ),
];

#[test]
fn saves_and_restores(rt: HostRuntime) -> Result<(), Fail> {
    check_each(rt.alloc(), SAVES)
}
