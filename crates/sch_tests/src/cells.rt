//! Assignments, cells and procedures that are made, run over memory, and the heap that they take.

use crate::outside::{RUN, Repeated, Wanted, check_printed, check_repeated, check_well};
use std::test::Fail;

const PROGRAMS: &[(&[u8], &[u8])] = &[
    (b"(let ((n 1)) (set! n (+ n 1)) (display n))", b"2"),
    (b"(define g 1)(set! g (+ g 4))(display g)", b"5"),
    (b"(letrec ((a 1) (b 2)) (display (+ a b)))", b"3"),
    (
        b"(let ((a 1) (b 2)) (set! a b) (set! b 7) (display a)(display b))",
        b"27",
    ),
    (
        b"(let () (define x 5) (define (f) x) (set! x 6) (display x))",
        b"6",
    ),
    (b"(let ((t 5)) (display (or #f t)))", b"5"),
    // Procedures that are made.
    (b"(define (f x) x)(display f)", b"#<procedure>"),
    (b"(let ((x 1)) (display (procedure? (lambda () x))))", b"#t"),
    (
        b"(letrec ((f (lambda () g)) (g (lambda () f))) (display (eq? f g))(display (eq? f f)))",
        b"#f#t",
    ),
    (
        b"(let ((n 1)) (let ((f (lambda () (set! n 2)))) (display n)(display f)))",
        b"1#<procedure>",
    ),
];

#[test]
fn assignments_and_procedures_print(rt: HostRuntime) -> Result<(), Fail> {
    check_printed(rt.alloc(), RUN, PROGRAMS)
}

#[test]
fn unset_variables_stop(rt: HostRuntime) -> Result<(), Fail> {
    let unset = b"stop 73: unset variable\n";
    check_well(
        rt.alloc(),
        RUN,
        b"(letrec ((a b)(b 1)) a)",
        (73, b"", unset),
    )
}

const HEAP: &[u8] = b"stop 71: heap limit\n";

const CELL: &[u8] = b"(let ((n 0)) (set! n 1))\n";

const TAKER: &[u8] = b"(define (f n) (set! n 1))";

const CELLS: &[(Repeated, Wanted)] = &[
    // The least heap has 4,096 bytes, room for 256 cells.
    ((b"", CELL, 256, b""), (0, b"", b"")),
    ((b"", CELL, 257, b""), (71, b"", HEAP)),
    // A procedure takes 16 bytes of the heap, and each call of it a cell of 16.
    ((TAKER, b"(f 0)", 255, b""), (0, b"", b"")),
    (
        (TAKER, b"(f 0)", 255, b"(f)"),
        (68, b"", b"stop 68: wrong argument count\n"),
    ),
    ((TAKER, b"(f 0)", 256, b""), (71, b"", HEAP)),
];

#[test]
fn cells_fill_the_heap(rt: HostRuntime) -> Result<(), Fail> {
    check_repeated(rt.alloc(), RUN, CELLS)
}
