//! Programs that are run without options, or with a depth alone.

use crate::outside::{Called, Ended, check_files, check_lines};
use std::test::Fail;

const PROGRAMS: &[Ended] = &[
    (b"", (0, b"", b"")),
    (b"(display (+ 1 2))(newline)", (0, b"3\n", b"")),
    (b"(display -42)", (0, b"-42", b"")),
    (
        b"(display 1152921504606846975)",
        (0, b"1152921504606846975", b""),
    ),
    (
        b"(display (quotient (- 0 7) 2))(display (modulo -7 2))",
        (0, b"-31", b""),
    ),
    (
        b"(define (swap a b n) (if (= n 0) (display a) (swap b a (- n 1))))(swap 1 2 3)",
        (0, b"2", b""),
    ),
    (
        b"(define (fact n) (if (= n 0) 1 (* n (fact (- n 1)))))(display (fact 5))",
        (0, b"120", b""),
    ),
    (
        b"(define (h z) z)(define (g x y) (if (and x (h y)) y (not (h x))))(display (g 1 7))(display (g #f 7))",
        (0, b"7#t", b""),
    ),
    (
        b"(let ((if (lambda (a b c) b)))(display (if #f 1 2)))",
        (0, b"1", b""),
    ),
    // Stops.
    (
        b"(display (+ 1152921504606846975 1))",
        (70, b"", b"stop 70: fixnum overflow\n"),
    ),
    (b"(quotient 1 0)", (69, b"", b"stop 69: division by zero\n")),
    (b"(car 1)", (65, b"", b"stop 65: wrong type\n")),
    (
        b"(vector-ref (make-vector 2 0) 2)",
        (66, b"", b"stop 66: out of range\n"),
    ),
    (b"(1 2)", (67, b"", b"stop 67: not a procedure\n")),
    (
        b"((lambda (x) x))",
        (68, b"", b"stop 68: wrong argument count\n"),
    ),
    (
        b"(letrec ((a b)(b 1)) a)",
        (73, b"", b"stop 73: unset variable\n"),
    ),
];

#[test]
fn programs_end(rt: HostRuntime) -> Result<(), Fail> {
    check_files(rt.alloc(), "run p.scm", PROGRAMS)
}

const NINE_PENDING: &[u8] = b"(define (d n) (if (= n 0) 0 (+ 1 (d (- n 1)))))(display (d 9))";

// A call at the top level takes the one depth, tail calls and the display of a string none.
const DEPTHS: &[Called] = &[
    (
        "run p.scm --depth 1",
        b"(define (loop i) (if (= i 0) (display \"ok\") (loop (- i 1))))(loop 1000000)",
        (0, b"ok", b""),
    ),
    ("run p.scm --depth 10", NINE_PENDING, (0, b"9", b"")),
    (
        "run p.scm --depth 9",
        NINE_PENDING,
        (72, b"", b"stop 72: depth limit\n"),
    ),
    (
        "run p.scm --steps 1000",
        b"(define (f) (f))(f)",
        (9, b"", b"steps spent\n"),
    ),
];

#[test]
fn programs_at_a_depth(rt: HostRuntime) -> Result<(), Fail> {
    check_lines(rt.alloc(), DEPTHS)
}
