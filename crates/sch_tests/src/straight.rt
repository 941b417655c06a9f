//! Straight code, run over memory.

use crate::outside::{Ended, RUN, Repeated, Wanted, check_files, check_printed, check_repeated};
use std::test::Fail;

const PROGRAMS: &[(&[u8], &[u8])] = &[
    (
        b"(define x 7)(let ((y (* x 6))) (if (< y 40) (display 0) (display (- y 50))))",
        b"-8",
    ),
    // Differences from the left; sums, products and differences of one operand and of none.
    (
        b"(display (- 10 2 3))(display (*))(display (* 5))(display (+))(display (+ 4))(display (- 4))",
        b"51504-4",
    ),
    (
        b"(display (quotient -7 2))(display (remainder -7 2))(display (modulo -7 2))",
        b"-3-11",
    ),
    (
        b"(display (quotient 7 -2))(display (remainder 7 -2))(display (modulo 7 -2))",
        b"-31-1",
    ),
    (
        b"(define a -1152921504606846976)(define b 1152921504606846975)(display (quotient a b))(display (modulo a b))",
        b"-11152921504606846974",
    ),
    (
        b"(define a -1152921504606846976)(define b 1152921504606846975)(display (quotient b a))(display (modulo b a))",
        b"0-1",
    ),
    (
        b"(display (remainder -1152921504606846976 -1))(display (quotient 1152921504606846975 -1))",
        b"0-1152921504606846975",
    ),
    // Comparisons.
    (
        b"(display (integer->char 255))(display (char->integer (integer->char 255)))",
        b"\xff255",
    ),
    (
        b"(display (< -1 0))(display (> 1152921504606846975 -1152921504606846976))(display (<= 1 1))",
        b"#t#t#t",
    ),
    (
        b"(display (>= 0 1))(display (= 5 5 6))(display (< 1 2 3))",
        b"#f#f#t",
    ),
    (
        b"(define a -1152921504606846976)(define b 1152921504606846975)(display (= a b))(display (= b a))(display (= a a))(display (= b b))",
        b"#f#f#t#t",
    ),
    (
        b"(define a -1152921504606846976)(define b 1152921504606846975)(display (< a b))(display (< b a))(display (< a a))(display (< b b))",
        b"#t#f#f#f",
    ),
    (
        b"(define a -1152921504606846976)(define b 1152921504606846975)(display (<= a b))(display (<= b a))(display (<= a a))(display (<= b b))",
        b"#t#f#t#t",
    ),
    (
        b"(define a -1152921504606846976)(define b 1152921504606846975)(display (>= a b))(display (>= b a))(display (> a b))(display (> b a))",
        b"#f#t#f#t",
    ),
    (
        b"(display (eqv? 1 1))(display (null? '()))(display (char? 1))(display (boolean? #f))",
        b"#t#t#f#t",
    ),
    // Choices.
    (
        b"(display (let* ((a 1) (b (+ a 1))) (cond ((= a b) 1) ((and (< a b) (not (eq? a b))) (quotient 100 (- b 9))) (else 0))))",
        b"-14",
    ),
    (
        b"(display (case (remainder 17 5) ((0 1) #f) ((2 3) #\\a) (else 0)))",
        b"a",
    ),
    (
        b"(display (or #f (and 1 2) 3))(display (cond (#f 1) (5)))(display (or))",
        b"25#f",
    ),
    (b"(let ((t 5) (if 1)) (display (or #f t if)))", b"5"),
];

#[test]
fn straight_code_prints(rt: HostRuntime) -> Result<(), Fail> {
    check_printed(rt.alloc(), RUN, PROGRAMS)
}

const ZERO: &[u8] = b"stop 69: division by zero\n";

const OVERFLOW: &[u8] = b"stop 70: fixnum overflow\n";

const STOPS: &[Ended] = &[
    (b"(display (quotient 7 (- 2 2)))", (69, b"", ZERO)),
    (b"(display 1)(display (modulo 1 0))", (69, b"1", ZERO)),
    (
        b"(display x)(define x 1)",
        (73, b"", b"stop 73: unset variable\n"),
    ),
    (b"(display (+ 1152921504606846975 1))", (70, b"", OVERFLOW)),
    (
        b"(display (* -1152921504606846976 -1))",
        (70, b"", OVERFLOW),
    ),
    (
        b"(display (quotient -1152921504606846976 -1))",
        (70, b"", OVERFLOW),
    ),
    (b"(display (< 1 #t))", (65, b"", b"stop 65: wrong type\n")),
    (
        b"(display (integer->char 256))",
        (66, b"", b"stop 66: out of range\n"),
    ),
];

#[test]
fn straight_code_stops(rt: HostRuntime) -> Result<(), Fail> {
    check_files(rt.alloc(), RUN, STOPS)
}

const PRODUCT: &[u8] = b"(* 1 1 1 1 1 1 1 1 1 1 1 1 1 1 1 1 1 1 1 1)\n";

// 1 MiB of products of 20 operands, whose text would be longer than that of an image may be.
const PRODUCTS: &[(Repeated, Wanted)] = &[(
    (b"", PRODUCT, 23_831, b""),
    (7, b"", b"a: limit text\n"),
)];

#[test]
fn a_text_past_the_limit_is_refused(rt: HostRuntime) -> Result<(), Fail> {
    check_repeated(rt.alloc(), "run a", PRODUCTS)
}
