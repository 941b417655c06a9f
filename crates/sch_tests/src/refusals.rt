//! Texts of the file `p.scm` that are refused, under `run`: each at its place and for its cause.

use crate::outside::{Called, Ended, check_files, check_lines};
use std::test::Fail;

// What the reader refuses comes first.
const TEXTS: &[Ended] = &[
    (
        b"(display (list 1 2",
        (4, b"", b"p.scm: byte 9: unclosed\n"),
    ),
    (b")", (4, b"", b"p.scm: byte 0: stray close\n")),
    (b"(a . b c)", (4, b"", b"p.scm: byte 7: bad token\n")),
    (b"1.5", (4, b"", b"p.scm: byte 0: bad number\n")),
    (b"\"a\\q\"", (4, b"", b"p.scm: byte 2: bad string\n")),
    (b"'", (4, b"", b"p.scm: byte 0: unclosed\n")),
    (b"'(", (4, b"", b"p.scm: byte 1: unclosed\n")),
    (b"')", (4, b"", b"p.scm: byte 1: bad token\n")),
    (b"(1 . )", (4, b"", b"p.scm: byte 5: bad token\n")),
    (b"#", (4, b"", b"p.scm: byte 0: bad token\n")),
    (b"..", (4, b"", b"p.scm: byte 0: bad token\n")),
    (b"a'b", (4, b"", b"p.scm: byte 0: bad token\n")),
    (b"#\\(x", (4, b"", b"p.scm: byte 0: bad token\n")),
    (b"#\\spac", (4, b"", b"p.scm: byte 0: bad token\n")),
    (b"\x80", (4, b"", b"p.scm: byte 0: bad token\n")),
    (b"#xG", (4, b"", b"p.scm: byte 0: bad number\n")),
    (b"+5a", (4, b"", b"p.scm: byte 0: bad number\n")),
    (b"\"abc", (4, b"", b"p.scm: byte 0: bad string\n")),
    (b"1 ]", (4, b"", b"p.scm: byte 2: bad token\n")),
    // What the expander refuses.
    (b"()", (5, b"", b"p.scm: byte 0: bad form\n")),
    (b"#(1)", (5, b"", b"p.scm: byte 0: bad form\n")),
    (b"(if)", (5, b"", b"p.scm: byte 0: bad form\n")),
    (
        b"(let ((x 1) (x 2)) x)",
        (5, b"", b"p.scm: byte 0: bad form\n"),
    ),
    // Keywords that are left out.
    (b"(quasiquote x)", (5, b"", b"p.scm: byte 0: bad form\n")),
    (b"(unquote x)", (5, b"", b"p.scm: byte 0: bad form\n")),
    (
        b"1 (unquote-splicing x)",
        (5, b"", b"p.scm: byte 2: bad form\n"),
    ),
    (
        b"(display (delay 1))",
        (5, b"", b"p.scm: byte 9: bad form\n"),
    ),
    (
        b"(define-syntax f 1)",
        (5, b"", b"p.scm: byte 0: bad form\n"),
    ),
    (
        b"1 (let-syntax () 2)",
        (5, b"", b"p.scm: byte 2: bad form\n"),
    ),
    (
        b"(+ 1 (letrec-syntax () 2))",
        (5, b"", b"p.scm: byte 5: bad form\n"),
    ),
    (
        b"(if 1 (syntax-rules ()))",
        (5, b"", b"p.scm: byte 6: bad form\n"),
    ),
    (b"(+ 1 (begin))", (5, b"", b"p.scm: byte 5: bad form\n")),
    (b"(lambda (x x) x)", (5, b"", b"p.scm: byte 0: bad form\n")),
    (
        b"(define if 1)",
        (5, b"", b"p.scm: byte 0: keyword defined\n"),
    ),
    (b"(foo)", (6, b"", b"p.scm: byte 1: unbound foo\n")),
    (b"(set! y 1)", (6, b"", b"p.scm: byte 6: unbound y\n")),
    // Names of the library's own operations are no names of a source.
    (
        b"(%symbol-length 'a)",
        (6, b"", b"p.scm: byte 1: unbound %symbol-length\n"),
    ),
    (
        b"1 (%symbol-ref 'a 0)",
        (6, b"", b"p.scm: byte 3: unbound %symbol-ref\n"),
    ),
    (b"(%put 1)", (6, b"", b"p.scm: byte 1: unbound %put\n")),
    (
        b"(display 1152921504606846976)",
        (7, b"", b"p.scm: byte 9: limit literal\n"),
    ),
    // These two have no fault.
    (b"(begin)", (0, b"", b"")),
    (b"(lambda (if) if)", (0, b"", b"")),
    // Reading comes before forms, and of two faults of forms the first is said.
    (b"(if) (foo) )", (4, b"", b"p.scm: byte 11: stray close\n")),
    (b"(if) (foo)", (5, b"", b"p.scm: byte 0: bad form\n")),
    (b"(foo) (if)", (6, b"", b"p.scm: byte 1: unbound foo\n")),
    (
        b"(define if)",
        (5, b"", b"p.scm: byte 0: keyword defined\n"),
    ),
];

#[test]
fn texts_that_are_refused(rt: HostRuntime) -> Result<(), Fail> {
    check_files(rt.alloc(), "run p.scm", TEXTS)
}

const USAGE: &[u8] =
    b"usage: schc VERB NAME [NAME2] [--listing F] [--heap N] [--depth N] [--steps N]\n";

// A file that is not there, and words that are no command.
const LINES: &[Called] = &[
    ("run none.scm", b"", (2, b"", b"none.scm: read failed\n")),
    ("run p.scm none.scm", b"", (1, b"", USAGE)),
    ("run p.scm --heap 4097", b"", (1, b"", USAGE)),
    ("step p.scm --depth 1", b"", (1, b"", USAGE)),
];

#[test]
fn files_that_are_not_read(rt: HostRuntime) -> Result<(), Fail> {
    check_lines(rt.alloc(), LINES)
}
