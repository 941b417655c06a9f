//! The library's procedures, run over memory (R5RS 6).

use crate::program::{
    OUT_OF_RANGE, RUN, WRONG_COUNT, WRONG_TYPE, check, check_printed, check_rows, check_stops,
};
use std::test::Fail;

const TREE: &[u8] =
    b"(define (b d n) (if (= d 0) n (cons (b (- d 1) (* 2 n)) (b (- d 1) (+ 1 (* 2 n))))))";

const PARTS: &[(&[u8], &[u8])] = &[
    (
        b"(let ((p (b 2 1))) (write (list (caar p) (cadr p) (cdar p) (cddr p))))",
        b"(4 6 5 7)",
    ),
    (
        b"(let ((p (b 3 1))) (write (list (caaar p) (caadr p) (cadar p) (caddr p) (cdaar p) (cdadr p) (cddar p) (cdddr p))))",
        b"(8 12 10 14 9 13 11 15)",
    ),
    (
        b"(let ((p (b 4 1))) (write (list (caaaar p) (caaadr p) (caadar p) (caaddr p) (cadaar p) (cadadr p) (caddar p) (cadddr p) (cdaaar p) (cdaadr p) (cdadar p) (cdaddr p) (cddaar p) (cddadr p) (cdddar p) (cddddr p))))",
        b"(16 24 20 28 18 26 22 30 17 25 21 29 19 27 23 31)",
    ),
];

#[test]
fn parts_of_trees(rt: HostRuntime) -> Result<(), Fail> {
    for (form, printed) in PARTS {
        let mut source = Vec::from_slice(rt.alloc(), TREE)?;
        source.extend_from_slice(form)?;
        check_printed(rt.alloc(), source.as_slice(), printed)?;
    }
    Ok(())
}

// Lists and numbers come first.
const PRINTED: &[(&[u8], &[u8])] = &[
    (
        b"(write (list (list? '(1 2)) (list? '(1 . 2)) (length '(1 2 3)) (reverse '(1 2 3)) (append '(1) '(2) '(3 . 4)) (append) (list-tail '(1 2 3) 1) (list-ref '(1 2 3) 2)))",
        b"(#t #f 3 (3 2 1) (1 2 3 . 4) () (2 3) 3)",
    ),
    (
        b"(write (list (max 1 3 2) (min 4 2 3) (gcd 12 -18) (gcd) (lcm 4 -6) (lcm) (lcm 0 3) (expt 2 10) (expt 0 0) (abs -5)))",
        b"(3 2 6 0 12 1 0 1024 1 5)",
    ),
    (
        b"(write (list (zero? 0) (positive? 0) (negative? -1) (odd? -3) (even? 0) (number? 1) (complex? 1) (rational? 1) (real? 'a) (exact? 2) (inexact? 2)))",
        b"(#t #f #t #t #t #t #t #t #f #t #f)",
    ),
    (
        b"(write (map (lambda (f) (f 7 2 1)) (list + * - < > >= <= =)))(write ((lambda (f) (f 5)) -))",
        b"(10 14 4 #f #t #t #f #f)-5",
    ),
    (b"(write (map not '(#f 1)))", b"(#t #f)"),
    (
        b"(write (list (equal? '(1 #(2 \"a\")) '(1 #(2 \"a\"))) (equal? \"a\" \"b\") (memq 'c '(a b c d)) (memv 9 '(1 2)) (member '(1) '((0) (1) (2)))))",
        b"(#t #f (c d) #f ((1) (2)))",
    ),
    (
        b"(write (list (assq 'b '((a 1) (b 2))) (assv 2 '((1 . 2))) (assoc \"x\" '((\"y\" . 1) (\"x\" . 2)))))",
        b"((b 2) #f (\"x\" . 2))",
    ),
    (
        b"(write (map + '(1 2) '(10 20)))(for-each (lambda (a b) (display (- a b))) '(9 8) '(1 2))",
        b"(11 22)86",
    ),
    (
        b"(define car 5)(display car)(display (map cdr '((1 . 2))))",
        b"5(2)",
    ),
    // Characters, strings and vectors.
    (
        b"(write (list (char=? #\\a #\\a) (char<? #\\a #\\b) (char>? #\\a #\\b) (char<=? #\\b #\\b) (char>=? #\\a #\\b)))",
        b"(#t #t #f #t #f)",
    ),
    (
        b"(write (list (char-alphabetic? #\\z) (char-numeric? #\\5) (char-whitespace? #\\space) (char-upper-case? #\\a) (char-lower-case? #\\a) (char-upcase #\\q) (char-downcase #\\Q) (char-upcase #\\1)))",
        b"(#t #t #t #f #t #\\Q #\\q #\\1)",
    ),
    (
        b"(write (list (string=? \"ab\" \"ab\") (string<? \"ab\" \"abc\") (string>? \"b\" \"abc\") (string<=? \"b\" \"a\") (string>=? \"a\" \"a\")))",
        b"(#t #t #t #f #t)",
    ),
    (
        b"(write (list (string #\\a #\\b) (substring \"hello\" 1 3) (string-append \"a\" \"\" \"bc\") (string->list \"ab\") (list->string '(#\\x #\\y)) (string-copy \"cd\") (symbol->string 'Abc)))",
        b"(\"ab\" \"el\" \"abc\" (#\\a #\\b) \"xy\" \"cd\" \"abc\")",
    ),
    (
        b"(write (list (number->string -120) (string->number \"-12\") (string->number \"+7\") (string->number \"1a\") (string->number \"-\")))",
        b"(\"-120\" -12 7 #f #f)",
    ),
    (
        b"(define v (make-vector 2 0))(vector-fill! v 7)(define s (make-string 2 #\\a))(string-fill! s #\\z)(write (list v s (vector 1 2) (list->vector '(3 4)) (vector->list '#(5 6))))",
        b"(#(7 7) \"zz\" #(1 2) #(3 4) (5 6))",
    ),
    (
        b"(write (map (lambda (f) (f 2 #\\b)) (list make-vector make-string)))(write (map (lambda (f) (f 1)) (list make-vector make-string)))",
        b"(#(#\\b #\\b) \"bb\")(#(#<unspecified>) \" \")",
    ),
];

#[test]
fn library_procedures_print(rt: HostRuntime) -> Result<(), Fail> {
    check_rows(rt.alloc(), PRINTED)
}

const STOPS: &[(&[u8], u8, &[u8])] = &[
    (b"(expt 2 -1)", 66, OUT_OF_RANGE),
    (b"(substring \"abc\" 2 1)", 66, OUT_OF_RANGE),
    (b"(length 5)", 65, WRONG_TYPE),
    (b"(list-ref '(1) 1)", 65, WRONG_TYPE),
    (b"(exact? 'a)", 65, WRONG_TYPE),
    (b"(map car)", 68, WRONG_COUNT),
];

#[test]
fn library_procedures_stop(rt: HostRuntime) -> Result<(), Fail> {
    check_stops(rt.alloc(), STOPS)
}

/// What people write: a tally, a counter, a loop (R5RS 4 and 6).
const ORDINARY: &[u8] = b"(define (tally l)
  (let loop ((l l) (t '()))
    (cond ((null? l) t)
          ((assv (car l) t) => (lambda (p) (set-cdr! p (+ (cdr p) 1)) (loop (cdr l) t)))
          (else (loop (cdr l) (cons (cons (car l) 1) t))))))
(define (make-counter) (let ((n 0)) (lambda () (set! n (+ n 1)) n)))
(define c (make-counter))
(write (tally '(b a b c))) (write-char #\\space)
(write \"x\\\"y\") (write-char #\\space)
(c) (c)
(write (vector 1 (c) '(#\\a . #f))) (write-char #\\space)
(write (map (lambda (x) (* x x)) '(1 2 3))) (write-char #\\space)
(do ((i 0 (+ i 1))) ((= i 3)) (display i))
(newline)
";

#[test]
fn an_ordinary_program(rt: HostRuntime) -> Result<(), Fail> {
    check_printed(
        rt.alloc(),
        ORDINARY,
        b"((c . 1) (a . 1) (b . 2)) \"x\\\"y\" #(1 3 (#\\a . #f)) (1 4 9) 012\n",
    )
}

const CUTS: &[(usize, u8, &[u8], &[u8])] = &[
    (17, 4, b"", b"a: byte 0: unclosed\n"),
    (45, 4, b"", b"a: byte 20: unclosed\n"),
    (69, 4, b"", b"a: byte 50: unclosed\n"),
    (158, 4, b"", b"a: byte 50: unclosed\n"),
    (219, 0, b"", b""),
    (288, 0, b"", b""),
    (314, 0, b"", b""),
    (362, 0, b"((c . 1) (a . 1) (b . 2)) ", b""),
    (398, 0, b"((c . 1) (a . 1) (b . 2)) \"x\\\"y\" ", b""),
    (406, 0, b"((c . 1) (a . 1) (b . 2)) \"x\\\"y\" ", b""),
    (
        462,
        0,
        b"((c . 1) (a . 1) (b . 2)) \"x\\\"y\" #(1 3 (#\\a . #f)) ",
        b"",
    ),
    (
        527,
        0,
        b"((c . 1) (a . 1) (b . 2)) \"x\\\"y\" #(1 3 (#\\a . #f)) (1 4 9) ",
        b"",
    ),
    (
        570,
        0,
        b"((c . 1) (a . 1) (b . 2)) \"x\\\"y\" #(1 3 (#\\a . #f)) (1 4 9) 012",
        b"",
    ),
    (
        580,
        0,
        b"((c . 1) (a . 1) (b . 2)) \"x\\\"y\" #(1 3 (#\\a . #f)) (1 4 9) 012\n",
        b"",
    ),
];

// The same text cut off at each of its line feeds: the list that is open is said, or what stands before is done.
#[test]
fn an_ordinary_program_is_cut_off(rt: HostRuntime) -> Result<(), Fail> {
    assert!(rt; feeds_in(ORDINARY) == CUTS.len());
    for (length, status, printed, said) in CUTS {
        assert!(rt; ORDINARY.get(*length) == Some(&b'\n'), "at {length}");
        let text = ORDINARY.get(..*length).ok_or("too short")?;
        check(rt.alloc(), &RUN, text, (*status, printed, said))?;
    }
    Ok(())
}

// How many line feeds are in a text.
fn feeds_in(text: &[u8]) -> usize {
    let mut count = 0usize;
    for byte in text {
        if *byte == b'\n' {
            count = count.saturating_add(1);
        }
    }
    count
}
