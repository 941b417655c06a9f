//! Pairs, vectors, strings, symbols and literals, run over memory (R5RS 6.3).

use crate::program::{
    HEAP_LIMIT, OUT_OF_RANGE, WRONG_TYPE, check, check_printed, check_rows, check_stops, perform,
    repeated,
};
use std::str;
use std::test::Fail;

const OBJECTS: &[(&[u8], &[u8])] = &[
    (
        b"(define v (vector-ref '#(1 (2 . 3)) 1))(display (cdr v))",
        b"3",
    ),
    (b"(display 'Abc)(display \"\")(display \"a b\")", b"abca b"),
    (
        b"(define p (cons 1 2))(set-car! p 5)(set-cdr! p #f)(display (car p))(display (cdr p))",
        b"5#f",
    ),
    (
        b"(define s (make-string 3 #\\x))(string-set! s 1 #\\y)(display s)(display (string-length s))(display (string-ref s 2))",
        b"xyx3x",
    ),
    (
        b"(define v (make-vector 3 7))(vector-set! v 2 'q)(display (vector-ref v 1))(display (vector-ref v 2))(display (vector-length v))",
        b"7q3",
    ),
    (
        b"(display (eq? '() '()))(display (eq? \"\" \"\"))(display (eq? 'a 'A))(display (pair? '(1)))(display (vector? '#()))(display (string? \"\"))(display (symbol? 'b))(display (procedure? car))",
        b"#t#f#t#t#t#t#t#t",
    ),
    // A literal is one object, and may be written.
    (
        b"(define (f) '(1 2))(set-car! (f) 3)(display (car (f)))",
        b"3",
    ),
    (
        b"(define (f a . l) (cons a l))(write (f 1))(write (f 1 2 3 4 5 6 7 8))(define (g . l) l)(write (g))",
        b"(1)(1 2 3 4 5 6 7 8)()",
    ),
    (
        b"(display 'ABC)(write #\\space)(write '(1 . (2 . ())))(write '#(a \"b\\\\\"))",
        b"abc#\\space(1 2)#(a \"b\\\\\")",
    ),
];

#[test]
fn objects_print(rt: HostRuntime) -> Result<(), Fail> {
    check_rows(rt.alloc(), OBJECTS)
}

const STOPS: &[(&[u8], u8, &[u8])] = &[
    (b"(car 1)", 65, WRONG_TYPE),
    (b"(cdr '())", 65, WRONG_TYPE),
    (b"(set-car! \"a\" 1)", 65, WRONG_TYPE),
    (b"(vector-ref (make-vector 2 0) 2)", 66, OUT_OF_RANGE),
    (b"(vector-ref (make-vector 2 0) -1)", 66, OUT_OF_RANGE),
    (b"(vector-ref '(1) 0)", 65, WRONG_TYPE),
    (b"(vector-set! '#(1) #f 0)", 65, WRONG_TYPE),
    (b"(vector-set! '#(1) 1 0)", 66, OUT_OF_RANGE),
    (b"(make-vector -1 0)", 66, OUT_OF_RANGE),
    (b"(make-vector #t 0)", 65, WRONG_TYPE),
    (b"(make-string 2 0)", 65, WRONG_TYPE),
    (b"(string-set! \"ab\" 2 #\\c)", 66, OUT_OF_RANGE),
    (b"(string-set! \"ab\" 2 3)", 65, WRONG_TYPE),
    (b"(string-ref \"ab\" 'a)", 65, WRONG_TYPE),
    (b"(string-length 'ab)", 65, WRONG_TYPE),
    (b"(symbol->string \"ab\")", 65, WRONG_TYPE),
];

#[test]
fn objects_stop(rt: HostRuntime) -> Result<(), Fail> {
    check_stops(rt.alloc(), STOPS)
}

// The places of the last listed site of three parts, as ` 1 2 0`: those of the call of `f`, whose operands are sites of two.
fn last_of_three(listing: &[u8]) -> Result<&[u8], Fail> {
    let text = str::from_utf8(listing).ok().ok_or("no text")?;
    let mut last: &[u8] = b"";
    for line in text.split('\n') {
        if let Some((site, places)) = line.split_once(':') {
            if site.as_bytes().starts_with(b"order ") && places.len() == 6 {
                last = places.as_bytes();
            }
        }
    }
    Ok(last)
}

fn is_one_of(places: &[u8], rows: &[&[u8]]) -> bool {
    for row in rows {
        if *row == places {
            return true;
        }
    }
    false
}

const OPERANDS: &[u8] =
    b"(define p (cons 1 2))(define x 10)(define (f a b) a)(display (f (+ x (car p)) (begin (set! x 20) (set-car! p 5) 0)))";

// Both orders are allowed, and none mixes parts of two operands (R5RS 4.1.3). What is printed is what the listed order of the
// call says: where the first operand comes before the second, 10 + 1, and else 20 + 5.
#[test]
fn operands_are_evaluated_whole(rt: HostRuntime) -> Result<(), Fail> {
    let listed = perform(rt.alloc(), &["list", "a"], OPERANDS)?;
    assert!(rt; listed.status == 0);
    let places = last_of_three(listed.printed())?;
    let first = is_one_of(places, &[b" 0 1 2", b" 1 0 2", b" 1 2 0"]);
    let second = is_one_of(places, &[b" 0 2 1", b" 2 0 1", b" 2 1 0"]);
    assert!(rt; first || second, "no order");
    let wanted: &[u8] = if first { b"11" } else { b"25" };
    check_printed(rt.alloc(), OPERANDS, wanted)
}

/// A text, a form that stands behind it so many times, the status, and what is said.
const HEAPS: &[(&[u8], &[u8], u64, u8, &[u8])] = &[
    (b"", b"(cons 1 2)", 256, 0, b""),
    (b"", b"(cons 1 2)", 257, 71, HEAP_LIMIT),
    (b"(define (f . l) 1)", b"(f 1 2 3)", 85, 0, b""),
    (b"(define (f . l) 1)", b"(f 1 2 3)", 86, 71, HEAP_LIMIT),
    (b"", b"(make-vector 31 0)(make-string 248 #\\a)", 8, 0, b""),
    (
        b"",
        b"(make-vector 31 0)(make-string 249 #\\a)",
        8,
        71,
        HEAP_LIMIT,
    ),
];

// 4,096 bytes are 256 pairs, and a list of operands is charged as a whole.
#[test]
fn objects_fill_the_heap(rt: HostRuntime) -> Result<(), Fail> {
    let words = ["run", "a", "--heap", "4096"];
    for (first, form, count, status, said) in HEAPS {
        let source = repeated(rt.alloc(), first, form, *count)?;
        check(rt.alloc(), &words, source.as_slice(), (*status, b"", said))?;
    }
    Ok(())
}
