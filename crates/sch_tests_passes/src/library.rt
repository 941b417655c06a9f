//! Libraries: the text that goes with the compiler, one that a text uses, and texts that are none.

use crate::texts::MOST_BYTES;
use sch_core::{CoreError, core, library};
use sch_lang::Program;
use sch_prelude::LIBRARY;
use sch_read::read_all;
use std::alloc::{AllocError, Global};
use std::test::Fail;

// The data of a text, and the size of the library that they are.
fn library_of(alloc: Global, text: &[u8]) -> Result<(usize, usize), CoreError> {
    if text.len() > MOST_BYTES {
        return Err(CoreError::Memory);
    }
    let Ok(items) = read_all(alloc, text) else {
        return Err(CoreError::Memory);
    };
    let made = library(alloc, items.as_slice())?;
    Ok((items.len(), made.definitions.len()))
}

// How many data and definitions the library of a text has, or the line of its fault.
fn answer_of(alloc: Global, text: &[u8]) -> Result<String, AllocError> {
    match library_of(alloc, text) {
        Ok((data, definitions)) => format!(in alloc; "data {data}, definitions {definitions}"),
        Err(fault) => format!(in alloc; "{fault}"),
    }
}

#[test]
fn reads_the_library(rt: HostRuntime) -> Result<(), Fail> {
    let answer = answer_of(rt.alloc(), LIBRARY)?;
    assert!(rt; answer.as_str() == "data 182, definitions 182");
    Ok(())
}

// The program of a text that uses the library of another.
fn program_with(alloc: Global, definitions: &[u8], text: &[u8]) -> Result<Program, CoreError> {
    if definitions.len() > MOST_BYTES || text.len() > MOST_BYTES {
        return Err(CoreError::Memory);
    }
    let Ok(items) = read_all(alloc, definitions) else {
        return Err(CoreError::Memory);
    };
    let Ok(forms) = read_all(alloc, text) else {
        return Err(CoreError::Memory);
    };
    let made = library(alloc, items.as_slice())?;
    core(alloc, &made, forms.as_slice())
}

const DEFINITIONS: &[u8] =
    b"(define (twice x) (+ x x))(define (other x) x)(define (four x) (twice (twice x)))";

// Of three definitions the text needs two, one of them by the other, and has two globals and a form.
#[test]
fn keeps_what_is_named(rt: HostRuntime) -> Result<(), Fail> {
    let program = program_with(rt.alloc(), DEFINITIONS, b"(+ (four 1) 1)")?;
    let counts = (
        program.library.len(),
        program.globals.len(),
        program.forms.len(),
    );
    assert!(rt; counts == (2, 2, 1));
    Ok(())
}

// The fault of a text that is no library.
fn check_fault(alloc: Global, text: &str, wanted: &str) -> Result<(), Fail> {
    let answer = answer_of(alloc, text.as_bytes())?;
    if answer.as_str() == wanted {
        return Ok(());
    }
    Err(Fail::new(format_args!("{answer}: {text}")))
}

const FAULTS: &[(&str, &str)] = &[
    ("(define x 1)", "byte 0: bad form"),
    ("(define (f x) x) (display 1)", "byte 17: bad form"),
    ("(define (f) 1)(define (f) 2)", "byte 14: bad form"),
    ("(begin (define (f) 1))", "byte 0: bad form"),
    ("(define (f x) x) 7", "byte 17: bad form"),
    ("(define (f 1) 2)", "byte 0: bad form"),
    // Other causes.
    ("(define (f x) (g x))(define (g x) x)", "byte 15: unbound"),
    ("(define (f) 1)(define (if) 1)", "byte 14: keyword defined"),
];

#[test]
fn refuses_each_item(rt: HostRuntime) -> Result<(), Fail> {
    for (text, wanted) in FAULTS {
        check_fault(rt.alloc(), text, wanted)?;
    }
    Ok(())
}
