//! The verb `list` over memory, and the listing's file of `compile`.

use crate::outside::{Outside, call, call_well, check, check_well, ended};
use sch_word::{Answer, Bytes};
use std::alloc::Global;
use std::str;
use std::test::Fail;

const SOURCE: &[u8] = b"(define (f x) x)(newline)";

// The file of a listing that is written beside an executable.
fn listing_beside(alloc: Global) -> Result<Bytes, Fail> {
    let mut compiled = call_well(alloc, "compile a p --listing=f", SOURCE)?;
    if compiled.status != 0 || compiled.file(alloc, "p").is_none() {
        return Err(Fail::from("no executable"));
    }
    Ok(compiled.file(alloc, "f").ok_or("no listing")?)
}

// The file of a listing holds what `list` prints.
#[test]
fn listing_in_a_file(rt: HostRuntime) -> Result<(), Fail> {
    let listing = listing_beside(rt.alloc())?;
    check_well(rt.alloc(), "list a", SOURCE, (0, listing.as_slice(), b""))
}

#[test]
fn listing_that_is_not_written(rt: HostRuntime) -> Result<(), Fail> {
    let failing = Outside {
        failing: &[2],
        ..Outside::of(SOURCE)
    };
    let mut failed = call(rt.alloc(), "compile a p --listing=f", failing)?;
    assert!(rt; ended(&failed, (3, b"", b"f: write failed\n")));
    assert!(rt; failed.file(rt.alloc(), "p").is_some());
    Ok(())
}

#[test]
fn listing_of_a_source(rt: HostRuntime) -> Result<(), Fail> {
    let outcome = call_well(rt.alloc(), "list a", SOURCE)?;
    let printed = outcome.printed();
    assert!(rt; printed.starts_with(b"schc listing 1\nframe "));
    assert!(rt; printed.ends_with(b"\nend\n"));
    assert!(rt; outcome.status == 0 && outcome.said().is_empty());
    Ok(())
}

#[test]
fn listing_that_is_not_printed(rt: HostRuntime) -> Result<(), Fail> {
    let failing = Outside {
        out: &[Answer::Took(4), Answer::Failed],
        ..Outside::of(b"(newline)")
    };
    let wanted = (3, b"schc".as_slice(), b"output failed\n".as_slice());
    check(rt.alloc(), "list a", failing, wanted)?;
    let unbound = (6, b"".as_slice(), b"a: byte 1: unbound newlin\n".as_slice());
    check_well(rt.alloc(), "list a", b"(newlin)", unbound)
}

// The lines of the bodies in a listing.
fn body_lines(alloc: Global, listing: &[u8]) -> Result<Vec<u8>, Fail> {
    let text = str::from_utf8(listing).ok().ok_or("no text")?;
    let mut lines = Vec::new(alloc);
    for line in text.split('\n') {
        if line.as_bytes().starts_with(b"body ") {
            lines.extend_from_slice(line.as_bytes())?;
            lines.push(b'\n')?;
        }
    }
    Ok(lines)
}

const NAMES: &[(&[u8], &[u8])] = &[
    (
        b"(let f ((g (lambda () 1))) (g))",
        b"body 0 form\nbody 1 f\nbody 2 g\n",
    ),
    (
        b"(do ((g (lambda () 1) g)) (#t (g)))",
        b"body 0 form\nbody 1 lambda\nbody 2 g\n",
    ),
    (b"(define f (lambda () 1))", b"body 0 form\nbody 1 f\n"),
    (
        b"(define (f) (lambda () 1))",
        b"body 0 form\nbody 1 f\nbody 2 lambda\n",
    ),
    (b"(let ((g (lambda () 1))) g)", b"body 0 form\nbody 1 g\n"),
    (
        b"(letrec ((a (lambda () 1)) (b 2)) a)",
        b"body 0 form\nbody 1 a\n",
    ),
    (b"(lambda () 1)", b"body 0 form\nbody 1 lambda\n"),
    (b"1 2", b"body 0 form\nbody 1 form\n"),
];

// A procedure that is directly what is defined or bound has the name of its variable, but for variables that no text names.
#[test]
fn bodies_have_names(rt: HostRuntime) -> Result<(), Fail> {
    for (source, wanted) in NAMES {
        let outcome = call_well(rt.alloc(), "list a", source)?;
        let lines = body_lines(rt.alloc(), outcome.printed())?;
        assert!(rt; lines.as_slice() == *wanted);
    }
    Ok(())
}

// The number in the line `instructions N` of a listing.
fn instructions(listing: &[u8]) -> Result<u64, Fail> {
    let text = str::from_utf8(listing).ok().ok_or("no text")?;
    for line in text.split('\n') {
        if let Some(digits) = line.strip_prefix("instructions ") {
            return Ok(digits.parse::<u64>().ok().ok_or("no number")?);
        }
    }
    Err(Fail::from("no instructions"))
}

const SUM: &[u8] = b"(display (+ 1 2))(newline)";

// How many instructions are listed of it.
fn listed_instructions(alloc: Global) -> Result<u64, Fail> {
    let listed = call_well(alloc, "list a", SUM)?;
    instructions(listed.printed())
}

// 10,240 steps for each instruction that is listed are enough for a program this small.
#[test]
fn a_source_runs_in_steps_by_its_listing(rt: HostRuntime) -> Result<(), Fail> {
    let count = listed_instructions(rt.alloc())?;
    let steps = count.checked_mul(10_240).ok_or("too many steps")?;
    let line = format!(in rt.alloc(); "run a --steps={steps}")?;
    check_well(rt.alloc(), line.as_str(), SUM, (0, b"3\n", b""))
}
