//! Texts that are read, and data that are printed and let go of.

use crate::texts::{Piece, joined};
use sch_print::print;
use sch_read::{Atom, Datum, Node, ReadError, read_all};
use sch_word::{List, Mem};
use std::alloc::Global;
use std::test::Fail;

// Each of some data, printed with a line feed after it.
fn print_each(alloc: Global, data: &[Datum]) -> Result<List<u8>, ReadError> {
    let mut out = List::new(alloc);
    for d in data {
        out.append(print(alloc, d)?)?;
        out.push(b'\n')?;
    }
    Ok(out)
}

// The same of the data of the text.
fn rewritten(alloc: Global, text: &[u8]) -> Result<List<u8>, ReadError> {
    if text.len() >= 4_294_967_296 {
        return Ok(List::new(alloc));
    }
    let data = read_all(alloc, text)?;
    print_each(alloc, data.as_slice())
}

fn truth() -> Datum {
    let node = Node::Atom(Atom::Boolean(true));
    Datum { at: 0, node }
}

// A datum behind `#t` in a list, after its dot, or in a vector.
fn deeper(alloc: Global, d: Datum, kind: u32) -> Result<Datum, Mem> {
    let mut items = List::new(alloc);
    items.push(truth())?;
    if kind == 0 {
        let node = Node::List(items, Some(Box::new(alloc, d)?));
        return Ok(Datum { at: 0, node });
    }
    items.push(d)?;
    let node = if kind == 1 {
        Node::List(items, None)
    } else {
        Node::Vector(items)
    };
    Ok(Datum { at: 0, node })
}

// What is printed of a text.
fn check_printed(alloc: Global, text: &str, printed: &str) -> Result<(), Fail> {
    let out = rewritten(alloc, text.as_bytes())?;
    if out.as_slice() == printed.as_bytes() {
        return Ok(());
    }
    Err(Fail::from(text))
}

const PRINTED: &[(&str, &str)] = &[
    (" ; only a comment", ""),
    (
        "'ABC #(a \"b\\\\\\n\\t\\\"\")",
        "(quote abc)\n#(a \"b\\\\\n\t\\\"\")\n",
    ),
    ("(a b . (c . (d e . ((f) . g))))", "(a b c d e (f) . g)\n"),
    ("'(A . (b c))", "(quote (a b c))\n"),
    (
        "#\\a #\\NEWLINE #T () ...",
        "#\\a\n#\\newline\n#t\n()\n...\n",
    ),
    (
        "#xFf #b-101 +5 -0 -1152921504606846976",
        "255\n-5\n5\n0\n-1152921504606846976\n",
    ),
];

#[test]
fn reads_what_it_prints(rt: HostRuntime) -> Result<(), Fail> {
    for (text, printed) in PRINTED {
        check_printed(rt.alloc(), text, printed)?;
    }
    Ok(())
}

const THOUSAND: &[Piece] = &[("(", 1000), (")", 1000)];

#[test]
fn reads_a_thousand_levels(rt: HostRuntime) -> Result<(), Fail> {
    let deep = joined(rt.alloc(), THOUSAND)?;
    let out = rewritten(rt.alloc(), deep.as_bytes())?;
    assert!(rt; out.len() == 2001);
    Ok(())
}

#[test]
fn prints_and_lets_go_of_very_deep_data(rt: HostRuntime) -> Result<(), Fail> {
    let alloc = rt.alloc();
    let mut d = truth();
    for level in 0..300_000u32 {
        d = deeper(alloc, d, level % 3)?;
    }
    assert!(rt; print(alloc, &d)?.len() == 100_000 * 18 + 2);
    Ok(())
}
