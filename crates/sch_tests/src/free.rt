//! Texts of procedures with many free variables: how many they may have, and which limit is said first.

use crate::outside::{Wanted, check_well};
use sch_word::{Bytes, Mem};
use std::alloc::Global;
use std::test::Fail;

fn digit(number: u32) -> u8 {
    b'0' + (number % 10) as u8
}

// The name of the variable with this number, behind a space.
fn push_name(out: &mut Bytes, number: u32) -> Result<(), Mem> {
    let (thousands, hundreds) = (digit(number / 1000), digit(number / 100));
    let (tens, ones) = (digit(number / 10), digit(number));
    out.extend_from_slice(&[b' ', b'v', thousands, hundreds, tens, ones])
}

// The binding of the 200 variables of a group, up to where its body begins.
fn push_group(out: &mut Bytes, group: u8) -> Result<(), Mem> {
    out.extend_from_slice(b" (let (")?;
    for k in 0..200u32 {
        out.extend_from_slice(b"(")?;
        push_name(out, 200 * group as u32 + k)?;
        out.extend_from_slice(b" 1)")?;
    }
    out.extend_from_slice(b")")
}

fn push_groups(out: &mut Bytes, groups: &[u8]) -> Result<(), Mem> {
    for group in groups {
        push_group(out, *group)?;
    }
    Ok(())
}

fn push_names(out: &mut Bytes, count: u32) -> Result<(), Mem> {
    for number in 0..count {
        push_name(out, number)?;
    }
    Ok(())
}

// A procedure that names this many variables of 1,200, of which a form binds one half, and a procedure in it the other.
fn push_naming(out: &mut Bytes, count: u32) -> Result<(), Mem> {
    out.push(b'1')?;
    for groups in [[0, 1, 2], [3, 4, 5]] {
        push_groups(out, &groups)?;
        out.extend_from_slice(b" (lambda ()")?;
    }
    push_names(out, count)?;
    out.extend_from_slice(b"))))))))")
}

/// How many variables are named, and what is wanted. Each but the last is a value that is dropped, and counts as a variable of
/// the procedure.
const NAMED: &[(u32, Wanted)] = &[
    (1000, (0, b"", b"")),
    (1001, (7, b"", b"a: byte 2: limit free\n")),
    // The limit on variables comes first.
    (1002, (7, b"", b"a: byte 2: limit variables\n")),
];

// Compiles a text of such a procedure.
fn check_naming(alloc: Global, count: u32, wanted: Wanted) -> Result<(), Fail> {
    let mut text = Bytes::new(alloc);
    push_naming(&mut text, count)?;
    check_well(alloc, "compile a p", text.as_slice(), wanted)
}

#[test]
fn procedures_with_many_free_variables(rt: HostRuntime) -> Result<(), Fail> {
    for (count, wanted) in NAMED {
        check_naming(rt.alloc(), *count, *wanted)?;
    }
    Ok(())
}
