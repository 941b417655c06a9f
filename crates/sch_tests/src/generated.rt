//! The verb `gen` over memory.

use crate::outside::{Outside, call_well, check, check_well};
use sch_word::Answer;
use std::test::Fail;

#[test]
fn figures_of_the_program_of_zero(rt: HostRuntime) -> Result<(), Fail> {
    let outcome = call_well(rt.alloc(), "gen 0", b"")?;
    assert!(rt; outcome.status == 0);
    let printed = outcome.printed();
    assert!(rt; printed.starts_with(b"source 108283\nimage "));
    assert!(rt; printed.ends_with(b"\nstatus 0\n"));
    assert!(rt; outcome.said().is_empty());
    Ok(())
}

#[test]
fn figures_that_are_not_printed(rt: HostRuntime) -> Result<(), Fail> {
    let alloc = rt.alloc();
    let failing = Outside {
        out: &[Answer::Took(3), Answer::Failed],
        ..Outside::of(b"")
    };
    check(alloc, "gen 1", failing, (3, b"sou", b"output failed\n"))?;
    check_well(alloc, "gen 1 --steps=0", b"", (9, b"", b"steps spent\n"))
}

const USAGE: &[u8] =
    b"usage: schc VERB NAME [NAME2] [--listing F] [--heap N] [--depth N] [--steps N]\n";

#[test]
fn numbers_of_no_program(rt: HostRuntime) -> Result<(), Fail> {
    for line in ["gen 2147483648", "gen -1", "gen x", "gen ", "gen"] {
        check_well(rt.alloc(), line, b"", (1, b"", USAGE))?;
    }
    Ok(())
}
