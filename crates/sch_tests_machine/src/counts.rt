//! A small run, counted.

use crate::machine::machine;
use sch_asm::Mark;
use sch_count::{CountError, Counts, Extent, Row, count};
use sch_io::NullOutlet;
use sch_word::MarkKind;
use std::alloc::Global;
use std::test::Fail;

/// mov rax, 1; mov rdi, 1; mov rdx, 0; syscall; mov rdi, 7; mov rax, 60; syscall, at 400000, 400007, 40000e, 400015,
/// 400017, 40001e and 400025.
const TEXT: [u8; 39] = [
    0x48, 0xC7, 0xC0, 0x01, 0x00, 0x00, 0x00, 0x48, 0xC7, 0xC7, 0x01, 0x00, 0x00, 0x00, 0x48, 0xC7,
    0xC2, 0x00, 0x00, 0x00, 0x00, 0x0F, 0x05, 0x48, 0xC7, 0xC7, 0x07, 0x00, 0x00, 0x00, 0x48, 0xC7,
    0xC0, 0x3C, 0x00, 0x00, 0x00, 0x0F, 0x05,
];

// Whether a row has these activations, leaves, saves and saves of leaves.
fn has(row: &Row, wanted: [u128; 4]) -> bool {
    let [activations, leaves, saves, leaf_saves] = wanted;
    row.activations == activations
        && row.leaves == leaves
        && row.saves == saves
        && row.leaf_saves == leaf_saves
}

// The marks are in no order of addresses.
const MARKS: [Mark; 7] = [
    Mark {
        address: 0x40_0025,
        kind: MarkKind::Save(3),
    },
    Mark {
        address: 0x40_0015,
        kind: MarkKind::Save(2),
    },
    Mark {
        address: 0x40_0015,
        kind: MarkKind::Return,
    },
    Mark {
        address: 0x40_000E,
        kind: MarkKind::Enter(1),
    },
    Mark {
        address: 0x40_0007,
        kind: MarkKind::Call(0),
    },
    Mark {
        address: 0x40_0000,
        kind: MarkKind::Enter(0),
    },
    Mark {
        address: 0x40_0000,
        kind: MarkKind::Save(1),
    },
];

const EXTENT: Extent = Extent {
    bodies: 2,
    steps: 7,
};

// What is counted of the run.
fn counted(alloc: Global) -> Result<Counts, CountError> {
    let mut m = machine(alloc, &TEXT, &[0; 8], 8)?;
    count(alloc, &mut m, &mut NullOutlet::new(), &MARKS, EXTENT)
}

fn are_rows(rows: &[Row]) -> bool {
    match rows {
        [first, last] => has(first, [1, 0, 2, 0]) && has(last, [1, 1, 1, 1]),
        _ => false,
    }
}

// Body 0 saves, calls body 1, which saves and returns, and saves again.
#[test]
fn counts(rt: HostRuntime) -> Result<(), Fail> {
    let counts = counted(rt.alloc())?;
    assert!(rt; counts.status == 7);
    assert!(rt; are_rows(counts.rows.as_slice()));
    Ok(())
}
