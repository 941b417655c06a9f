//! The routines that fill, run: elements are filled in behind eight of forty bytes, which are then put.

ghost use Rattle.std.specs.Prelude.{[], false, IfOk, IsTrue};
ghost use Rattle.sch_asm.specs.Items.{AreItems, AreKnown, AreOwn, IsEachOnce, labels_in, marks_arrive};

use crate::machine::{machine, runs_so};
use crate::routines::resolved;
use sch_asm::{Asm, Item, ItemList};
use sch_insn::{Arg, Insn};
use sch_io::MemOutlet;
use sch_step::Machine;
use sch_word::registers::{R11, RAX, RCX, RDX};
use sch_word::{List, Mem};
use std::alloc::Global;
use std::test::Fail;

/// The word of "ABCDEFGH". Its low byte is that of "A".
const ELEMENT: i64 = 0x4847_4645_4443_4241;

/// The labels of the routines.
const END: u32 = 0;

const PUT: u32 = 11;

const FILL_WORDS: u32 = 13;

const FILL_BYTES: u32 = 14;

// Enters the routine of a label with a count, and then puts the forty bytes.
macro_rules! filling {
    ($label:expr, $count:expr) => {
        [
            Item::Plain(Insn::MovNumber(Arg::Reg(RAX), 0x1000_0208)),
            Item::Plain(Insn::MovNumber(Arg::Reg(RDX), $count)),
            Item::Plain(Insn::MovWord(RCX, ELEMENT)),
            Item::LoadLabel(R11, 1024),
            Item::Jump($label),
            Item::Label(1024),
            Item::Plain(Insn::MovNumber(Arg::Reg(RAX), 0x1000_0200)),
            Item::Plain(Insn::MovNumber(Arg::Reg(RDX), 40)),
            Item::LoadLabel(R11, 1025),
            Item::Jump(PUT),
            Item::Label(1025),
            Item::Jump(END),
        ]
    };
}

// A program of these items, without words.
pub(crate) fn program(alloc: Global, items: &[Item]) -> Result<Asm, Mem>
    requires own { AreOwn items.now }
    requires sound { AreItems items.now }
    requires once { IsEachOnce (labels_in items.now) }
    requires known { AreKnown items.now [] }
    requires marked { IsTrue (marks_arrive false items.now) }
    ensures { IfOk result (λ a. AreOwn a.items) }
{
    let mut list = ItemList::new(alloc);
    list.extend_from_slice(items)?;
    Ok(Asm {
        items: list,
        words: List::new(alloc),
        zeros: 552,
    })
}

fn words_program(alloc: Global, count: i32) -> Result<Asm, Mem>
    ensures { IfOk result (λ a. AreOwn a.items) }
{
    program(alloc, &filling!(FILL_WORDS, count))
}

fn bytes_program(alloc: Global, count: i32) -> Result<Asm, Mem>
    ensures { IfOk result (λ a. AreOwn a.items) }
{
    program(alloc, &filling!(FILL_BYTES, count))
}

// What a machine puts that exits with 0.
fn check_puts(alloc: Global, machine: &mut Machine, wanted: &[u8]) -> Result<(), Fail> {
    let mut out = MemOutlet::new(alloc, &[], 100)?;
    if runs_so(machine, &mut out, &[(999, Some(0))]) && out.taken() == wanted {
        return Ok(());
    }
    Err(Fail::from("another end or output"))
}

// What is put after a fill.
fn check_filled(alloc: Global, program: &Asm, wanted: &[u8]) -> Result<(), Fail>
    requires { AreOwn program.now.items }
{
    let resolved = resolved(alloc, program)?;
    let text = resolved.code.into_bytes();
    let mut machine = machine(
        alloc,
        text.as_slice(),
        resolved.words.as_slice(),
        resolved.zeros,
    )?;
    check_puts(alloc, &mut machine, wanted)
}

/// How many words of "ABCDEFGH" are filled in, and what is then put.
const WORDS: &[(i32, &[u8])] = &[
    (0, &[0; 40]),
    (
        1,
        b"\0\0\0\0\0\0\0\0ABCDEFGH\0\0\0\0\0\0\0\0\0\0\0\0\0\0\0\0\0\0\0\0\0\0\0\0",
    ),
    (
        3,
        b"\0\0\0\0\0\0\0\0ABCDEFGHABCDEFGHABCDEFGH\0\0\0\0\0\0\0\0",
    ),
];

#[test]
fn words_are_filled(rt: HostRuntime) -> Result<(), Fail> {
    for (count, wanted) in WORDS {
        let program = words_program(rt.alloc(), *count)?;
        check_filled(rt.alloc(), &program, wanted)?;
    }
    Ok(())
}

/// How many bytes of "A" are filled in, and what is then put.
const BYTES: &[(i32, &[u8])] = &[
    (0, &[0; 40]),
    (
        1,
        b"\0\0\0\0\0\0\0\0A\0\0\0\0\0\0\0\0\0\0\0\0\0\0\0\0\0\0\0\0\0\0\0\0\0\0\0\0\0\0\0",
    ),
    (
        3,
        b"\0\0\0\0\0\0\0\0AAA\0\0\0\0\0\0\0\0\0\0\0\0\0\0\0\0\0\0\0\0\0\0\0\0\0\0\0\0\0",
    ),
];

#[test]
fn bytes_are_filled(rt: HostRuntime) -> Result<(), Fail> {
    for (count, wanted) in BYTES {
        let program = bytes_program(rt.alloc(), *count)?;
        check_filled(rt.alloc(), &program, wanted)?;
    }
    Ok(())
}
