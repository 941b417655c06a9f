//! The forms of jumps: one of two bytes exactly where it reaches its label.

ghost use Rattle.std.specs.Prelude.{[], false, IsTrue};
ghost use Rattle.sch_asm.specs.Items.{AreItems, AreKnown, AreOwn, IsEachOnce, labels_in, marks_arrive};

use crate::fills::program;
use crate::routines::resolved;
use sch_asm::{Asm, AsmError, Item};
use sch_insn::condition::L;
use sch_insn::{Arg, Insn};
use sch_word::registers::RAX;
use std::alloc::Global;
use std::test::Fail;

/// An instruction of ten bytes, and one of seven.
const TEN: Item = Item::Plain(Insn::MovWord(RAX, 0));

const SEVEN: Item = Item::Plain(Insn::MovNumber(Arg::Reg(RAX), 0));

/// A jump over 127 bytes.
const OVER_127: [Item; 15] = [
    Item::Jump(1024),
    TEN,
    TEN,
    TEN,
    TEN,
    TEN,
    TEN,
    TEN,
    TEN,
    TEN,
    TEN,
    TEN,
    TEN,
    SEVEN,
    Item::Label(1024),
];

/// A jump over 128 bytes.
const OVER_128: [Item; 16] = [
    Item::Jump(1024),
    TEN,
    TEN,
    TEN,
    TEN,
    TEN,
    TEN,
    TEN,
    TEN,
    TEN,
    TEN,
    SEVEN,
    SEVEN,
    SEVEN,
    SEVEN,
    Item::Label(1024),
];

/// A jump on a condition over five bytes, of which two are a jump.
const ON_A_CONDITION: [Item; 4] = [
    Item::JumpIf(L, 1024),
    Item::Plain(Insn::AddTo(Arg::Reg(RAX), RAX)),
    Item::Jump(1024),
    Item::Label(1024),
];

const TO_ITSELF: [Item; 2] = [Item::Label(1024), Item::Jump(1024)];

// Whether the text of a program and the routines begins with these bytes.
fn begins_with(alloc: Global, program: &Asm, bytes: &[u8]) -> Result<bool, AsmError>
    requires { AreOwn program.now.items }
{
    let resolved = resolved(alloc, program)?;
    Ok(resolved.code.into_bytes().as_slice().starts_with(bytes))
}

// The text of these items begins with these bytes.
fn check_begin(alloc: Global, items: &[Item], bytes: &[u8]) -> Result<(), Fail>
    requires own { AreOwn items.now }
    requires sound { AreItems items.now }
    requires once { IsEachOnce (labels_in items.now) }
    requires known { AreKnown items.now [] }
    requires marked { IsTrue (marks_arrive false items.now) }
{
    let program = program(alloc, items)?;
    if begins_with(alloc, &program, bytes)? {
        return Ok(());
    }
    Err(Fail::from("other bytes"))
}

#[test]
fn a_jump_is_short_where_it_reaches(rt: HostRuntime) -> Result<(), Fail> {
    check_begin(rt.alloc(), &OVER_127, &[0xEB, 0x7F])?;
    check_begin(rt.alloc(), &OVER_128, &[0xE9, 0x80, 0, 0, 0])
}

#[test]
fn a_jump_over_a_jump_is_short(rt: HostRuntime) -> Result<(), Fail> {
    let bytes = [0x7C, 0x05, 0x48, 0x01, 0xC0, 0xEB, 0x00];
    check_begin(rt.alloc(), &ON_A_CONDITION, &bytes)?;
    check_begin(rt.alloc(), &TO_ITSELF, &[0xEB, 0xFE])
}
