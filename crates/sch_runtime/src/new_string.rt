//! The routine that makes strings.

ghost use Rattle.std.specs.Prelude.{◌≡◌, ◌≤◌, ◌++◌, ◌∷◌, OnOk, List};
ghost use Rattle.sch_select_memory.specs.Addresses.{max_heap_end, string_label};
ghost use Rattle.sch_asm.specs.declared.item.Item.{Item};
ghost use Rattle.sch_asm.specs.declared.item.Item.TheVariants as item;
ghost use Rattle.sch_select_memory.specs.MakeCode.{check_filling, make_string_code};

use crate::new_vector::check_room;
use sch_asm::{Item, ItemList, Routine};
use sch_insn::condition::{L, NE};
use sch_insn::{Arg, Insn};
use sch_select_memory::addresses::stop;
use sch_select_memory::word::{
    BYTE_MASK, CHARACTER, CHARACTER_SHIFT, FIXNUM_SHIFT, ROUNDING, TAG_MASK, UNIT_SHIFT,
};
use sch_word::registers::{RAX, RCX, RDX};
use sch_word::{HEAP_REGISTER, Mem, Stop};

/// RAX has a length and RCX a character, or the program stops.
fn check_filling(out: &mut ItemList) -> Result<(), Mem>
    ensures { OnOk result ((rest : List Item) → out.new ++ rest ≡ out.old ++ check_filling rest) }
{
    out.extend_from_slice(&[
        Item::Plain(Insn::MovTo(Arg::Reg(RDX), RAX)),
        Item::Plain(Insn::AndNumber(Arg::Reg(RDX), TAG_MASK)),
        Item::JumpIf(NE, stop(Stop::WrongType)),
        Item::Plain(Insn::MovTo(Arg::Reg(RDX), RCX)),
        Item::Plain(Insn::AndNumber(Arg::Reg(RDX), BYTE_MASK)),
        Item::Plain(Insn::CmpNumber(Arg::Reg(RDX), CHARACTER)),
        Item::JumpIf(NE, stop(Stop::WrongType)),
        Item::Plain(Insn::CmpNumber(Arg::Reg(RAX), 0)),
        Item::JumpIf(L, stop(Stop::OutOfRange)),
    ])
}

/// The routine that makes a string, but for its tag. It returns through R11.
pub(crate) fn string_routine(out: &mut ItemList, heap_end: u32) -> Result<(), Mem>
    requires { heap_end ≤ max_heap_end }
    ensures { OnOk result ((rest : List Item) → out.new ++ rest ≡ out.old ++ item.Label string_label ∷ make_string_code heap_end rest) }
{
    out.push(Item::Label(Routine::NewString.label()))?;
    check_filling(out)?;
    out.extend_from_slice(&[
        Item::Plain(Insn::MovTo(Arg::Reg(RDX), RAX)),
        Item::Plain(Insn::Shr(Arg::Reg(RDX), FIXNUM_SHIFT)),
        Item::Plain(Insn::AddNumber(Arg::Reg(RDX), ROUNDING)),
        Item::Plain(Insn::Shr(Arg::Reg(RDX), UNIT_SHIFT)),
        Item::Plain(Insn::Shl(Arg::Reg(RDX), UNIT_SHIFT)),
    ])?;
    check_room(out, heap_end)?;
    out.extend_from_slice(&[
        Item::Plain(Insn::MovTo(Arg::Base32(HEAP_REGISTER, 0), RAX)),
        Item::Plain(Insn::Shr(Arg::Reg(RCX), CHARACTER_SHIFT)),
        Item::Plain(Insn::MovTo(Arg::Reg(RDX), RAX)),
        Item::Plain(Insn::Shr(Arg::Reg(RDX), FIXNUM_SHIFT)),
        Item::Plain(Insn::MovTo(Arg::Reg(RAX), HEAP_REGISTER)),
        Item::Plain(Insn::AddNumber(Arg::Reg(RAX), 8)),
        Item::Jump(Routine::FillBytes.label()),
    ])
}
