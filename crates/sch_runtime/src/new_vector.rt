//! The routine that makes vectors.

ghost use Rattle.std.specs.Prelude.{◌≡◌, ◌≤◌, ◌++◌, ◌∷◌, OnOk, List};
ghost use Rattle.sch_select_memory.specs.Addresses.{max_heap_end, vector_label};
ghost use Rattle.sch_word.specs.declared.registers.TheConstants.{RAX};
ghost use Rattle.sch_asm.specs.declared.item.Item.{Item};
ghost use Rattle.sch_asm.specs.declared.item.Item.TheVariants as item;
ghost use Rattle.sch_select_memory.specs.Checks.{check_fixnum};
ghost use Rattle.sch_select_memory.specs.MakeCode.{check_length, check_room, make_vector_code};

use sch_asm::{Item, ItemList, Routine};
use sch_insn::condition::{A, L, NE};
use sch_insn::{Arg, Insn};
use sch_select_memory::addresses::{DATA_OFFSET, heap_offset, stop};
use sch_select_memory::word::{FIXNUM_SHIFT, ROUNDING, TAG_MASK, UNIT_SHIFT};
use sch_word::registers::{RAX, RDX};
use sch_word::{HEAP_REGISTER, Mem, Stop};

/// The heap has as many bytes left as RDX says, or stop 71.
pub(crate) fn check_room(out: &mut ItemList, heap_end: u32) -> Result<(), Mem>
    requires { heap_end ≤ max_heap_end }
    ensures { OnOk result ((rest : List Item) → out.new ++ rest ≡ out.old ++ check_room heap_end rest) }
{
    let end = heap_offset(heap_end);
    out.extend_from_slice(&[
        Item::Plain(Insn::AddTo(Arg::Reg(RDX), HEAP_REGISTER)),
        Item::Plain(Insn::SubNumber(Arg::Reg(RDX), DATA_OFFSET)),
        Item::Plain(Insn::CmpNumber(Arg::Reg(RDX), end)),
        Item::JumpIf(A, stop(Stop::HeapLimit)),
    ])
}

/// RAX has a number that is not negative, or the program stops.
fn check_length(out: &mut ItemList) -> Result<(), Mem>
    ensures { OnOk result ((rest : List Item) → out.new ++ rest ≡ out.old ++ check_fixnum RAX (check_length rest)) }
{
    out.extend_from_slice(&[
        Item::Plain(Insn::MovTo(Arg::Reg(RDX), RAX)),
        Item::Plain(Insn::AndNumber(Arg::Reg(RDX), TAG_MASK)),
        Item::JumpIf(NE, stop(Stop::WrongType)),
        Item::Plain(Insn::CmpNumber(Arg::Reg(RAX), 0)),
        Item::JumpIf(L, stop(Stop::OutOfRange)),
    ])
}

/// The routine that makes a vector, but for its tag. It returns through R11.
pub(crate) fn vector_routine(out: &mut ItemList, heap_end: u32) -> Result<(), Mem>
    requires { heap_end ≤ max_heap_end }
    ensures { OnOk result ((rest : List Item) → out.new ++ rest ≡ out.old ++ item.Label vector_label ∷ make_vector_code heap_end rest) }
{
    out.push(Item::Label(Routine::NewVector.label()))?;
    check_length(out)?;
    out.extend_from_slice(&[
        Item::Plain(Insn::MovTo(Arg::Reg(RDX), RAX)),
        Item::Plain(Insn::AddNumber(Arg::Reg(RDX), ROUNDING)),
        Item::Plain(Insn::Shr(Arg::Reg(RDX), UNIT_SHIFT)),
        Item::Plain(Insn::Shl(Arg::Reg(RDX), UNIT_SHIFT)),
    ])?;
    check_room(out, heap_end)?;
    out.extend_from_slice(&[
        Item::Plain(Insn::MovTo(Arg::Base32(HEAP_REGISTER, 0), RAX)),
        Item::Plain(Insn::MovTo(Arg::Reg(RDX), RAX)),
        Item::Plain(Insn::Shr(Arg::Reg(RDX), FIXNUM_SHIFT)),
        Item::Plain(Insn::MovTo(Arg::Reg(RAX), HEAP_REGISTER)),
        Item::Plain(Insn::AddNumber(Arg::Reg(RAX), 8)),
        Item::Jump(Routine::FillWords.label()),
    ])
}
