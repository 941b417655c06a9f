//! The items of vectors.

ghost use Rattle.std.specs.Prelude.{◌≡◌, ◌++◌, OnOk, List};
ghost use Rattle.sch_asm.specs.declared.item.Item.{Item};
ghost use Rattle.sch_select_memory.specs.Encoded.{vector_tag};
ghost use Rattle.sch_select_operations.specs.ObjectCode.{length_code, vector_code, vector_length, vector_ref_code, vector_set_code};

use sch_asm::{Item, ItemList, Routine};
use sch_insn::condition::{AE, NE};
use sch_insn::{Arg, Insn};
use sch_select_memory::addresses::stop;
use sch_select_memory::word::{ROUNDING, TAG_MASK, UNIT_SHIFT, UNSPECIFIED, VECTOR};
use sch_word::registers::{R11, RAX, RCX, RDX};
use sch_word::{HEAP_REGISTER, Mem, Stop};

/// The word of the length of the vector in RAX.
const LENGTH: Arg = Arg::Base32(RAX, -VECTOR);

/// An element of the vector in RAX, whose index's word is added to RAX.
const ELEMENT: Arg = Arg::Base32(RAX, 8 - VECTOR);

/// The length of the vector in RAX.
pub(crate) fn vector_length(out: &mut ItemList) -> Result<(), Mem>
    ensures { OnOk result ((rest : List Item) → out.new ++ rest ≡ out.old ++ length_code vector_tag vector_length rest) }
{
    out.extend_from_slice(&[
        Item::Plain(Insn::MovTo(Arg::Reg(RDX), RAX)),
        Item::Plain(Insn::AndNumber(Arg::Reg(RDX), TAG_MASK)),
        Item::Plain(Insn::CmpNumber(Arg::Reg(RDX), VECTOR)),
        Item::JumpIf(NE, stop(Stop::WrongType)),
        Item::Plain(Insn::MovFrom(RAX, LENGTH)),
    ])
}

/// The element of the vector in RAX at the index in RCX.
pub(crate) fn vector_ref(out: &mut ItemList) -> Result<(), Mem>
    ensures { OnOk result ((rest : List Item) → out.new ++ rest ≡ out.old ++ vector_ref_code rest) }
{
    out.extend_from_slice(&[
        Item::Plain(Insn::MovTo(Arg::Reg(RDX), RAX)),
        Item::Plain(Insn::AndNumber(Arg::Reg(RDX), TAG_MASK)),
        Item::Plain(Insn::CmpNumber(Arg::Reg(RDX), VECTOR)),
        Item::JumpIf(NE, stop(Stop::WrongType)),
        Item::Plain(Insn::MovTo(Arg::Reg(RDX), RCX)),
        Item::Plain(Insn::AndNumber(Arg::Reg(RDX), TAG_MASK)),
        Item::JumpIf(NE, stop(Stop::WrongType)),
        Item::Plain(Insn::CmpFrom(RCX, LENGTH)),
        Item::JumpIf(AE, stop(Stop::OutOfRange)),
        Item::Plain(Insn::AddTo(Arg::Reg(RAX), RCX)),
        Item::Plain(Insn::MovFrom(RAX, ELEMENT)),
    ])
}

/// The element of the vector in RAX at the index in RCX becomes R11.
pub(crate) fn set_vector(out: &mut ItemList) -> Result<(), Mem>
    ensures { OnOk result ((rest : List Item) → out.new ++ rest ≡ out.old ++ vector_set_code rest) }
{
    out.extend_from_slice(&[
        Item::Plain(Insn::MovTo(Arg::Reg(RDX), RAX)),
        Item::Plain(Insn::AndNumber(Arg::Reg(RDX), TAG_MASK)),
        Item::Plain(Insn::CmpNumber(Arg::Reg(RDX), VECTOR)),
        Item::JumpIf(NE, stop(Stop::WrongType)),
        Item::Plain(Insn::MovTo(Arg::Reg(RDX), RCX)),
        Item::Plain(Insn::AndNumber(Arg::Reg(RDX), TAG_MASK)),
        Item::JumpIf(NE, stop(Stop::WrongType)),
        Item::Plain(Insn::CmpFrom(RCX, LENGTH)),
        Item::JumpIf(AE, stop(Stop::OutOfRange)),
        Item::Plain(Insn::AddTo(Arg::Reg(RAX), RCX)),
        Item::Plain(Insn::MovTo(ELEMENT, R11)),
        Item::Plain(Insn::MovNumber(Arg::Reg(RAX), UNSPECIFIED)),
    ])
}

/// A new vector, with its length in RAX and its elements in RCX. The label is its own.
pub(crate) fn make_vector(out: &mut ItemList, n: u32) -> Result<(), Mem>
    ensures { OnOk result ((rest : List Item) → out.new ++ rest ≡ out.old ++ vector_code n rest) }
{
    out.extend_from_slice(&[
        Item::LoadLabel(R11, n),
        Item::Jump(Routine::NewVector.label()),
        Item::Label(n),
        Item::Plain(Insn::MovFrom(RDX, Arg::Base32(HEAP_REGISTER, 0))),
        Item::Plain(Insn::AddNumber(Arg::Reg(RDX), ROUNDING)),
        Item::Plain(Insn::Shr(Arg::Reg(RDX), UNIT_SHIFT)),
        Item::Plain(Insn::Shl(Arg::Reg(RDX), UNIT_SHIFT)),
        Item::Plain(Insn::MovTo(Arg::Reg(RAX), HEAP_REGISTER)),
        Item::Plain(Insn::AddNumber(Arg::Reg(RAX), VECTOR)),
        Item::Plain(Insn::AddTo(Arg::Reg(HEAP_REGISTER), RDX)),
    ])
}
