//! The items of strings and of the names of symbols.

ghost use Rattle.std.specs.Prelude.{◌≡◌, ◌++◌, OnOk, List};
ghost use Rattle.sch_asm.specs.declared.item.Item.{Item};
ghost use Rattle.sch_select_memory.specs.Encoded.{string_tag};
ghost use Rattle.sch_select_operations.specs.ObjectCode.{length_code, string_code, string_ref_code, string_set_code, symbol_length_code};
ghost use Rattle.sch_select_operations.specs.ObjectCode.{symbol_ref_code};
ghost use Rattle.sch_select_memory.specs.Checks.{string_length};

use sch_asm::{Item, ItemList, Routine};
use sch_insn::condition::{AE, NE};
use sch_insn::{Arg, Insn};
use sch_select_memory::addresses::{
    NAME_ENTRY, NAME_LENGTH, STRING_BYTES, STRING_LENGTH, TABLE_ADDRESS, stop,
};
use sch_select_memory::word::{
    BYTE_MASK, CHARACTER, CHARACTER_SHIFT, FIXNUM_SHIFT, ROUNDING, STRING, SYMBOL, TAG_MASK,
    UNIT_SHIFT, UNSPECIFIED,
};
use sch_word::registers::{R11, RAX, RCX, RDX};
use sch_word::{HEAP_REGISTER, Mem, Stop};

/// A byte of the string in RAX, at the index that is added to RAX.
const STRING_BYTE: Arg = Arg::Base32(RAX, STRING_BYTES);

/// A byte of the name whose address is in RAX, at the index that is added to RAX.
const NAME_BYTE: Arg = Arg::Base32(RAX, 8);

/// The length of the string in RAX.
pub(crate) fn string_length(out: &mut ItemList) -> Result<(), Mem>
    ensures { OnOk result ((rest : List Item) → out.new ++ rest ≡ out.old ++ length_code string_tag string_length rest) }
{
    out.extend_from_slice(&[
        Item::Plain(Insn::MovTo(Arg::Reg(RDX), RAX)),
        Item::Plain(Insn::AndNumber(Arg::Reg(RDX), TAG_MASK)),
        Item::Plain(Insn::CmpNumber(Arg::Reg(RDX), STRING)),
        Item::JumpIf(NE, stop(Stop::WrongType)),
        Item::Plain(Insn::MovFrom(RAX, STRING_LENGTH)),
    ])
}

/// The character of the string in RAX at the index in RCX.
pub(crate) fn string_ref(out: &mut ItemList) -> Result<(), Mem>
    ensures { OnOk result ((rest : List Item) → out.new ++ rest ≡ out.old ++ string_ref_code rest) }
{
    out.extend_from_slice(&[
        Item::Plain(Insn::MovTo(Arg::Reg(RDX), RAX)),
        Item::Plain(Insn::AndNumber(Arg::Reg(RDX), TAG_MASK)),
        Item::Plain(Insn::CmpNumber(Arg::Reg(RDX), STRING)),
        Item::JumpIf(NE, stop(Stop::WrongType)),
        Item::Plain(Insn::MovTo(Arg::Reg(RDX), RCX)),
        Item::Plain(Insn::AndNumber(Arg::Reg(RDX), TAG_MASK)),
        Item::JumpIf(NE, stop(Stop::WrongType)),
        Item::Plain(Insn::CmpFrom(RCX, STRING_LENGTH)),
        Item::JumpIf(AE, stop(Stop::OutOfRange)),
        Item::Plain(Insn::Shr(Arg::Reg(RCX), FIXNUM_SHIFT)),
        Item::Plain(Insn::AddTo(Arg::Reg(RAX), RCX)),
        Item::Plain(Insn::LoadByte(RAX, STRING_BYTE)),
        Item::Plain(Insn::Shl(Arg::Reg(RAX), CHARACTER_SHIFT)),
        Item::Plain(Insn::AddNumber(Arg::Reg(RAX), CHARACTER)),
    ])
}

/// The character of the string in RAX at the index in RCX becomes R11.
pub(crate) fn set_string(out: &mut ItemList) -> Result<(), Mem>
    ensures { OnOk result ((rest : List Item) → out.new ++ rest ≡ out.old ++ string_set_code rest) }
{
    out.extend_from_slice(&[
        Item::Plain(Insn::MovTo(Arg::Reg(RDX), RAX)),
        Item::Plain(Insn::AndNumber(Arg::Reg(RDX), TAG_MASK)),
        Item::Plain(Insn::CmpNumber(Arg::Reg(RDX), STRING)),
        Item::JumpIf(NE, stop(Stop::WrongType)),
        Item::Plain(Insn::MovTo(Arg::Reg(RDX), RCX)),
        Item::Plain(Insn::AndNumber(Arg::Reg(RDX), TAG_MASK)),
        Item::JumpIf(NE, stop(Stop::WrongType)),
        Item::Plain(Insn::MovTo(Arg::Reg(RDX), R11)),
        Item::Plain(Insn::AndNumber(Arg::Reg(RDX), BYTE_MASK)),
        Item::Plain(Insn::CmpNumber(Arg::Reg(RDX), CHARACTER)),
        Item::JumpIf(NE, stop(Stop::WrongType)),
        Item::Plain(Insn::CmpFrom(RCX, STRING_LENGTH)),
        Item::JumpIf(AE, stop(Stop::OutOfRange)),
        Item::Plain(Insn::Shr(Arg::Reg(RCX), FIXNUM_SHIFT)),
        Item::Plain(Insn::AddTo(Arg::Reg(RAX), RCX)),
        Item::Plain(Insn::Shr(Arg::Reg(R11), CHARACTER_SHIFT)),
        Item::Plain(Insn::StoreByte(STRING_BYTE, R11)),
        Item::Plain(Insn::MovNumber(Arg::Reg(RAX), UNSPECIFIED)),
    ])
}

/// The length of the name of the symbol in RAX.
pub(crate) fn symbol_length(out: &mut ItemList) -> Result<(), Mem>
    ensures { OnOk result ((rest : List Item) → out.new ++ rest ≡ out.old ++ symbol_length_code rest) }
{
    out.extend_from_slice(&[
        Item::Plain(Insn::MovTo(Arg::Reg(RDX), RAX)),
        Item::Plain(Insn::AndNumber(Arg::Reg(RDX), TAG_MASK)),
        Item::Plain(Insn::CmpNumber(Arg::Reg(RDX), SYMBOL)),
        Item::JumpIf(NE, stop(Stop::WrongType)),
        Item::LoadWord(RDX, TABLE_ADDRESS),
        Item::Plain(Insn::AddTo(Arg::Reg(RAX), RDX)),
        Item::Plain(Insn::MovFrom(RAX, NAME_ENTRY)),
        Item::Plain(Insn::MovFrom(RAX, NAME_LENGTH)),
    ])
}

/// The character of the name of the symbol in RAX at the index in RCX.
pub(crate) fn symbol_ref(out: &mut ItemList) -> Result<(), Mem>
    ensures { OnOk result ((rest : List Item) → out.new ++ rest ≡ out.old ++ symbol_ref_code rest) }
{
    out.extend_from_slice(&[
        Item::Plain(Insn::MovTo(Arg::Reg(RDX), RAX)),
        Item::Plain(Insn::AndNumber(Arg::Reg(RDX), TAG_MASK)),
        Item::Plain(Insn::CmpNumber(Arg::Reg(RDX), SYMBOL)),
        Item::JumpIf(NE, stop(Stop::WrongType)),
        Item::LoadWord(RDX, TABLE_ADDRESS),
        Item::Plain(Insn::AddTo(Arg::Reg(RAX), RDX)),
        Item::Plain(Insn::MovFrom(RAX, NAME_ENTRY)),
        Item::Plain(Insn::MovTo(Arg::Reg(RDX), RCX)),
        Item::Plain(Insn::AndNumber(Arg::Reg(RDX), TAG_MASK)),
        Item::JumpIf(NE, stop(Stop::WrongType)),
        Item::Plain(Insn::CmpFrom(RCX, NAME_LENGTH)),
        Item::JumpIf(AE, stop(Stop::OutOfRange)),
        Item::Plain(Insn::Shr(Arg::Reg(RCX), FIXNUM_SHIFT)),
        Item::Plain(Insn::AddTo(Arg::Reg(RAX), RCX)),
        Item::Plain(Insn::LoadByte(RAX, NAME_BYTE)),
        Item::Plain(Insn::Shl(Arg::Reg(RAX), CHARACTER_SHIFT)),
        Item::Plain(Insn::AddNumber(Arg::Reg(RAX), CHARACTER)),
    ])
}

/// A new string, with its length in RAX and its characters in RCX. The label is its own.
pub(crate) fn make_string(out: &mut ItemList, n: u32) -> Result<(), Mem>
    ensures { OnOk result ((rest : List Item) → out.new ++ rest ≡ out.old ++ string_code n rest) }
{
    out.extend_from_slice(&[
        Item::LoadLabel(R11, n),
        Item::Jump(Routine::NewString.label()),
        Item::Label(n),
        Item::Plain(Insn::MovFrom(RDX, Arg::Base32(HEAP_REGISTER, 0))),
        Item::Plain(Insn::Shr(Arg::Reg(RDX), FIXNUM_SHIFT)),
        Item::Plain(Insn::AddNumber(Arg::Reg(RDX), ROUNDING)),
        Item::Plain(Insn::Shr(Arg::Reg(RDX), UNIT_SHIFT)),
        Item::Plain(Insn::Shl(Arg::Reg(RDX), UNIT_SHIFT)),
        Item::Plain(Insn::MovTo(Arg::Reg(RAX), HEAP_REGISTER)),
        Item::Plain(Insn::AddNumber(Arg::Reg(RAX), STRING)),
        Item::Plain(Insn::AddTo(Arg::Reg(HEAP_REGISTER), RDX)),
    ])
}
