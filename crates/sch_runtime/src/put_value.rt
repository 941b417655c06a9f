//! The routine that puts any value.

ghost use Rattle.std.specs.Prelude.{◌≡◌, ◌++◌, ◌∷◌, OnOk};
ghost use Rattle.sch_asm.specs.declared.item.Item.TheVariants as item;
ghost use Rattle.sch_select_memory.specs.PutCode.{immediate_put, objects_put, put_value_code, texts_code};
ghost use Rattle.sch_select_memory.specs.Addresses.{put_label};

use sch_asm::{Item, ItemList, Routine};
use sch_insn::condition::{E, NE};
use sch_insn::{Arg, Insn};
use sch_select_memory::addresses::{
    BYTES_ADDRESS, NAME_ENTRY, NAME_LENGTH, STRING_BYTES, STRING_LENGTH, TABLE_ADDRESS,
    TEXTS_ADDRESS, stop,
};
use sch_select_memory::word::{
    BYTE_MASK, CELL, CHARACTER, CHARACTER_SHIFT, FALSE, FIXNUM_SHIFT, NIL, PAIR, PROCEDURE, STRING,
    SYMBOL, TAG_MASK, TRUE, VECTOR,
};
use sch_word::registers::{RAX, RDX};
use sch_word::{Mem, Stop};

// The labels inside the routine.
const NO_CHARACTER: u32 = 74;

const NOT_TRUE: u32 = 75;

const NOT_FALSE: u32 = 76;

const NOT_NIL: u32 = 77;

const PROCEDURE_TEXT: u32 = 78;

const STRING_TEXT: u32 = 79;

const SYMBOL_TEXT: u32 = 80;

// Where the bytes and the texts that are put stand, as immediates.
const BYTES: i32 = BYTES_ADDRESS as i32;

const TEXTS: i32 = TEXTS_ADDRESS as i32;

/// The tag of the word in RAX. Fixnums, procedures, strings and symbols are put elsewhere, and other objects are not.
fn put_tags() -> [Item; 16]
    ensures { result ++ immediate_put ≡ item.Label put_label ∷ put_value_code }
{
    [
        Item::Label(Routine::PutValue.label()),
        Item::Plain(Insn::MovTo(Arg::Reg(RDX), RAX)),
        Item::Plain(Insn::AndNumber(Arg::Reg(RDX), TAG_MASK)),
        Item::JumpIf(E, Routine::PutFixnum.label()),
        Item::Plain(Insn::CmpNumber(Arg::Reg(RDX), PROCEDURE)),
        Item::JumpIf(E, PROCEDURE_TEXT),
        Item::Plain(Insn::CmpNumber(Arg::Reg(RDX), CELL)),
        Item::JumpIf(E, stop(Stop::WrongType)),
        Item::Plain(Insn::CmpNumber(Arg::Reg(RDX), PAIR)),
        Item::JumpIf(E, stop(Stop::WrongType)),
        Item::Plain(Insn::CmpNumber(Arg::Reg(RDX), VECTOR)),
        Item::JumpIf(E, stop(Stop::WrongType)),
        Item::Plain(Insn::CmpNumber(Arg::Reg(RDX), STRING)),
        Item::JumpIf(E, STRING_TEXT),
        Item::Plain(Insn::CmpNumber(Arg::Reg(RDX), SYMBOL)),
        Item::JumpIf(E, SYMBOL_TEXT),
    ]
}

/// The word of a character in RAX is put.
fn put_character() -> [Item; 9]
    ensures { result ++ texts_code ≡ immediate_put }
{
    [
        Item::Plain(Insn::MovTo(Arg::Reg(RDX), RAX)),
        Item::Plain(Insn::AndNumber(Arg::Reg(RDX), BYTE_MASK)),
        Item::Plain(Insn::CmpNumber(Arg::Reg(RDX), CHARACTER)),
        Item::JumpIf(NE, NO_CHARACTER),
        Item::Plain(Insn::Shr(Arg::Reg(RAX), CHARACTER_SHIFT)),
        Item::Plain(Insn::AddNumber(Arg::Reg(RAX), BYTES)),
        Item::Plain(Insn::MovNumber(Arg::Reg(RDX), 1)),
        Item::Jump(Routine::Put.label()),
        Item::Label(NO_CHARACTER),
    ]
}

/// The texts of the other constants and of procedures are put.
fn put_texts() -> [Item; 26]
    ensures { result ++ objects_put ≡ texts_code }
{
    [
        Item::Plain(Insn::CmpNumber(Arg::Reg(RAX), TRUE)),
        Item::JumpIf(NE, NOT_TRUE),
        Item::Plain(Insn::MovNumber(Arg::Reg(RAX), TEXTS)),
        Item::Plain(Insn::MovNumber(Arg::Reg(RDX), 2)),
        Item::Jump(Routine::Put.label()),
        Item::Label(NOT_TRUE),
        Item::Plain(Insn::CmpNumber(Arg::Reg(RAX), FALSE)),
        Item::JumpIf(NE, NOT_FALSE),
        Item::Plain(Insn::MovNumber(Arg::Reg(RAX), TEXTS + 2)),
        Item::Plain(Insn::MovNumber(Arg::Reg(RDX), 2)),
        Item::Jump(Routine::Put.label()),
        Item::Label(NOT_FALSE),
        Item::Plain(Insn::CmpNumber(Arg::Reg(RAX), NIL)),
        Item::JumpIf(NE, NOT_NIL),
        Item::Plain(Insn::MovNumber(Arg::Reg(RAX), TEXTS + 4)),
        Item::Plain(Insn::MovNumber(Arg::Reg(RDX), 2)),
        Item::Jump(Routine::Put.label()),
        Item::Label(NOT_NIL),
        Item::Plain(Insn::MovNumber(Arg::Reg(RAX), TEXTS + 6)),
        Item::Plain(Insn::MovNumber(Arg::Reg(RDX), 14)),
        Item::Jump(Routine::Put.label()),
        Item::Label(PROCEDURE_TEXT),
        Item::Plain(Insn::MovNumber(Arg::Reg(RAX), TEXTS + 20)),
        Item::Plain(Insn::MovNumber(Arg::Reg(RDX), 12)),
        Item::Jump(Routine::Put.label()),
        Item::Label(STRING_TEXT),
    ]
}

/// The bytes of a string, and those of the name of a symbol, are put.
fn put_objects() -> [Item; 12]
    ensures { result ≡ objects_put }
{
    [
        Item::Plain(Insn::MovFrom(RDX, STRING_LENGTH)),
        Item::Plain(Insn::Shr(Arg::Reg(RDX), FIXNUM_SHIFT)),
        Item::Plain(Insn::AddNumber(Arg::Reg(RAX), STRING_BYTES)),
        Item::Jump(Routine::Put.label()),
        Item::Label(SYMBOL_TEXT),
        Item::LoadWord(RDX, TABLE_ADDRESS),
        Item::Plain(Insn::AddTo(Arg::Reg(RAX), RDX)),
        Item::Plain(Insn::MovFrom(RAX, NAME_ENTRY)),
        Item::Plain(Insn::MovFrom(RDX, NAME_LENGTH)),
        Item::Plain(Insn::Shr(Arg::Reg(RDX), FIXNUM_SHIFT)),
        Item::Plain(Insn::AddNumber(Arg::Reg(RAX), 8)),
        Item::Jump(Routine::Put.label()),
    ]
}

/// The routine that puts any value, whose word is in RAX. It returns through R11.
pub(crate) fn put_routine(items: &mut ItemList) -> Result<(), Mem>
    ensures { OnOk result (items.new ≡ items.old ++ (item.Label put_label ∷ put_value_code)) }
{
    items.extend_from_slice(&put_tags())?;
    items.extend_from_slice(&put_character())?;
    items.extend_from_slice(&put_texts())?;
    items.extend_from_slice(&put_objects())
}
