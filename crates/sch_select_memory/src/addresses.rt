//! Labels, addresses and immediates.

ghost use Rattle.std.specs.Prelude.{◌≡◌, ◌*◌, ◌^◌, ◌<◌, ◌≤◌, IsTrue, pos};
ghost use Rattle.sch_select_memory.specs.Addresses.{body_label, global_address, heap_offset, literal_address, max_heap_end, max_labels, part_operand, place_operand};
ghost use Rattle.sch_select_memory.specs.Addresses.{stop_label};
ghost use Rattle.sch_select_memory.specs.Reach.{is_reached_place, max_slots};
ghost use Rattle.sch_select_memory.specs.RestCode.{first_in_slot, list_label};

use crate::word::{STRING, SYMBOL};
use sch_asm::{FIRST_LABEL, LeftOver, OWN_WORDS, Routine};
use sch_insn::Arg;
use sch_word::registers::RAX;
use sch_word::{ARGUMENT_REGISTERS, DATA_ADDRESS, FRAME_REGISTER, HEAP_REGISTER, Place, Stop};

/// Where all bytes stand in the data, in their order: behind the routines' own words.
pub const BYTES_ADDRESS: u64 = DATA_ADDRESS + 8 * OWN_WORDS as u64;

/// Where the texts of constants stand: behind the 256 bytes.
pub const TEXTS_ADDRESS: u64 = BYTES_ADDRESS + 256;

/// Where the address of the names of symbols stands: behind the texts, which have 32 bytes.
pub const TABLE_ADDRESS: u64 = TEXTS_ADDRESS + 32;

/// Where the words of literals stand in the data. Those of globals follow.
pub const LITERALS_ADDRESS: u64 = TABLE_ADDRESS + 8;

/// Where the data begin, as an immediate.
pub const DATA_OFFSET: i32 = DATA_ADDRESS as i32;

/// The word of the length of the string in RAX.
pub const STRING_LENGTH: Arg = Arg::Base32(RAX, -STRING);

/// How many bytes the first byte of a string is behind the string's word.
pub const STRING_BYTES: i32 = 8 - STRING;

/// The address of a symbol's name, from the symbol's word and the address of those of all symbols, whose sum is in RAX.
pub const NAME_ENTRY: Arg = Arg::Base32(RAX, -SYMBOL);

/// The word of the length of the name whose address is in RAX.
pub const NAME_LENGTH: Arg = Arg::Base32(RAX, 0);

/// How many operands are in registers: the first with as many in front is in a slot.
pub const FIRST_IN_SLOT: u32 = ARGUMENT_REGISTERS.len() as u32;

/// Where the code of a body begins.
pub fn body_label(label: u32) -> u32
    requires { label ≤ max_labels }
    ensures { result ≡ body_label label }
{
    FIRST_LABEL + label
}

/// Where the routine of a stop begins.
pub fn stop(why: Stop) -> u32
    ensures { result ≡ stop_label why }
{
    Routine::Stop(why).label()
}

/// Where the routine of lists is entered, with as many argument registers in front of the first operand that is left over.
pub fn list_label(m: u32) -> u32
    requires { m ≤ first_in_slot }
    ensures { result ≡ list_label m }
{
    Routine::NewList(LeftOver::FromFirst).label() + m
}

/// A number as an immediate.
pub fn immediate(n: u32) -> i32
    requires { n < 2 ^ 31 }
    ensures { result ≡ pos n }
{
    n as i32
}

/// The end of the heap as an immediate: its offset from where the data begin.
pub fn heap_offset(heap_end: u32) -> i32
    requires { heap_end ≤ max_heap_end }
    ensures { result ≡ pos (heap_offset heap_end) }
{
    heap_end.saturating_sub(DATA_ADDRESS as u32) as i32
}

/// The bytes of the slots before one, as an immediate or a displacement.
pub fn slot_bytes(slot: u32) -> i32
    requires { slot < max_slots }
    ensures { result ≡ pos (8 * slot) }
{
    8 * slot as i32
}

/// A place as an operand.
pub fn place_operand(p: Place) -> Arg
    requires { IsTrue (is_reached_place p) }
    ensures { result ≡ place_operand p }
{
    match p {
        Place::Reg(r) => Arg::Reg(r),
        Place::Slot(j) => Arg::Base32(FRAME_REGISTER, slot_bytes(j)),
    }
}

/// The operand at an offset from the address of the next part.
pub fn part_operand(offset: u32) -> Arg
    requires { offset < 2 ^ 31 }
    ensures { result ≡ part_operand offset }
{
    Arg::Base32(HEAP_REGISTER, immediate(offset))
}

/// The address of a literal's word.
pub fn literal_address(n: u32) -> u64
    ensures { result ≡ literal_address n }
{
    LITERALS_ADDRESS + 8 * n as u64
}

/// The address of a global's word, behind those of a number of literals.
pub fn global_address(literals: u32, g: u32) -> u64
    ensures { result ≡ global_address literals g }
{
    LITERALS_ADDRESS + 8 * literals as u64 + 8 * g as u64
}
