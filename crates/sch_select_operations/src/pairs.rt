//! The items of pairs, and what makes a part of the heap.

ghost use Rattle.std.specs.Prelude.{◌≡◌, ◌^◌, ◌<◌, ◌≤◌, ◌++◌, OnOk, List};
ghost use Rattle.sch_word.specs.runs.ProgramLayout.{data_address};
ghost use Rattle.sch_select_memory.specs.Addresses.{max_heap_end};
ghost use Rattle.sch_asm.specs.declared.item.Item.{Item};
ghost use Rattle.sch_select_operations.specs.ObjectCode.{check_heap, pair_code, part_code, part_of_pair, set_part_of_pair};

use sch_asm::{Item, ItemList};
use sch_insn::condition::{A, NE};
use sch_insn::{Arg, Insn};
use sch_select_memory::addresses::{heap_offset, immediate, stop};
use sch_select_memory::word::{PAIR, PAIR_BYTES, TAG_MASK, UNSPECIFIED};
use sch_word::registers::{RAX, RCX, RDX};
use sch_word::{DATA_ADDRESS, HEAP_REGISTER, Mem, Stop};

/// The first word of the pair whose word is in RAX.
pub(crate) const CAR: Arg = Arg::Base32(RAX, -PAIR);

/// The second word of the pair whose word is in RAX.
pub(crate) const CDR: Arg = Arg::Base32(RAX, 8 - PAIR);

/// The heap has this number of bytes left, or stop 71.
pub fn check_heap(out: &mut ItemList, heap_end: u32, bytes: u32) -> Result<(), Mem>
    requires low { heap_end ≤ max_heap_end }
    requires few { bytes ≤ data_address }
    ensures { OnOk result ((rest : List Item) → out.new ++ rest ≡ out.old ++ check_heap heap_end bytes rest) }
{
    let before = immediate(DATA_ADDRESS as u32 - bytes);
    let end = heap_offset(heap_end);
    out.extend_from_slice(&[
        Item::Plain(Insn::MovTo(Arg::Reg(RDX), HEAP_REGISTER)),
        Item::Plain(Insn::SubNumber(Arg::Reg(RDX), before)),
        Item::Plain(Insn::CmpNumber(Arg::Reg(RDX), end)),
        Item::JumpIf(A, stop(Stop::HeapLimit)),
    ])
}

/// The word of a part with a tag into RAX, and the address of the next part into the heap's register.
pub fn part(out: &mut ItemList, tag: u32, bytes: u32) -> Result<(), Mem>
    requires tag { tag < 8 }
    requires few { bytes < 2 ^ 31 }
    ensures { OnOk result ((rest : List Item) → out.new ++ rest ≡ out.old ++ part_code tag bytes rest) }
{
    let tag = immediate(tag);
    let bytes = immediate(bytes);
    out.extend_from_slice(&[
        Item::Plain(Insn::MovTo(Arg::Reg(RAX), HEAP_REGISTER)),
        Item::Plain(Insn::AddNumber(Arg::Reg(RAX), tag)),
        Item::Plain(Insn::AddNumber(Arg::Reg(HEAP_REGISTER), bytes)),
    ])
}

/// One of the words of the pair in RAX.
pub(crate) fn part_of_pair(out: &mut ItemList, from: Arg) -> Result<(), Mem>
    ensures { OnOk result ((rest : List Item) → out.new ++ rest ≡ out.old ++ part_of_pair from rest) }
{
    out.extend_from_slice(&[
        Item::Plain(Insn::MovTo(Arg::Reg(RDX), RAX)),
        Item::Plain(Insn::AndNumber(Arg::Reg(RDX), TAG_MASK)),
        Item::Plain(Insn::CmpNumber(Arg::Reg(RDX), PAIR)),
        Item::JumpIf(NE, stop(Stop::WrongType)),
        Item::Plain(Insn::MovFrom(RAX, from)),
    ])
}

/// One of the words of the pair in RAX becomes RCX.
pub(crate) fn set_part_of_pair(out: &mut ItemList, to: Arg) -> Result<(), Mem>
    ensures { OnOk result ((rest : List Item) → out.new ++ rest ≡ out.old ++ set_part_of_pair to rest) }
{
    out.extend_from_slice(&[
        Item::Plain(Insn::MovTo(Arg::Reg(RDX), RAX)),
        Item::Plain(Insn::AndNumber(Arg::Reg(RDX), TAG_MASK)),
        Item::Plain(Insn::CmpNumber(Arg::Reg(RDX), PAIR)),
        Item::JumpIf(NE, stop(Stop::WrongType)),
        Item::Plain(Insn::MovTo(to, RCX)),
        Item::Plain(Insn::MovNumber(Arg::Reg(RAX), UNSPECIFIED)),
    ])
}

/// A new pair of RAX and RCX.
pub(crate) fn pair(out: &mut ItemList, heap_end: u32) -> Result<(), Mem>
    requires { heap_end ≤ max_heap_end }
    ensures { OnOk result ((rest : List Item) → out.new ++ rest ≡ out.old ++ pair_code heap_end rest) }
{
    check_heap(out, heap_end, PAIR_BYTES as u32)?;
    out.extend_from_slice(&[
        Item::Plain(Insn::MovTo(Arg::Base32(HEAP_REGISTER, 0), RAX)),
        Item::Plain(Insn::MovTo(Arg::Base32(HEAP_REGISTER, 8), RCX)),
        Item::Plain(Insn::MovTo(Arg::Reg(RAX), HEAP_REGISTER)),
        Item::Plain(Insn::AddNumber(Arg::Reg(RAX), PAIR)),
        Item::Plain(Insn::AddNumber(Arg::Reg(HEAP_REGISTER), PAIR_BYTES)),
    ])
}
