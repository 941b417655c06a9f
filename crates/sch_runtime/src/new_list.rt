//! The routine that makes the list of the operands that are left over for a rest variable.

ghost use Rattle.std.specs.Prelude.{◌≡◌, ◌<◌, ◌≤◌, ◌++◌, ◌∷◌, OnOk, List};
ghost use Rattle.sch_word.specs.values.Registers.{argument_registers};
ghost use Rattle.sch_select_memory.specs.Addresses.{max_heap_end};
ghost use Rattle.sch_asm.specs.declared.item.Item.{Item};
ghost use Rattle.sch_asm.specs.declared.item.Item.TheVariants as item;
ghost use Rattle.sch_select_memory.specs.RestCode.{check_pairs, first_code, first_in_slot, first_slot_code, firsts_code, later_registers};
ghost use Rattle.sch_select_memory.specs.RestCode.{list_label, more_code, registers_code, rest_routine, slot_address, slots_code};

use sch_asm::{Item, ItemList};
use sch_insn::condition::{A, E, NE};
use sch_insn::{Arg, Insn};
use sch_select_memory::addresses::{DATA_OFFSET, FIRST_IN_SLOT, heap_offset, list_label, stop};
use sch_select_memory::word::{NIL, PAIR, PAIR_BYTES, UNIT_SHIFT};
use sch_word::registers::{R11, RAX, RCX, RDX};
use sch_word::{ARGUMENT_REGISTERS, FRAME_REGISTER, HEAP_REGISTER, Mem, Stop};

// The labels inside the routine, most of them numbered by the operands in front.
const REST_LABEL: u32 = 81;

const SOME_LABEL: u32 = 88;

const MORE_LABEL: u32 = 95;

const LOOP_LABEL: u32 = 102;

const DONE_LABEL: u32 = 103;

/// The heap has a pair for each operand that is left.
fn check_list(out: &mut ItemList, heap_end: u32) -> Result<(), Mem>
    requires { heap_end ≤ max_heap_end }
    ensures { OnOk result ((rest : List Item) → out.new ++ rest ≡ out.old ++ check_pairs heap_end rest) }
{
    let end = heap_offset(heap_end);
    out.extend_from_slice(&[
        Item::Plain(Insn::MovTo(Arg::Reg(RDX), RAX)),
        Item::Plain(Insn::Shl(Arg::Reg(RDX), UNIT_SHIFT)),
        Item::Plain(Insn::AddTo(Arg::Reg(RDX), HEAP_REGISTER)),
        Item::Plain(Insn::SubNumber(Arg::Reg(RDX), DATA_OFFSET)),
        Item::Plain(Insn::CmpNumber(Arg::Reg(RDX), end)),
        Item::JumpIf(A, stop(Stop::HeapLimit)),
    ])
}

/// The first operand is in a register, which then has the list.
fn first_register(out: &mut ItemList, m: u32, r: u8) -> Result<(), Mem>
    requires few { m < first_in_slot }
    ensures { OnOk result ((rest : List Item) → out.new ++ rest ≡ out.old ++ first_code m r rest) }
{
    out.extend_from_slice(&[
        Item::Label(REST_LABEL + m),
        Item::Plain(Insn::CmpNumber(Arg::Reg(RAX), 0)),
        Item::JumpIf(NE, SOME_LABEL + m),
        Item::Plain(Insn::MovNumber(Arg::Reg(r), NIL)),
        Item::Plain(Insn::JumpTo(Arg::Reg(R11))),
        Item::Label(SOME_LABEL + m),
        Item::Plain(Insn::MovTo(Arg::Base32(HEAP_REGISTER, 0), r)),
        Item::Plain(Insn::MovTo(Arg::Reg(r), HEAP_REGISTER)),
        Item::Plain(Insn::AddNumber(Arg::Reg(r), PAIR)),
        Item::Jump(MORE_LABEL + (m + 1)),
    ])
}

/// The same, with the room of the heap looked at.
fn first_list(out: &mut ItemList, heap_end: u32, m: u32, r: u8) -> Result<(), Mem>
    requires low { heap_end ≤ max_heap_end }
    requires few { m < first_in_slot }
    ensures { OnOk result ((rest : List Item) → out.new ++ rest
        ≡ out.old ++ item.Label (list_label m) ∷ check_pairs heap_end (first_code m r rest)) }
{
    out.push(Item::Label(list_label(m)))?;
    check_list(out, heap_end)?;
    first_register(out, m, r)
}

/// The ways into the routine with the first operand in a register, one for each of them.
fn first_lists(out: &mut ItemList, heap_end: u32) -> Result<(), Mem>
    requires { heap_end ≤ max_heap_end }
    ensures { OnOk result ((rest : List Item) → out.new ++ rest ≡ out.old ++ firsts_code heap_end 0 argument_registers rest) }
{
    for m in 0..FIRST_IN_SLOT {
        first_list(out, heap_end, m, ARGUMENT_REGISTERS[m as usize])?;
    }
    Ok(())
}

/// The way into the routine with all operands in slots: RCX has the address of the first one.
fn enter_slots(out: &mut ItemList) -> Result<(), Mem>
    ensures { OnOk result ((rest : List Item) → out.new ++ rest
        ≡ out.old ++ item.Label (list_label first_in_slot) ∷ slot_address rest) }
{
    out.extend_from_slice(&[
        Item::Label(list_label(FIRST_IN_SLOT)),
        Item::Plain(Insn::AddTo(Arg::Reg(RCX), FRAME_REGISTER)),
    ])
}

/// The first operand is in a slot, which then has the list.
fn first_slot(out: &mut ItemList) -> Result<(), Mem>
    ensures { OnOk result ((rest : List Item) → out.new ++ rest ≡ out.old ++ first_slot_code rest) }
{
    out.extend_from_slice(&[
        Item::Label(REST_LABEL + FIRST_IN_SLOT),
        Item::Plain(Insn::CmpNumber(Arg::Reg(RAX), 0)),
        Item::JumpIf(NE, SOME_LABEL + FIRST_IN_SLOT),
        Item::Plain(Insn::MovNumber(Arg::Base32(RCX, 0), NIL)),
        Item::Plain(Insn::JumpTo(Arg::Reg(R11))),
        Item::Label(SOME_LABEL + FIRST_IN_SLOT),
        Item::Plain(Insn::MovFrom(RDX, Arg::Base32(RCX, 0))),
        Item::Plain(Insn::MovTo(Arg::Base32(HEAP_REGISTER, 0), RDX)),
        Item::Plain(Insn::MovTo(Arg::Reg(RDX), HEAP_REGISTER)),
        Item::Plain(Insn::AddNumber(Arg::Reg(RDX), PAIR)),
        Item::Plain(Insn::MovTo(Arg::Base32(RCX, 0), RDX)),
        Item::Plain(Insn::AddNumber(Arg::Reg(RCX), 8)),
        Item::Jump(LOOP_LABEL),
    ])
}

/// A pair is linked to the next one, for an operand in a register.
fn more(out: &mut ItemList, m: u32, r: u8) -> Result<(), Mem>
    requires few { m < first_in_slot }
    ensures { OnOk result ((rest : List Item) → out.new ++ rest ≡ out.old ++ more_code m r rest) }
{
    out.extend_from_slice(&[
        Item::Label(MORE_LABEL + m),
        Item::Plain(Insn::SubNumber(Arg::Reg(RAX), 1)),
        Item::JumpIf(E, DONE_LABEL),
        Item::Plain(Insn::MovTo(Arg::Reg(RDX), HEAP_REGISTER)),
        Item::Plain(Insn::AddNumber(Arg::Reg(RDX), PAIR_BYTES + PAIR)),
        Item::Plain(Insn::MovTo(Arg::Base32(HEAP_REGISTER, 8), RDX)),
        Item::Plain(Insn::AddNumber(Arg::Reg(HEAP_REGISTER), PAIR_BYTES)),
        Item::Plain(Insn::MovTo(Arg::Base32(HEAP_REGISTER, 0), r)),
    ])
}

/// The operands in registers, but for the first.
fn mores(out: &mut ItemList) -> Result<(), Mem>
    ensures { OnOk result ((rest : List Item) → out.new ++ rest ≡ out.old ++ registers_code 1 later_registers rest) }
{
    for m in 1..FIRST_IN_SLOT {
        more(out, m, ARGUMENT_REGISTERS[m as usize])?;
    }
    Ok(())
}

/// The operands in slots, and the end of the list.
fn slots(out: &mut ItemList) -> Result<(), Mem>
    ensures { OnOk result ((rest : List Item) → out.new ++ rest ≡ out.old ++ slots_code rest) }
{
    out.extend_from_slice(&[
        Item::Label(MORE_LABEL + FIRST_IN_SLOT),
        Item::Plain(Insn::MovTo(Arg::Reg(RCX), FRAME_REGISTER)),
        Item::Label(LOOP_LABEL),
        Item::Plain(Insn::SubNumber(Arg::Reg(RAX), 1)),
        Item::JumpIf(E, DONE_LABEL),
        Item::Plain(Insn::MovTo(Arg::Reg(RDX), HEAP_REGISTER)),
        Item::Plain(Insn::AddNumber(Arg::Reg(RDX), PAIR_BYTES + PAIR)),
        Item::Plain(Insn::MovTo(Arg::Base32(HEAP_REGISTER, 8), RDX)),
        Item::Plain(Insn::AddNumber(Arg::Reg(HEAP_REGISTER), PAIR_BYTES)),
        Item::Plain(Insn::MovFrom(RDX, Arg::Base32(RCX, 0))),
        Item::Plain(Insn::MovTo(Arg::Base32(HEAP_REGISTER, 0), RDX)),
        Item::Plain(Insn::AddNumber(Arg::Reg(RCX), 8)),
        Item::Jump(LOOP_LABEL),
        Item::Label(DONE_LABEL),
        Item::Plain(Insn::MovNumber(Arg::Base32(HEAP_REGISTER, 8), NIL)),
        Item::Plain(Insn::AddNumber(Arg::Reg(HEAP_REGISTER), PAIR_BYTES)),
        Item::Plain(Insn::JumpTo(Arg::Reg(R11))),
    ])
}

/// The routine that makes the list of the operands that are left over. It returns through R11.
pub(crate) fn rest_routine(out: &mut ItemList, heap_end: u32) -> Result<(), Mem>
    requires { heap_end ≤ max_heap_end }
    ensures { OnOk result ((rest : List Item) → out.new ++ rest ≡ out.old ++ rest_routine heap_end rest) }
{
    first_lists(out, heap_end)?;
    enter_slots(out)?;
    check_list(out, heap_end)?;
    first_slot(out)?;
    mores(out)?;
    slots(out)
}
