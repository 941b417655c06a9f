//! The items of what closures capture, and of cells.

ghost use Rattle.std.specs.Prelude.{◌≡◌, ◌<◌, ◌≤◌, ◌++◌, IsTrue, OnOk, List};
ghost use Rattle.sch_word.specs.trees.Shape.{max_free_variables};
ghost use Rattle.sch_select_memory.specs.Addresses.{max_heap_end};
ghost use Rattle.sch_asm.specs.declared.item.Item.{Item};
ghost use Rattle.sch_select_operations.specs.CellCode.{cell_operand, check_cell, field_operand, new_cell_code, read_cell_code, source_code, unset_cell_code};
ghost use Rattle.sch_select_operations.specs.CellCode.{write_cell_code};
ghost use Rattle.sch_select_operations.specs.Reach.{is_reached_source};

use crate::operands::atom;
use crate::pairs::{check_heap, part};
use sch_asm::{Item, ItemList};
use sch_control::Source;
use sch_insn::condition::{E, NE};
use sch_insn::{Arg, Insn};
use sch_select_memory::addresses::{place_operand, stop};
use sch_select_memory::word::{CELL, PROCEDURE, TAG_MASK, UNSET, UNSPECIFIED};
use sch_word::registers::{RAX, RCX, RDX};
use sch_word::{HEAP_REGISTER, Mem, Place, Stop};

/// The displacement of the first field of a record, which the address of the code is before, from the word of its closure.
const FIRST_FIELD: i32 = 8 - PROCEDURE;

/// The displacement of the contents of a cell from the cell's word.
const CONTENTS: i32 = -CELL;

/// The low three bits of a cell's word.
const CELL_TAG: u32 = CELL as u32;

/// The bytes of a cell.
const CELL_BYTES: u32 = 16;

/// The operand of a field, by the word of its closure in a register.
fn field_operand(register: u8, k: u32) -> Arg
    requires { k < max_free_variables }
    ensures { result ≡ field_operand register k }
{
    Arg::Base32(register, FIRST_FIELD + 8 * k as i32)
}

/// What a closure captures, or a cell that is read or set, into a register.
pub(crate) fn source(out: &mut ItemList, register: u8, x: &Source<Place>) -> Result<(), Mem>
    requires { IsTrue (is_reached_source x.now) }
    ensures { OnOk result ((rest : List Item) → out.new ++ rest ≡ out.old ++ source_code register x.now rest) }
{
    match x {
        Source::Atom(a) => atom(out, register, a),
        Source::Field(p, k) => {
            let place = place_operand(*p);
            let field = field_operand(register, *k);
            out.extend_from_slice(&[
                Item::Plain(Insn::MovFrom(register, place)),
                Item::Plain(Insn::MovFrom(register, field)),
            ])
        }
    }
}

/// A check that a register has a cell, or stop 73.
fn cell_checked(register: u8) -> [Item; 4]
    ensures { (rest : List Item) → result ++ rest ≡ check_cell register rest }
{
    [
        Item::Plain(Insn::MovTo(Arg::Reg(RDX), register)),
        Item::Plain(Insn::AndNumber(Arg::Reg(RDX), TAG_MASK)),
        Item::Plain(Insn::CmpNumber(Arg::Reg(RDX), CELL)),
        Item::JumpIf(NE, stop(Stop::Unset)),
    ]
}

/// The word of a cell, which a register has.
fn cell_operand(register: u8) -> Arg
    ensures { result ≡ cell_operand register }
{
    Arg::Base32(register, CONTENTS)
}

/// Reads the cell that RAX has into RAX.
pub(crate) fn read_cell(out: &mut ItemList) -> Result<(), Mem>
    ensures { OnOk result ((rest : List Item) → out.new ++ rest ≡ out.old ++ read_cell_code rest) }
{
    out.extend_from_slice(&cell_checked(RAX))?;
    out.extend_from_slice(&[
        Item::Plain(Insn::MovFrom(RAX, cell_operand(RAX))),
        Item::Plain(Insn::CmpNumber(Arg::Reg(RAX), UNSET)),
        Item::JumpIf(E, stop(Stop::Unset)),
    ])
}

/// Sets the cell that RCX has to RAX.
pub(crate) fn write_cell(out: &mut ItemList) -> Result<(), Mem>
    ensures { OnOk result ((rest : List Item) → out.new ++ rest ≡ out.old ++ write_cell_code rest) }
{
    out.extend_from_slice(&cell_checked(RCX))?;
    out.extend_from_slice(&[
        Item::Plain(Insn::MovTo(cell_operand(RCX), RAX)),
        Item::Plain(Insn::MovNumber(Arg::Reg(RAX), UNSPECIFIED)),
    ])
}

/// A new cell, which has what RAX has.
pub(crate) fn new_cell(out: &mut ItemList, heap_end: u32) -> Result<(), Mem>
    requires { heap_end ≤ max_heap_end }
    ensures { OnOk result ((rest : List Item) → out.new ++ rest ≡ out.old ++ new_cell_code heap_end rest) }
{
    check_heap(out, heap_end, CELL_BYTES)?;
    out.push(Item::Plain(Insn::MovTo(Arg::Base32(HEAP_REGISTER, 0), RAX)))?;
    part(out, CELL_TAG, CELL_BYTES)
}

/// A new cell that is unset.
pub(crate) fn unset_cell(out: &mut ItemList, heap_end: u32) -> Result<(), Mem>
    requires { heap_end ≤ max_heap_end }
    ensures { OnOk result ((rest : List Item) → out.new ++ rest ≡ out.old ++ unset_cell_code heap_end rest) }
{
    check_heap(out, heap_end, CELL_BYTES)?;
    out.push(Item::Plain(Insn::MovNumber(Arg::Base32(HEAP_REGISTER, 0), UNSET)))?;
    part(out, CELL_TAG, CELL_BYTES)
}
