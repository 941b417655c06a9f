//! The items of operations.

ghost use Rattle.std.specs.Prelude.{◌≡◌, ◌≤◌, ◌+◌, ◌^◌, ◌++◌, IsTrue, OnOk, List};
ghost use Rattle.sch_select_memory.specs.Addresses.{max_heap_end};
ghost use Rattle.sch_asm.specs.declared.item.Item.{Item};
ghost use Rattle.sch_select_operations.specs.OperationCode.{operation_code};
ghost use Rattle.sch_select_operations.specs.Reach.{is_reached_operation};

use crate::cells::{new_cell, read_cell, source, unset_cell, write_cell};
use crate::closures::closure;
use crate::globals::{global, set_global};
use crate::operands::operand;
use crate::primitives::primitive;
use sch_asm::ItemList;
use sch_control::{Operation, Source};
use sch_word::registers::{RAX, RCX};
use sch_word::{Mem, Place};

/// An operation, whose value is left in RAX. Its labels are from n on, twelve at most.
pub fn operation(
    out: &mut ItemList,
    heap_end: u32,
    literals: u32,
    n: u32,
    o: &Operation<Place>,
) -> Result<(), Mem>
    requires low { heap_end ≤ max_heap_end }
    requires labels { n + 12 ≤ 2 ^ 32 }
    requires reached { IsTrue (is_reached_operation o.now) }
    ensures { OnOk result ((rest : List Item) → out.new ++ rest ≡ out.old ++ operation_code heap_end literals n o.now rest) }
{
    match o {
        Operation::Operand(o) => operand(out, n, o),
        Operation::Prim(_, which, operands) => primitive(
            out,
            heap_end,
            n,
            *which,
            operands.as_slice(),
        ),
        Operation::Global(g) => global(out, literals, *g),
        Operation::SetGlobal(g, o) => set_global(out, literals, n, *g, o),
        Operation::Field(p, k) => source(out, RAX, &Source::Field(*p, *k)),
        Operation::NewCell(x) => {
            source(out, RAX, x)?;
            new_cell(out, heap_end)
        }
        Operation::UnsetCell => unset_cell(out, heap_end),
        Operation::CellGet(x) => {
            source(out, RAX, x)?;
            read_cell(out)
        }
        Operation::CellSet(x, o) => {
            operand(out, n, o)?;
            source(out, RCX, x)?;
            write_cell(out)
        }
        Operation::MakeClosure(c) => closure(out, heap_end, c),
    }
}
