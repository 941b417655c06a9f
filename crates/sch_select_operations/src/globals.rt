//! The items of globals.

ghost use Rattle.std.specs.Prelude.{◌≡◌, ◌+◌, ◌^◌, ◌≤◌, ◌++◌, IsTrue, OnOk, List};
ghost use Rattle.sch_asm.specs.declared.item.Item.{Item};
ghost use Rattle.sch_select_operations.specs.Reach.{is_reached_operand};
ghost use Rattle.sch_select_operations.specs.PrimitiveCode.{global_code, set_global_code};

use crate::operands::operand;
use sch_asm::{Item, ItemList};
use sch_control::Operand;
use sch_insn::condition::E;
use sch_insn::{Arg, Insn};
use sch_select_memory::addresses::{global_address, stop};
use sch_select_memory::word::{UNSET, UNSPECIFIED};
use sch_word::registers::RAX;
use sch_word::{Mem, Place, Stop};

/// A global into RAX, or stop 73. Its word stands behind those of a number of literals.
pub fn global(out: &mut ItemList, literals: u32, g: u32) -> Result<(), Mem>
    ensures { OnOk result ((rest : List Item) → out.new ++ rest ≡ out.old ++ global_code literals g rest) }
{
    out.extend_from_slice(&[
        Item::LoadWord(RAX, global_address(literals, g)),
        Item::Plain(Insn::CmpNumber(Arg::Reg(RAX), UNSET)),
        Item::JumpIf(E, stop(Stop::Unset)),
    ])
}

/// An operand into a global. Its labels are from n on.
pub fn set_global(
    out: &mut ItemList,
    literals: u32,
    n: u32,
    g: u32,
    o: &Operand<Place>,
) -> Result<(), Mem>
    requires labels { n + 4 ≤ 2 ^ 32 }
    requires reached { IsTrue (is_reached_operand o.now) }
    ensures { OnOk result ((rest : List Item) → out.new ++ rest ≡ out.old ++ set_global_code literals n g o.now rest) }
{
    operand(out, n, o)?;
    out.extend_from_slice(&[
        Item::StoreWord(global_address(literals, g), RAX),
        Item::Plain(Insn::MovNumber(Arg::Reg(RAX), UNSPECIFIED)),
    ])
}
