//! What stands before the body of a procedure with a rest variable.

ghost use Rattle.std.specs.Prelude.{◌≡◌, ◌≤◌, ◌++◌, OnOk, List, nat_lt};
ghost use Rattle.sch_word.specs.trees.Shape.{max_operands};
ghost use Rattle.sch_asm.specs.declared.item.Item.{Item};
ghost use Rattle.sch_select_memory.specs.RestCode.{check_enough, first_in_slot, list_code, rest_entry};

use crate::addresses::{FIRST_IN_SLOT, immediate, list_label, slot_bytes, stop};
use sch_asm::{Item, ItemList};
use sch_insn::condition::B;
use sch_insn::{Arg, Insn};
use sch_word::registers::{R11, RAX, RCX};
use sch_word::{Mem, Stop};

/// Enough operands, or stop 68; then RAX has the number of those that are left over.
fn check_enough(out: &mut ItemList, required: u32) -> Result<(), Mem>
    requires { required ≤ max_operands }
    ensures { OnOk result ((rest : List Item) → out.new ++ rest ≡ out.old ++ check_enough required rest) }
{
    let required = immediate(required);
    out.extend_from_slice(&[
        Item::Plain(Insn::CmpNumber(Arg::Reg(RAX), required)),
        Item::JumpIf(B, stop(Stop::WrongCount)),
        Item::Plain(Insn::SubNumber(Arg::Reg(RAX), required)),
    ])
}

/// The list is made by the routine, which comes back to the label n.
fn make_list(out: &mut ItemList, required: u32, n: u32) -> Result<(), Mem>
    requires { required ≤ max_operands }
    ensures { OnOk result ((rest : List Item) → out.new ++ rest ≡ out.old ++ list_code (nat_lt required first_in_slot) required n rest) }
{
    if required < FIRST_IN_SLOT {
        out.extend_from_slice(&[
            Item::LoadLabel(R11, n),
            Item::Jump(list_label(required)),
            Item::Label(n),
        ])
    } else {
        let slot = slot_bytes(required - FIRST_IN_SLOT);
        out.extend_from_slice(&[
            Item::Plain(Insn::MovNumber(Arg::Reg(RCX), slot)),
            Item::LoadLabel(R11, n),
            Item::Jump(list_label(FIRST_IN_SLOT)),
            Item::Label(n),
        ])
    }
}

/// The operands that are left over become a list, which is the last argument.
pub fn enter_rest(out: &mut ItemList, required: u32, n: u32) -> Result<(), Mem>
    requires { required ≤ max_operands }
    ensures { OnOk result ((rest : List Item) → out.new ++ rest ≡ out.old ++ rest_entry required n rest) }
{
    check_enough(out, required)?;
    make_list(out, required, n)
}
