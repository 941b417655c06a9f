//! Calls: their moves, the call itself, and what is restored behind it.

ghost use Rattle.std.specs.Prelude.{◌≡◌, ◌≤◌, ◌<◌, ◌+◌, ◌^◌, ◌∷◌, suc, false, length, true, IfOk, OnOk};
ghost use Rattle.sch_word.specs.declared.mark.MarkKind.TheVariants as mark;
ghost use Rattle.sch_word.specs.trees.Shape.{max_operands};
ghost use Rattle.sch_frames.specs.declared.instruction.Instruction.TheVariants.{Call, Mark, Tail};
ghost use Rattle.sch_layout.specs.BodyLayout.{leave, loaded, move_all, target, Writes};

use crate::allocation::{Around, Restores};
use crate::instructions::{Writer, leave, put};
use crate::moves::write_moves;
use crate::saves::write_restores;
use crate::variable_places::VariablePlaces;
use sch_control::{Application, argument_register, argument_slot, arrival};
use sch_frames::Instruction;
use sch_word::{CLOSURE_REGISTER, LINK_REGISTER, MarkKind, Mem, Place};
use std::alloc::Global;

/// Where the return address of an activation is.
pub const LINK: Place = Place::Reg(LINK_REGISTER);

/// Where the closure of an activation is as it is entered.
pub(crate) const CLOSURE: Place = Place::Reg(CLOSURE_REGISTER);

/// Where an operand of a call is wanted, by the number of those before it.
fn operand_target(tail: bool, limit: u32, k: u32) -> Place
    requires { limit + k < 2 ^ 32 }
    ensures { result ≡ target tail limit (suc k) }
{
    if tail {
        return arrival(k);
    }
    match argument_register(k) {
        Some(r) => Place::Reg(r),
        None => Place::Slot(limit + argument_slot(k)),
    }
}

/// Where an argument of a call is wanted: the operator, argument 0, in `CLOSURE_REGISTER`; an operand in its register, or in a
/// slot: in a tail call in one of the own frame, and else in one of the frame that the call opens, whose slots begin at a limit.
pub fn target(tail: bool, limit: u32, argument: u32) -> Place
    requires { limit + argument < 2 ^ 32 }
    ensures { result ≡ target tail limit argument }
{
    if argument == 0 {
        return CLOSURE;
    }
    operand_target(tail, limit, argument - 1)
}

/// The moves of a call, and how many operands it has.
fn prepare<P: VariablePlaces>(
    alloc: Global,
    places: &P,
    tail: bool,
    a: &Application<u32>,
    out: &mut Writer,
) -> Result<u32, Mem>
    requires few { length a.now.operands ≤ max_operands }
    ensures instructions { OnOk result (Writes out.old.instructions out.new.instructions
        (move_all (P.plan places.now).limit ((P.plan places.now).moves tail a.now))) }
    ensures labels { OnOk result (out.new.labels ≡ out.old.labels) }
    ensures count { IfOk result (λ n. n ≡ length a.now.operands) }
{
    let moves = places.moves(alloc, tail, a)?;
    write_moves(places.limit(), moves, out)?;
    Ok(a.operands.len() as u32)
}

/// A call, whose value is left in the accumulator, or tested, and goes on behind the label where it is `#f`. Its moves come
/// first. What the call has says what is restored behind it.
#[inline(never)]
pub(crate) fn write_call<C, P: VariablePlaces, R: Restores<C>>(
    around: &Around<'_, P, R>,
    a: &Application<u32>,
    call: &C,
    test: Option<u32>,
    out: &mut Writer,
) -> Result<(), Mem>
    requires few { length a.now.operands ≤ max_operands }
    ensures instructions { OnOk result (Writes out.old.instructions out.new.instructions
        (λ rest. move_all (P.plan around.now.allocation.now.places).limit ((P.plan around.now.allocation.now.places).moves false a.now)
        (Mark (mark.Call a.now.site) ∷ (Call a.now.spread (length a.now.operands)
        ∷ loaded (P.plan around.now.allocation.now.places) (R.lists around.now.allocation.now.restores call.now) (leave test rest))))) }
    ensures labels { OnOk result (out.new.labels ≡ out.old.labels) }
{
    let places = &around.allocation.places;
    let count = prepare(around.alloc, places, false, a, out)?;
    put(out, Instruction::Mark(MarkKind::Call(a.site)))?;
    put(out, Instruction::Call(a.spread, count))?;
    write_restores(places, around.allocation.restores.after(call), out)?;
    leave(out, test)?;
    Ok(())
}

/// A tail call, behind its moves.
#[inline(never)]
pub(crate) fn write_tail_call<P: VariablePlaces>(
    alloc: Global,
    places: &P,
    a: &Application<u32>,
    out: &mut Writer,
) -> Result<(), Mem>
    requires few { length a.now.operands ≤ max_operands }
    ensures instructions { OnOk result (Writes out.old.instructions out.new.instructions
        (λ rest. move_all (P.plan places.now).limit ((P.plan places.now).moves true a.now)
        (Mark (mark.Tail a.now.site) ∷ (Tail a.now.spread (length a.now.operands) ∷ rest)))) }
    ensures labels { OnOk result (out.new.labels ≡ out.old.labels) }
{
    let count = prepare(alloc, places, true, a, out)?;
    put(out, Instruction::Mark(MarkKind::Tail(a.site)))?;
    put(out, Instruction::Tail(a.spread, count))?;
    Ok(())
}
