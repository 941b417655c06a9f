//! The moves of calls: those of a greedy shuffle of their arguments.

ghost use Rattle.std.specs.Prelude.{◌≡◌, ◌≤◌, ◌<◌, ◌^◌, map, length, cond, max, IfOk};
ghost use Rattle.sch_word.specs.trees.Shape.{max_operands};
ghost use Rattle.sch_frames.specs.Valid.{max_words};
ghost use Rattle.sch_layout.specs.BodyLayout.{arguments_at};
ghost use Rattle.sch_shuffle.specs.View.{transfer_of, transfers_of};
ghost use Rattle.sch_writer.specs.View as writer;
ghost use Rattle.sch_writer.specs.View.{moves_of};
ghost use Rattle.sch_homes.specs.CallMoves as calls;
ghost use Rattle.sch_homes.specs.CallMoves.{aside_end, slot_end};
ghost use Rattle.sch_homes.specs.HomeTable.{place_in};

use crate::call_arguments::arguments;
use crate::frame_places::FramePlaces;
use crate::straight_calls::{are_in_order, straight_moves};
use crate::temporaries::{first_temporary, spare_registers, targets, temporaries};
use sch_control::{Application, Atom, Operand};
use sch_shuffle::{Move as Step, Operand as Argument, make_moves};
use sch_word::{Const, List, Mem, Place, larger};
use sch_writer::{Move, operand_at};
use std::alloc::Global;

/// An argument of a call by its number. Past the last one there is nothing.
pub(crate) fn argument_of(
    alloc: Global,
    lives: &FramePlaces<'_>,
    a: &Application<u32>,
    k: u32,
) -> Result<Operand<Place>, Mem>
    ensures { IfOk result (λ o. o ≡ calls.argument_of (arguments_at (place_in lives.now.places.now) a.now) k) }
{
    if k == 0 {
        return operand_at(alloc, lives, &a.operator);
    }
    match a.operands.get(k as usize - 1) {
        Some(o) => operand_at(alloc, lives, o),
        None => Ok(Operand::Atom(Atom::Constant(Const::Nil))),
    }
}

/// What a move takes: what a place holds, or its argument, with its site.
fn taken(
    alloc: Global,
    lives: &FramePlaces<'_>,
    a: &Application<u32>,
    step: &Step,
) -> Result<Operand<Place>, Mem>
    ensures { IfOk result (λ o. o ≡ (calls.move_of (arguments_at (place_in lives.now.places.now) a.now) (transfer_of step.now)).from) }
{
    match &step.from {
        Argument::Place(p) => Ok(Operand::Atom(Atom::Variable(*p))),
        Argument::Fixed(_) => argument_of(alloc, lives, a, step.argument),
        Argument::Literal(_) => argument_of(alloc, lives, a, step.argument),
        Argument::Read(_, _) => argument_of(alloc, lives, a, step.argument),
    }
}

/// A move of a shuffle, as the layout of the call has it.
fn move_of(
    alloc: Global,
    lives: &FramePlaces<'_>,
    a: &Application<u32>,
    step: &Step,
) -> Result<Move, Mem>
    ensures { IfOk result (λ m. writer.move_of m ≡ calls.move_of (arguments_at (place_in lives.now.places.now) a.now) (transfer_of step.now)) }
{
    let from = taken(alloc, lives, a, step)?;
    Ok(Move {
        argument: step.argument,
        from,
        to: step.to,
        is_temporary: step.temp,
    })
}

/// The moves of a shuffle, as the layout of the call has them.
fn moves_from(
    alloc: Global,
    lives: &FramePlaces<'_>,
    a: &Application<u32>,
    steps: &[Step],
) -> Result<List<Move>, Mem>
    ensures { IfOk result (λ moves. moves_of moves ≡ map (calls.move_of (arguments_at (place_in lives.now.places.now) a.now)) (transfers_of steps.now)) }
{
    let mut moves = List::from_vec(Vec::with_capacity(alloc, steps.len())?);
    for step in steps {
        moves.push(move_of(alloc, lives, a, step)?)?;
    }
    Ok(moves)
}

/// The moves of a call by a shuffle, whatever its arguments use.
fn shuffled_moves(
    alloc: Global,
    lives: &FramePlaces<'_>,
    end: u32,
    tail: bool,
    a: &Application<u32>,
) -> Result<List<Move>, Mem>
    requires few { length a.now.operands ≤ max_operands }
    requires low { end ≤ max_words }
    ensures { IfOk result (λ moves. moves_of moves ≡ calls.call_moves end (place_in lives.now.places.now) tail a.now) }
{
    let args = arguments(alloc, lives, a)?;
    let operands = a.operands.len() as u32;
    let count = operands + 1;
    let targets = targets(alloc, tail, count)?;
    let spare = spare_registers(alloc, args.as_slice(), targets.as_slice())?;
    let first = first_temporary(end, operands);
    let free = temporaries(alloc, spare.as_slice(), first, count)?;
    let steps = make_moves(alloc, args.as_slice(), targets.as_slice(), free.as_slice())?;
    moves_from(alloc, lives, a, steps.as_slice())
}

/// The moves of a call, whose arguments are set aside in registers that are spare, and in slots that are not in use. These end
/// at `end`.
///
/// The time grows with the square of the number of arguments. Where no argument uses the target of an earlier one, nothing is set
/// aside and there is nothing to shuffle.
pub(crate) fn call_moves(
    alloc: Global,
    lives: &FramePlaces<'_>,
    end: u32,
    tail: bool,
    a: &Application<u32>,
) -> Result<List<Move>, Mem>
    requires few { length a.now.operands ≤ max_operands }
    requires low { end ≤ max_words }
    ensures { IfOk result (λ moves. moves_of moves ≡ calls.call_moves end (place_in lives.now.places.now) tail a.now) }
{
    if are_in_order(lives, tail, a) {
        return straight_moves(alloc, lives, tail, a);
    }
    shuffled_moves(alloc, lives, end, tail, a)
}

/// One past the slot in which a move sets something aside, if it does.
fn move_end(m: &Move) -> u32
    requires { cond m.now.is_temporary (slot_end m.now.to) 0 < 2 ^ 32 }
    ensures { result ≡ cond m.now.is_temporary (slot_end m.now.to) 0 }
{
    if !m.is_temporary {
        return 0;
    }
    match m.to {
        Place::Reg(_) => 0,
        Place::Slot(j) => j + 1,
    }
}

/// One past the last slot in which moves set something aside, where that is more than `end`.
fn aside_end(end: u32, moves: &[Move]) -> u32
    requires { aside_end end (moves_of moves.now) < 2 ^ 32 }
    ensures { result ≡ aside_end end (moves_of moves.now) }
{
    let mut most = end;
    for m in moves {
        most = larger(move_end(m), most);
    }
    most
}

/// One past the last slot that a call needs.
#[inline(never)]
pub(crate) fn call_end(
    alloc: Global,
    lives: &FramePlaces<'_>,
    end: u32,
    tail: bool,
    a: &Application<u32>,
) -> Result<u32, Mem>
    requires few { length a.now.operands ≤ max_operands }
    requires low { end ≤ max_words }
    ensures { IfOk result (λ n. n ≡ calls.call_end end (place_in lives.now.places.now) tail a.now) }
{
    let first = first_temporary(end, a.operands.len() as u32);
    if are_in_order(lives, tail, a) {
        return Ok(first);
    }
    let moves = shuffled_moves(alloc, lives, end, tail, a)?;
    Ok(aside_end(first, moves.as_slice()))
}
