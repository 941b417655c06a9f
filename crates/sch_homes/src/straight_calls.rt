//! Calls of which no argument uses the target of an earlier one: each argument goes straight to its target, in their order.

ghost use Rattle.std.specs.Prelude.{◌≡◌, ◌≤◌, length, suc, IfOk};
ghost use Rattle.std.specs.List.{list_any};
ghost use Rattle.sch_word.specs.trees.Bindings.{numbers};
ghost use Rattle.sch_word.specs.trees.Shape.{max_operands};
ghost use Rattle.sch_layout.specs.BodyLayout.{arguments_at, atom_at, operand_at};
ghost use Rattle.sch_shuffle.specs.Tree as shuffle;
ghost use Rattle.sch_writer.specs.View as writer;
ghost use Rattle.sch_writer.specs.View.{moves_of};
ghost use Rattle.sch_homes.specs.CallMoves.{atom_tree, operand_tree};
ghost use Rattle.sch_homes.specs.CallMoves as calls;
ghost use Rattle.sch_homes.specs.HomeTable.{place_in};
ghost use Rattle.sch_homes.specs.StraightCalls as straight;

use crate::call_moves::argument_of;
use crate::frame_places::{FramePlaces, NEXT_FRAME};
use sch_control::{Application, Atom, Operand};
use sch_word::{List, Mem, Place, same_place};
use sch_writer::{Move, target};
use std::alloc::Global;

/// Whether an atom is what a place holds.
fn atom_uses(lives: &FramePlaces<'_>, a: &Atom<u32>, p: Place) -> bool
    ensures { result ≡ shuffle.uses (atom_tree (atom_at (place_in lives.now.places.now) a.now)) p }
{
    match a {
        Atom::Constant(_) => false,
        Atom::Literal(_) => false,
        Atom::Variable(x) => same_place(lives.place_of(*x), p),
    }
}

/// Whether one of these atoms is.
fn atoms_use(lives: &FramePlaces<'_>, atoms: &[Atom<u32>], p: Place) -> bool
    ensures { result ≡ list_any (λ a. shuffle.uses (atom_tree (atom_at (place_in lives.now.places.now) a)) p) atoms.now }
{
    atoms.iter().any(|a| atom_uses(lives, a, p))
}

/// Whether an operand uses a place.
fn operand_uses(lives: &FramePlaces<'_>, o: &Operand<u32>, p: Place) -> bool
    ensures { result ≡ shuffle.uses (operand_tree (operand_at (place_in lives.now.places.now) o.now)) p }
{
    match o {
        Operand::Atom(a) => atom_uses(lives, a, p),
        Operand::Read(_, _, atoms) => atoms_use(lives, atoms.as_slice(), p),
    }
}

/// Whether an argument with the number `j` uses the target of no earlier one.
fn keeps_off_earlier(lives: &FramePlaces<'_>, tail: bool, j: u32, o: &Operand<u32>) -> bool
    requires { j ≤ suc max_operands }
    ensures { result ≡ straight.keeps_off_earlier tail j (operand_tree (operand_at (place_in lives.now.places.now) o.now)) }
{
    for k in 0..j {
        if operand_uses(lives, o, target(tail, NEXT_FRAME, k)) {
            return false;
        }
    }
    true
}

/// Whether an argument of a call, by its number, uses the target of no earlier one.
fn argument_keeps_off_earlier(
    lives: &FramePlaces<'_>,
    tail: bool,
    a: &Application<u32>,
    j: u32,
) -> bool
    requires { j ≤ suc max_operands }
    ensures { result ≡ straight.keeps_off_earlier tail j
        (operand_tree (calls.argument_of (arguments_at (place_in lives.now.places.now) a.now) j)) }
{
    if j == 0 {
        return true;
    }
    match a.operands.get(j as usize - 1) {
        Some(o) => keeps_off_earlier(lives, tail, j, o),
        None => true,
    }
}

/// How many arguments a call has, the operator among them.
pub(crate) fn argument_count(a: &Application<u32>) -> u32
    requires { length a.now.operands ≤ max_operands }
    ensures { result ≡ suc (length a.now.operands) }
{
    a.operands.len() as u32 + 1
}

/// Whether no argument of a call uses the target of an earlier one.
///
/// The time grows with the square of the number of arguments. No memory is taken.
pub(crate) fn are_in_order(lives: &FramePlaces<'_>, tail: bool, a: &Application<u32>) -> bool
    requires { length a.now.operands ≤ max_operands }
    ensures { result ≡ straight.are_in_order (place_in lives.now.places.now) tail a.now }
{
    let count = argument_count(a);
    for j in 0..count {
        if !argument_keeps_off_earlier(lives, tail, a, j) {
            return false;
        }
    }
    true
}

/// The move of an argument, by its number, to its target.
fn straight_move(
    alloc: Global,
    lives: &FramePlaces<'_>,
    tail: bool,
    a: &Application<u32>,
    k: u32,
) -> Result<Move, Mem>
    requires { k ≤ max_operands }
    ensures { IfOk result (λ m. writer.move_of m ≡ straight.straight_move (place_in lives.now.places.now) tail a.now k) }
{
    let from = argument_of(alloc, lives, a, k)?;
    Ok(Move {
        argument: k,
        from,
        to: target(tail, NEXT_FRAME, k),
        is_temporary: false,
    })
}

/// The moves of a call of which no argument uses the target of an earlier one.
pub(crate) fn straight_moves(
    alloc: Global,
    lives: &FramePlaces<'_>,
    tail: bool,
    a: &Application<u32>,
) -> Result<List<Move>, Mem>
    requires { length a.now.operands ≤ max_operands }
    ensures { IfOk result (λ moves. moves_of moves ≡ straight.straight_moves (place_in lives.now.places.now) tail a.now) }
{
    let count = argument_count(a);
    let mut moves = List::from_vec(Vec::with_capacity(alloc, count as usize)?);
    for k in 0..count {
        moves.push(straight_move(alloc, lives, tail, a, k)?)?;
    }
    Ok(moves)
}

/// The numbers of the arguments, where there are `count`.
pub(crate) fn straight_order(alloc: Global, count: u32) -> Result<List<u32>, Mem>
    ensures { IfOk result (λ order. order ≡ numbers 0 count) }
{
    let mut order = List::from_vec(Vec::with_capacity(alloc, count as usize)?);
    for k in 0..count {
        order.push(k)?;
    }
    Ok(order)
}
