//! The arguments of calls, as a shuffle is told of them: which places each uses.

ghost use Rattle.std.specs.Prelude.{◌≡◌, map, IfOk};
ghost use Rattle.sch_layout.specs.BodyLayout.{operand_at};
ghost use Rattle.sch_shuffle.specs.View.{tree};
ghost use Rattle.sch_homes.specs.CallMoves as calls;
ghost use Rattle.sch_homes.specs.CallMoves.{atom_tree, operand_tree};
ghost use Rattle.sch_homes.specs.HomeTable.{place_in};

use crate::frame_places::FramePlaces;
use sch_control::{Application, Atom, Operand};
use sch_shuffle::Operand as Argument;
use sch_word::{List, Mem, Place};
use sch_writer::operand_at;
use std::alloc::Global;

/// An atom. What a constant is does not matter to moves.
fn atom_argument(a: Atom<Place>) -> Argument
    ensures { tree result ≡ atom_tree a }
{
    match a {
        Atom::Constant(_) => Argument::Fixed(0),
        Atom::Literal(n) => Argument::Literal(n),
        Atom::Variable(p) => Argument::Place(p),
    }
}

/// Atoms that a primitive reads.
fn atom_arguments(alloc: Global, atoms: &[Atom<Place>]) -> Result<List<Argument>, Mem>
    ensures { IfOk result (λ made. map tree made ≡ map atom_tree atoms.now) }
{
    let mut made = List::from_vec(Vec::with_capacity(alloc, atoms.len())?);
    for a in atoms {
        made.push(atom_argument(*a))?;
    }
    Ok(made)
}

/// An operand.
fn operand_argument(alloc: Global, o: &Operand<Place>) -> Result<Argument, Mem>
    ensures { IfOk result (λ made. tree made ≡ operand_tree o.now) }
{
    match o {
        Operand::Atom(a) => Ok(atom_argument(*a)),
        Operand::Read(_, which, atoms) => {
            let atoms = atom_arguments(alloc, atoms.as_slice())?;
            Ok(Argument::Read(*which, atoms))
        }
    }
}

/// An operand whose variables have places.
fn argument(alloc: Global, lives: &FramePlaces<'_>, o: &Operand<u32>) -> Result<Argument, Mem>
    ensures { IfOk result (λ made. tree made ≡ operand_tree (operand_at (place_in lives.now.places.now) o.now)) }
{
    let o = operand_at(alloc, lives, o)?;
    operand_argument(alloc, &o)
}

/// The operator of a call and its operands.
pub(crate) fn arguments(
    alloc: Global,
    lives: &FramePlaces<'_>,
    a: &Application<u32>,
) -> Result<List<Argument>, Mem>
    ensures { IfOk result (λ made. map tree made ≡ calls.call_arguments (place_in lives.now.places.now) a.now) }
{
    let mut made = List::new(alloc);
    made.push(argument(alloc, lives, &a.operator)?)?;
    for o in a.operands.as_slice() {
        made.push(argument(alloc, lives, o)?)?;
    }
    Ok(made)
}
