//! The moves of calls: an operand goes to a place of the own frame, or to a slot of the frame that the call opens.

ghost use Rattle.std.specs.Prelude.{◌≡◌, ◌∷◌, OnOk};
ghost use Rattle.sch_control.specs.declared.operation.Operation.TheVariants as operation;
ghost use Rattle.sch_frames.specs.declared.instruction.Instruction.TheVariants.{Do};
ghost use Rattle.sch_layout.specs.BodyLayout.{is_direct, move_all, move_into, move_mark, under, writing, Writes};
ghost use Rattle.sch_writer.specs.View.{move_of, moves_of};

use crate::instructions::{Writer, put, put_under};
use sch_control::{Atom, Operand, Operation};
use sch_frames::Instruction;
use sch_word::{List, MarkKind, Mem, Place, same_place};

/// What goes where: the operator of a call, argument 0, or one of its operands, the arguments from 1 on. A slot from the
/// limit of a plan on is one of the frame that the call opens.
#[derive(Drop)]
pub struct Move {
    /// Which argument it brings on its way.
    pub argument: u32,
    /// What it takes: the argument itself, or the place in which it was set aside.
    pub from: Operand<Place>,
    /// Where that goes.
    pub to: Place,
    /// Whether it is set aside there, and goes on later.
    pub is_temporary: bool,
}

/// What the accumulator holds goes to a slot, by the limit from which slots are those of the frame that a call opens.
fn writing_slot(limit: u32, j: u32) -> Instruction
    ensures { result ≡ writing limit (Place.Slot j) }
{
    if j < limit {
        Instruction::Store(Place::Slot(j))
    } else {
        Instruction::Pass(j - limit)
    }
}

/// What the accumulator holds goes to a place.
fn writing(limit: u32, to: Place) -> Instruction
    ensures { result ≡ writing limit to }
{
    match to {
        Place::Reg(r) => Instruction::Store(Place::Reg(r)),
        Place::Slot(j) => writing_slot(limit, j),
    }
}

/// Whether one instruction copies from a place to another: into a register, or from a register into the own frame.
fn is_direct(limit: u32, to: Place, from: Place) -> bool
    ensures { result ≡ is_direct limit to from }
{
    match (to, from) {
        (Place::Reg(_), _) => true,
        (Place::Slot(j), Place::Reg(_)) => j < limit,
        (Place::Slot(_), Place::Slot(_)) => false,
    }
}

/// Under which mark a move writes.
fn move_mark(m: &Move) -> Option<MarkKind>
    ensures { result ≡ move_mark (move_of m.now) }
{
    if m.is_temporary {
        return Some(MarkKind::Temp);
    }
    match m.to {
        Place::Reg(_) => None,
        Place::Slot(_) => Some(MarkKind::Argument),
    }
}

/// An operand goes to a place by way of the accumulator.
fn write_value(
    limit: u32,
    to: Place,
    mark: Option<MarkKind>,
    from: Operand<Place>,
    out: &mut Writer,
) -> Result<(), Mem>
    ensures instructions { OnOk result (Writes out.old.instructions out.new.instructions
        (λ rest. Do (operation.Operand from) ∷ under mark (writing limit to) rest)) }
    ensures labels { OnOk result (out.new.labels ≡ out.old.labels) }
{
    put(out, Instruction::Do(Operation::Operand(from)))?;
    put_under(out, mark, writing(limit, to))
}

/// What a place holds goes to another; what stands there already is not moved.
fn write_copy(
    limit: u32,
    to: Place,
    mark: Option<MarkKind>,
    from: Place,
    out: &mut Writer,
) -> Result<(), Mem>
    ensures instructions { OnOk result (Writes out.old.instructions out.new.instructions
        (move_into limit to mark (Operand.Atom (Atom.Variable from)))) }
    ensures labels { OnOk result (out.new.labels ≡ out.old.labels) }
{
    if same_place(to, from) {
        return Ok(());
    }
    if is_direct(limit, to, from) {
        return put_under(out, mark, Instruction::Copy(to, from));
    }
    write_value(limit, to, mark, Operand::Atom(Atom::Variable(from)), out)
}

/// One move.
fn write_move(limit: u32, m: Move, out: &mut Writer) -> Result<(), Mem>
    ensures instructions { OnOk result (Writes out.old.instructions out.new.instructions (move_into limit m.to (move_mark (move_of m)) m.from)) }
    ensures labels { OnOk result (out.new.labels ≡ out.old.labels) }
{
    let mark = move_mark(&m);
    match m.from {
        Operand::Atom(Atom::Variable(p)) => write_copy(limit, m.to, mark, p, out),
        from => write_value(limit, m.to, mark, from, out),
    }
}

/// The moves of a call, one after the other.
pub(crate) fn write_moves(limit: u32, moves: List<Move>, out: &mut Writer) -> Result<(), Mem>
    ensures instructions { OnOk result (Writes out.old.instructions out.new.instructions (move_all limit (moves_of moves))) }
    ensures labels { OnOk result (out.new.labels ≡ out.old.labels) }
{
    for m in moves.into_vec() {
        write_move(limit, m, out)?;
    }
    Ok(())
}
