//! Instructions as they are written.

ghost use Rattle.std.specs.Prelude.{◌≡◌, ◌++◌, ◌+◌, ◌<◌, ◌^◌, ◌∷◌, [], IfOk, OnOk};
ghost use Rattle.sch_layout.specs.BodyLayout.{leave, under, Writes};

use sch_frames::Instruction;
use sch_word::{List, MarkKind, Mem};
use std::alloc::Global;

/// For how many instructions there is room at first. A form that calls a procedure with an operand has as many.
const FIRST_ROOM: usize = 8;

/// Instructions as they are written, and how many labels there are among them.
#[derive(Drop)]
pub struct Writer {
    pub instructions: List<Instruction>,
    pub labels: u32,
}

/// Nothing is written yet.
pub(crate) fn new_writer(alloc: Global) -> Result<Writer, Mem>
    ensures instructions { IfOk result (λ out. out.instructions ≡ []) }
    ensures labels { IfOk result (λ out. out.labels ≡ 0) }
{
    let room = Vec::with_capacity(alloc, FIRST_ROOM)?;
    Ok(Writer {
        instructions: List::from_vec(room),
        labels: 0,
    })
}

/// The next label.
pub(crate) fn new_label(out: &mut Writer) -> u32
    requires room { out.old.labels + 1 < 2 ^ 32 }
    ensures number { result ≡ out.old.labels }
    ensures labels { out.new.labels ≡ out.old.labels + 1 }
    ensures instructions { out.new.instructions ≡ out.old.instructions }
{
    let label = out.labels;
    out.labels += 1;
    label
}

/// One instruction more.
pub(crate) fn put(out: &mut Writer, i: Instruction) -> Result<(), Mem>
    ensures instructions { OnOk result (out.new.instructions ≡ out.old.instructions ++ i ∷ []) }
    ensures labels { out.new.labels ≡ out.old.labels }
{
    out.instructions.push(i)?;
    Ok(())
}

/// One instruction more, under a mark of its own where there is one.
pub(crate) fn put_under(out: &mut Writer, mark: Option<MarkKind>, i: Instruction) -> Result<(), Mem>
    ensures instructions { OnOk result (Writes out.old.instructions out.new.instructions (under mark i)) }
    ensures labels { out.new.labels ≡ out.old.labels }
{
    if let Some(m) = mark {
        put(out, Instruction::Mark(m))?;
    }
    put(out, i)
}

/// A value is left in the accumulator, or tested, and goes on behind the label where it is `#f`.
pub(crate) fn leave(out: &mut Writer, test: Option<u32>) -> Result<(), Mem>
    ensures instructions { OnOk result (Writes out.old.instructions out.new.instructions (leave test)) }
    ensures labels { out.new.labels ≡ out.old.labels }
{
    match test {
        Some(label) => put(out, Instruction::IfFalse(label)),
        None => Ok(()),
    }
}
