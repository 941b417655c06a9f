//! What regions save and calls restore.

ghost use Rattle.std.specs.Prelude.{◌≡◌, ◌∷◌, [], cond, filter, OnOk};
ghost use Rattle.sch_control.specs.Meaning.{heads};
ghost use Rattle.sch_control.specs.Valid.{member_variables};
ghost use Rattle.sch_control.specs.View.{expression_with};
ghost use Rattle.sch_frames.specs.declared.instruction.Instruction.TheVariants.{Copy, Mark};
ghost use Rattle.sch_layout.specs.BodyLayout.{loaded, stored, Writes};
ghost use Rattle.sch_writer.specs.Regions.{inside};

use crate::allocation::{Around, Restores};
use crate::instructions::{Writer, put};
use crate::regions::{Regions, binds, is_inside};
use crate::variable_places::VariablePlaces;
use sch_control::{Exp, Member};
use sch_frames::Instruction;
use sch_word::{MarkKind, Mem, Place};

/// A copy under its mark.
fn copied(mark: MarkKind, to: Place, from: Place, out: &mut Writer) -> Result<(), Mem>
    ensures instructions { OnOk result (Writes out.old.instructions out.new.instructions (λ rest. Mark mark ∷ (Copy to from ∷ rest))) }
    ensures labels { OnOk result (out.new.labels ≡ out.old.labels) }
{
    put(out, Instruction::Mark(mark))?;
    put(out, Instruction::Copy(to, from))?;
    Ok(())
}

/// A variable is saved in its home, if it lives in a register.
fn save<P: VariablePlaces>(places: &P, x: u32, out: &mut Writer) -> Result<(), Mem>
    ensures instructions { OnOk result (Writes out.old.instructions out.new.instructions (stored (P.plan places.now) (x ∷ []))) }
    ensures labels { OnOk result (out.new.labels ≡ out.old.labels) }
{
    match places.place(x) {
        Place::Slot(_) => Ok(()),
        Place::Reg(r) => {
            let to = places.home(x);
            copied(MarkKind::Save(x), to, Place::Reg(r), out)
        }
    }
}

/// A variable is restored from its home, if it lives in a register.
fn restore<P: VariablePlaces>(places: &P, x: u32, out: &mut Writer) -> Result<(), Mem>
    ensures instructions { OnOk result (Writes out.old.instructions out.new.instructions (loaded (P.plan places.now) (x ∷ []))) }
    ensures labels { OnOk result (out.new.labels ≡ out.old.labels) }
{
    match places.place(x) {
        Place::Slot(_) => Ok(()),
        Place::Reg(r) => {
            let from = places.home(x);
            copied(MarkKind::Restore(x), Place::Reg(r), from, out)
        }
    }
}

/// Each of some variables is restored.
pub(crate) fn write_restores<P: VariablePlaces>(
    places: &P,
    xs: &[u32],
    out: &mut Writer,
) -> Result<(), Mem>
    ensures instructions { OnOk result (Writes out.old.instructions out.new.instructions (loaded (P.plan places.now) xs.now)) }
    ensures labels { OnOk result (out.new.labels ≡ out.old.labels) }
{
    for x in xs {
        restore(places, *x, out)?;
    }
    Ok(())
}

/// A variable is saved where that is asked for.
fn save_if<P: VariablePlaces>(
    is_asked: bool,
    places: &P,
    x: u32,
    out: &mut Writer,
) -> Result<(), Mem>
    ensures instructions { OnOk result (Writes out.old.instructions out.new.instructions (stored (P.plan places.now) (cond is_asked (x ∷ []) []))) }
    ensures labels { OnOk result (out.new.labels ≡ out.old.labels) }
{
    if is_asked {
        return save(places, x, out);
    }
    Ok(())
}

/// What a region saves at its head: those of its variables that its expression does not bind.
pub(crate) fn write_heads<C: Drop, P: VariablePlaces, R: Restores<C>>(
    around: &Around<'_, P, R>,
    saves: &[u32],
    e: &Exp<C>,
    out: &mut Writer,
) -> Result<(), Mem>
    ensures instructions { OnOk result (Writes out.old.instructions out.new.instructions (stored (P.plan around.now.allocation.now.places)
        (heads (expression_with (R.lists around.now.allocation.now.restores) e.now) saves.now))) }
    ensures labels { OnOk result (out.new.labels ≡ out.old.labels) }
{
    for x in saves {
        save_if(!binds(*x, e), &around.allocation.places, *x, out)?;
    }
    Ok(())
}

/// A variable that is bound is saved, if it is in a region.
pub(crate) fn write_bound<P: VariablePlaces>(
    places: &P,
    regions: &Regions<'_>,
    x: u32,
    out: &mut Writer,
) -> Result<(), Mem>
    ensures instructions { OnOk result (Writes out.old.instructions out.new.instructions
        (stored (P.plan places.now) (filter (inside regions.now) (x ∷ [])))) }
    ensures labels { OnOk result (out.new.labels ≡ out.old.labels) }
{
    save_if(is_inside(regions, x), places, x, out)
}

/// Each member of a group is saved, if it is in a region.
pub(crate) fn write_members<P: VariablePlaces>(
    places: &P,
    regions: &Regions<'_>,
    members: &[Member<u32>],
    out: &mut Writer,
) -> Result<(), Mem>
    ensures instructions { OnOk result (Writes out.old.instructions out.new.instructions
        (stored (P.plan places.now) (filter (inside regions.now) (member_variables members.now)))) }
    ensures labels { OnOk result (out.new.labels ≡ out.old.labels) }
{
    for m in members {
        write_bound(places, regions, m.at, out)?;
    }
    Ok(())
}
