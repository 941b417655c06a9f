//! The body with what each of its calls restores.

ghost use Rattle.std.specs.Prelude.{◌≡◌, IfOk};
ghost use Rattle.sch_control.specs.flow.Middle.{listed};
ghost use Rattle.sch_control.specs.flow.RestoredView.{restored, restored_listed};
ghost use Rattle.sch_paths.specs.EachLiveSaved.{EachLiveSaved};
ghost use Rattle.sch_paths.specs.EachSoonRestored.{EachSoonRestored};
ghost use Rattle.sch_paths.specs.Exact.{EagerRestores};
ghost use Rattle.sch_paths.specs.RestoredByPaths.{RestoredByPaths};
ghost use Rattle.sch_restores.specs.Restores.{RestoresSuffice, eagerly_restored};

use crate::around::Around;
use crate::restoring::restore;
use sch_control::{RestoredBody, SavedBody};
use sch_sets::Set;
use sch_word::Mem;
use std::alloc::Global;

/// The body with what each call restores: exactly the variables that are saved there and live after it, and that some path from
/// there references or saves before the next call. At a call to which no path through the body comes, that is nothing. The
/// live sets and the regions stay.
pub fn place_restores<'a, const N: usize>(
    alloc: Global,
    b: &SavedBody<'a, N>,
) -> Result<RestoredBody<'a, N>, Mem>
    requires saved { EachLiveSaved (listed b.now.exp) }
    ensures body { IfOk result (λ r. r.body.now ≡ b.now.body.now) }
    ensures same { IfOk result (λ r. restored_listed r.exp ≡ listed b.now.exp) }
    ensures made { IfOk result (λ r. restored r.exp ≡ eagerly_restored b.now.body.now.variables (listed b.now.exp)) }
    ensures eager { IfOk result (λ r. EagerRestores (restored r.exp)) }
    ensures paths { IfOk result (λ r. RestoredByPaths (restored r.exp)) }
    ensures enough { IfOk result (λ r. EachSoonRestored (restored r.exp)) }
    ensures meaning { IfOk result (λ r. RestoresSuffice (listed b.now.exp) (restored r.exp)) }
{
    let none = Set::new();
    let around = Around {
        count: b.body.variables,
        inside: &none,
        on_true: &none,
        on_false: &none,
    };
    let exp = restore(alloc, &b.exp, &around, &mut Set::new(), &mut Set::new())?;
    Ok(RestoredBody {
        body: b.body,
        exp: Box::into_inner(exp),
    })
}
