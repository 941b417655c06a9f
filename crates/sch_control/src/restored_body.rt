//! Bodies with regions that save, and with what is restored after each call.

ghost use Rattle.std.specs.Prelude.{IsTrue, ◌≡◌, ◌≤◌, ◌*◌};
ghost use Rattle.sch_control.specs.Meaning.{no_region};
ghost use Rattle.sch_control.specs.View.{expression};
ghost use Rattle.sch_control.specs.flow.Bare.{erased};
ghost use Rattle.sch_control.specs.flow.LiveSets.{HasLiveSets};
ghost use Rattle.sch_control.specs.flow.RestoredView.{restored, restored_listed};
ghost use Rattle.sch_control.specs.flow.Regions.{regions_apart, restores_saved};

use crate::body::Body;
use crate::restoring::Restoring;
use crate::tree::Exp;

/// A body with regions, as in a `SavedBody`, and with what is restored after each call: variables that are saved there and live
/// after the call.
#[derive(Drop)]
pub struct RestoredBody<'a, const N: usize> {
    pub body: &'a Body,
    pub exp: Exp<Restoring<N>>,
    // Without the sets, the regions and the restores it is the body's expression.
    ghost bare: { ∥ erased (restored exp) ≡ expression body.now.exp ∥₁ },
    ghost fits: { body.now.variables ≤ 64 * N },
    // The sets are those of what is live after the calls, and of each set some variables are restored (`Restoring`).
    ghost live: { ∥ HasLiveSets (restored_listed exp) ∥₁ },
    ghost apart: { IsTrue (regions_apart body.now.variables (restored exp) no_region) },
    ghost saved: { IsTrue (restores_saved (restored exp) no_region) },
}
