//! Bodies with regions that save.

ghost use Rattle.std.specs.Prelude.{IsTrue, ◌≡◌, ◌≤◌, ◌*◌};
ghost use Rattle.sch_control.specs.Meaning.{no_region};
ghost use Rattle.sch_control.specs.View.{expression};
ghost use Rattle.sch_control.specs.flow.Bare.{erased};
ghost use Rattle.sch_control.specs.flow.LiveSets.{HasLiveSets};
ghost use Rattle.sch_control.specs.flow.Middle.{listed};
ghost use Rattle.sch_control.specs.flow.Regions.{regions_apart};

use crate::body::Body;
use crate::tree::Exp;
use sch_sets::Set;

/// A body with live sets, as in a `LiveBody`, and with regions that save. A region saves variables of the body, each once, and
/// none that a region round it saves.
#[derive(Drop)]
pub struct SavedBody<'a, const N: usize> {
    pub body: &'a Body,
    pub exp: Exp<Set<N>>,
    // Without the sets and the regions it is the body's expression.
    ghost bare: { ∥ erased (listed exp) ≡ expression body.now.exp ∥₁ },
    ghost fits: { body.now.variables ≤ 64 * N },
    // The sets are those of what is live after the calls.
    ghost live: { ∥ HasLiveSets (listed exp) ∥₁ },
    ghost apart: { IsTrue (regions_apart body.now.variables (listed exp) no_region) },
}
