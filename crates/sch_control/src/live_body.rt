//! Bodies with what is live after each call.

ghost use Rattle.std.specs.Prelude.{◌≡◌, ◌≤◌, ◌*◌};
ghost use Rattle.sch_control.specs.View.{expression};
ghost use Rattle.sch_control.specs.flow.Bare.{unlisted};
ghost use Rattle.sch_control.specs.flow.LiveSets.{HasLiveSets};
ghost use Rattle.sch_control.specs.flow.Middle.{listed};

use crate::body::Body;
use crate::tree::Exp;
use sch_sets::Set;

/// A body of at most 64 `N` variables with a set at each call: at a call that some path through the body reaches,
/// exactly the variables that are live after it, and at any other none.
#[derive(Drop)]
pub struct LiveBody<'a, const N: usize> {
    pub body: &'a Body,
    pub exp: Exp<Set<N>>,
    // Without the sets it is the body's expression.
    ghost bare: { ∥ unlisted (listed exp) ≡ expression body.now.exp ∥₁ },
    ghost fits: { body.now.variables ≤ 64 * N },
    // The sets are those of what is live after the calls.
    ghost live: { ∥ HasLiveSets (listed exp) ∥₁ },
}
