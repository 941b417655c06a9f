//! What is live after each call of a body.

ghost use Rattle.std.specs.Prelude.{◌≡◌, ◌≤◌, ◌<◌, ◌*◌, IfOk};
ghost use Rattle.sch_control.specs.View.{expression};
ghost use Rattle.sch_control.specs.flow.Bare.{unlisted};
ghost use Rattle.sch_control.specs.flow.LiveSets.{HasLiveSets};
ghost use Rattle.sch_control.specs.flow.Middle.{listed};
ghost use Rattle.sch_live.specs.LiveListed.{lists_in_order, live_listed};
ghost use Rattle.sch_paths.specs.PlainlySame.{PlainlySame};

use crate::backward::list_live;
use crate::blank::with_no_sets;
use crate::reached::keep_reached;
use sch_control::{Body, LiveBody};
use sch_sets::Set;
use sch_word::Mem;
use std::alloc::Global;

/// The body with a set at each call: at one that some path through the body reaches, exactly the variables that are live
/// after it, and at any other none. That fixes the sets, and all else is the body's.
pub fn live<const N: usize>(alloc: Global, b: &Body) -> Result<LiveBody<'_, N>, Mem>
    requires fits { b.now.variables ≤ 64 * N }
    ensures body { IfOk result (λ r. r.body.now ≡ b.now) }
    ensures same { IfOk result (λ r. unlisted (listed r.exp) ≡ expression b.now.exp) }
    ensures made { IfOk result (λ r. lists_in_order b.now.variables (listed r.exp) ≡ live_listed b.now.variables (expression b.now.exp)) }
    ensures live { IfOk result (λ r. HasLiveSets (listed r.exp)) }
    ensures meaning { IfOk result (λ r. PlainlySame (expression b.now.exp) (listed r.exp)) }
{
    let mut exp = with_no_sets(alloc, &b.exp)?;
    let nothing = Set::new();
    list_live(&mut exp, &nothing, &nothing, &mut Set::new());
    keep_reached(&mut exp, true);
    Ok(LiveBody {
        body: b,
        exp: Box::into_inner(exp),
    })
}
