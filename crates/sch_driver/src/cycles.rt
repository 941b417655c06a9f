//! The cycles of calls, as they are listed.

ghost use Rattle.std.specs.Prelude.{◌≡◌, ◌++◌, [], IfOk, OnOk};
ghost use Rattle.sch_driver.specs.ListedCycles.{cycles_at, listed_cycles};

use sch_listing::Cycle;
use sch_orders::ListedCall;
use sch_word::{List, Mem, Place};
use std::alloc::Global;

/// Adds the cycles of a call, each with the call's site.
fn add_cycles(site: u32, cycles: Vec<List<Place>>, all: &mut List<Cycle>) -> Result<(), Mem>
    ensures { OnOk result (all.new ≡ all.old ++ cycles_at site cycles.items) }
{
    for places in cycles {
        all.push(Cycle { site, places })?;
    }
    Ok(())
}

fn gather_cycles(alloc: Global, calls: Vec<ListedCall>) -> Result<List<Cycle>, Mem>
    ensures { IfOk result (λ all. all ≡ listed_cycles calls.items) }
{
    let mut all = List::new(alloc);
    for call in calls {
        add_cycles(call.site, call.cycles.into_vec(), &mut all)?;
    }
    Ok(all)
}

/// The cycles of calls, in their order, each with its site. They are not copied, and what else is listed of calls is let go.
pub(crate) fn cycles_of(alloc: Global, calls: List<ListedCall>) -> Result<List<Cycle>, Mem>
    ensures { IfOk result (λ all. all ≡ listed_cycles calls) }
{
    gather_cycles(alloc, calls.into_vec())
}
