//! Regions round expressions.

ghost use Rattle.std.specs.Prelude.{◌≡◌, IfOk};
ghost use Rattle.sch_control.specs.flow.Middle.{listed};
ghost use Rattle.sch_saves.specs.LazyRegions.{round};

use sch_control::{Exp, boxed_save};
use sch_sets::Set;
use sch_word::{List, Mem};
use std::alloc::Global;

/// A region round an expression, where there is something to save.
pub(crate) fn with_region<const N: usize>(
    alloc: Global,
    saves: List<u32>,
    e: Box<Exp<Set<N>>>,
) -> Result<Box<Exp<Set<N>>>, Mem>
    ensures { IfOk result (λ made. listed made.value ≡ round saves (listed e.entry.value)) }
{
    if saves.is_empty() {
        Ok(e)
    } else {
        boxed_save(alloc, saves, e)
    }
}
