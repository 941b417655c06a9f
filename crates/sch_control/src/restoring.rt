//! What is said of a call of a body that restores.

ghost use Rattle.std.specs.Prelude.{IsTrue};
ghost use Rattle.std.specs.FinSet as set;
ghost use Rattle.std.specs.List.{list_all};
ghost use Rattle.sch_word.specs.trees.NumberSets.{without_repeats};

use sch_sets::Set;
use sch_word::List;

/// What is live after a call, and what is restored directly after it from where it is saved, each variable once. Only
/// what is live is restored.
#[derive(Drop)]
pub struct Restoring<const N: usize> {
    pub live: Set<N>,
    pub restores: List<u32>,
    ghost alive: { IsTrue (list_all (set.contains live) restores) },
    ghost once: { IsTrue (without_repeats restores) },
}
