//! Sets of variables, and lists of them.

ghost use Rattle.std.specs.Prelude.{◌≡◌, ◌≤◌, ◌*◌, ℕ, true, nat_lt, ◌||◌, filter, IfOk};
ghost use Rattle.std.specs.FinSet as set;
ghost use Rattle.std.specs.List.{list_all};
ghost use Rattle.sch_word.specs.trees.Bindings.{numbers};
ghost use Rattle.sch_word.specs.trees.NumberSets.{has};

use sch_sets::Set;
use sch_word::{List, Mem};
use std::alloc::Global;

/// Those of the first `count` variables that are in a set, in their order.
pub fn members_of<const N: usize>(alloc: Global, count: u32, s: &Set<N>) -> Result<List<u32>, Mem>
    requires { count ≤ 64 * N }
    ensures { IfOk result (λ xs. xs ≡ filter (set.contains s.now) (numbers 0 count)) }
{
    let mut xs = List::new(alloc);
    let mut from = 0;
    'members: while let Some(x) = s.next(from, count) {
        xs.push(x)?;
        from = x + 1;
    }
    Ok(xs)
}

/// A set with some variables more.
pub fn with_all<const N: usize>(s: &Set<N>, xs: &[u32]) -> Set<N>
    requires { list_all (λ x. nat_lt x (64 * N)) xs.now ≡ true }
    ensures { (y : ℕ) → set.contains result y ≡ (has y xs.now || set.contains s.now y) }
{
    let mut all = s.copy();
    for x in xs {
        all.insert(*x);
    }
    all
}
