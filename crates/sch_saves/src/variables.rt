//! The variables of a body.

ghost use Rattle.std.specs.Prelude.{◌≡◌, ◌≤◌, ◌*◌, ℕ, nat_lt};
ghost use Rattle.std.specs.FinSet as set;

use sch_sets::Set;

/// The first `count` variables, and the set of them.
#[derive(Clone, Copy)]
pub(crate) struct Variables<'a, const N: usize> {
    pub count: u32,
    pub all: &'a Set<N>,
    ghost fits: { count ≤ 64 * N },
    ghost whole: { (x : ℕ) → set.contains all.now x ≡ nat_lt x count },
}

/// The set of as many variables as are asked for, from 0 on.
pub(crate) fn first_variables<const N: usize>(count: u32) -> Set<N>
    requires { count ≤ 64 * N }
    ensures { (x : ℕ) → set.contains result x ≡ nat_lt x count }
{
    let mut all = Set::new();
    for x in 0..count {
        all.insert(x);
    }
    all
}
