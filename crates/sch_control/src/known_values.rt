//! What is known of the value of an operation before it is done.

ghost use Rattle.std.specs.Prelude.{◌≡◌, ℕ};
ghost use Rattle.std.specs.FinSet as set;
ghost use Rattle.sch_control.specs.flow.Live as flow;
ghost use Rattle.sch_control.specs.flow.LiveTests.{behind, by_result};

use crate::operation::{Atom, Operand, Operation};
use sch_sets::Set;
use sch_word::Const;

/// Whether the value of an operation is known to count as true, or to be `#f`.
pub fn known(o: &Operation<u32>) -> Option<bool>
    ensures { result ≡ flow.known o.now }
{
    match o {
        Operation::Operand(Operand::Atom(Atom::Constant(Const::Boolean(b)))) => Some(*b),
        Operation::Operand(Operand::Atom(Atom::Constant(_))) => Some(true),
        _ => None,
    }
}

/// What holds behind an operation, by what is known of its value: what holds where it counts as true, what holds where it is
/// `#f`, or both.
pub fn after_operation<const N: usize>(
    o: &Operation<u32>,
    on_true: &Set<N>,
    on_false: &Set<N>,
) -> Set<N>
    ensures { (x : ℕ) → set.contains result x ≡ by_result (flow.known o.now) (behind on_true.now on_false.now x) }
{
    match known(o) {
        Some(true) => on_true.copy(),
        Some(false) => on_false.copy(),
        None => on_true.union(on_false),
    }
}
