//! Which results an expression may give: a value that counts as true, or `#f`.

ghost use Rattle.std.specs.Prelude.{◌≡◌, true, false};
ghost use Rattle.sch_control.specs.flow.Live as flow;
ghost use Rattle.sch_live.specs.Reached.{may_be};

use sch_control::{Operation, known};

/// Whether an expression may give a value that counts as true, and whether it may give `#f`.
#[derive(Clone, Copy)]
pub(crate) struct Results {
    pub on_true: bool,
    pub on_false: bool,
}

/// Both results.
pub(crate) const BOTH: Results = Results {
    on_true: true,
    on_false: true,
};

/// What an operation may give.
pub(crate) fn results_of(o: &Operation<u32>) -> Results
    ensures on_true { result.on_true ≡ may_be (flow.known o.now) true }
    ensures on_false { result.on_false ≡ may_be (flow.known o.now) false }
{
    match known(o) {
        Some(true) => Results {
            on_true: true,
            on_false: false,
        },
        Some(false) => Results {
            on_true: false,
            on_false: true,
        },
        None => Results {
            on_true: true,
            on_false: true,
        },
    }
}
