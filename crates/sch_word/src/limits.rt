//! Limits of a run.

ghost use Rattle.std.specs.Prelude.{◌≡◌, ◌≤◌, ◌%◌, ◌↔◌, IsSome, IfSome};
ghost use Rattle.sch_word.specs.runs.Limits.{AreLimits};

/// The least heap of a run, in bytes.
pub const MIN_HEAP: u64 = 4_096;

/// The greatest heap of a run, in bytes.
pub const MAX_HEAP: u64 = 1_073_741_824;

/// The least depth of a run.
pub const MIN_DEPTH: u64 = 1;

/// The greatest depth of a run.
pub const MAX_DEPTH: u64 = 10_000_000;

/// What a run may use: bytes of heap, a multiple of 16, and depth, the number of calls that are
/// pending and no tail calls.
#[derive(Clone, Copy)]
pub struct Limits {
    pub heap: u64,
    pub depth: u64,
    ghost admitted: { AreLimits heap depth },
}

impl Limits {
    /// These limits, and `None` exactly where they are not admitted.
    pub fn new(heap: u64, depth: u64) -> Option<Limits>
        ensures admitted { IsSome result ↔ AreLimits heap depth }
        ensures value { IfSome result (λ limits. (limits.heap ≡ heap) × (limits.depth ≡ depth)) }
    {
        let heap_fits = MIN_HEAP <= heap && heap <= MAX_HEAP && heap % 16 == 0;
        if heap_fits && MIN_DEPTH <= depth && depth <= MAX_DEPTH {
            Some(Limits { heap, depth })
        } else {
            None
        }
    }
}
