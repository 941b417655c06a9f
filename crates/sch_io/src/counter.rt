//! Counters of a device.

ghost use Rattle.std.specs.Prelude.{◌≡◌, ◌≤◌};
ghost use Rattle.sch_io.specs.Counters.{raised};

/// Raises a counter by one, up to its last value, at which it stands.
pub(crate) fn raise(counter: &mut u64)
    ensures raised { counter.new ≡ raised counter.old }
    ensures later { counter.old ≤ counter.new }
{
    *counter = counter.saturating_add(1);
}
