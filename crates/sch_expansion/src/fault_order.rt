//! The order of faults, and the least of them.

ghost use Rattle.std.specs.Prelude.{◌≡◌, ◌<◌, ◌^◌, ◌*◌, ◌+◌};
ghost use Rattle.sch_expansion.specs.FaultOrder.{rank, reported};

use sch_sketch::Fault;

/// The order of faults: by their places, and at one place by their causes.
fn rank(f: &Fault) -> u64
    ensures { result ≡ rank f.now }
{
    match f {
        Fault::KeywordDefined(at) => *at as u64 * 5,
        Fault::BadForm(at) => *at as u64 * 5 + 1,
        Fault::Unbound(at, _) => *at as u64 * 5 + 2,
        Fault::Operands(at) => *at as u64 * 5 + 3,
        Fault::Core(at) => *at as u64 * 5 + 4,
    }
}

/// One more fault: the least stays, and of two equals the first.
pub fn report(so_far: &mut Option<Fault>, f: Fault)
    ensures { so_far.new ≡ reported f so_far.old }
{
    if let Some(g) = so_far {
        if rank(g) <= rank(&f) {
            return;
        }
    }
    *so_far = Some(f);
}
