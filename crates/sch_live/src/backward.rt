//! What is live after each call, from what is live behind the expression.

ghost use Rattle.std.specs.Prelude.{◌≡◌, ◌*◌, ◌<◌};
ghost use Rattle.sch_control.specs.flow.Bare.{unlisted};
ghost use Rattle.sch_control.specs.flow.Middle.{listed};
ghost use Rattle.sch_control.specs.flow.Reads.{VariablesBelow};
ghost use Rattle.sch_live.specs.BackwardSets.{IsLiveBefore, ListsAllLive, later_of};

use sch_control::{
    Exp, after_operation, read_application, read_members, read_operation, remove_members,
};
use sch_sets::Set;

/// Puts at each call what is live after it, and into `before` what is live before the expression, from what is live behind it
/// where its value counts as true and where it is `#f`.
pub(crate) fn list_live<const N: usize>(
    e: &mut Exp<Set<N>>,
    on_true: &Set<N>,
    on_false: &Set<N>,
    before: &mut Set<N>,
)
    requires some { 0 < N }
    requires below { VariablesBelow (64 * N) (listed e.old) }
    ensures same { unlisted (listed e.new) ≡ unlisted (listed e.old) }
    ensures before { IsLiveBefore (listed e.new) on_true.now on_false.now before.new }
    ensures sets { ListsAllLive (listed e.new) (later_of on_true.now on_false.now) }
{
    let mut behind = Set::new();
    let mut other = Set::new();
    match e {
        Exp::Do(o) => {
            *before = after_operation(o, on_true, on_false);
            read_operation(o, before);
        }
        Exp::Bind(x, a, b) => {
            list_live(b, on_true, on_false, &mut behind);
            behind.remove(*x);
            list_live(a, &behind, &behind, before);
        }
        Exp::Seq(a, b) => {
            list_live(b, on_true, on_false, &mut behind);
            list_live(a, &behind, &behind, before);
        }
        Exp::If(a, b, c) => {
            list_live(b, on_true, on_false, &mut behind);
            list_live(c, on_true, on_false, &mut other);
            list_live(a, &behind, &other, before);
        }
        Exp::Fix(members, e) => {
            list_live(e, on_true, on_false, before);
            read_members(members.as_slice(), before);
            remove_members(members.as_slice(), before);
        }
        Exp::Call(a, live) => {
            *live = on_true.union(on_false);
            *before = live.copy();
            read_application(a, before);
        }
        Exp::TailCall(a) => {
            *before = Set::new();
            before.insert(0);
            read_application(a, before);
        }
        Exp::Return(e) => {
            behind.insert(0);
            list_live(e, &behind, &behind, before);
        }
        Exp::End(e) => list_live(e, &behind, &behind, before),
        Exp::Save(_, e) => list_live(e, on_true, on_false, before),
    }
}
