//! Trees in which nothing is tested: their layout takes no labels.

ghost use Rattle.std.specs.Prelude.{◌≡◌, ◌*◌, ◌<◌, ◌^◌, ℕ, List, IsTrue};
ghost use Rattle.sch_control.specs.Sizes.{tests_in, tests_of};
ghost use Rattle.sch_control.specs.SourceView.{codes_of};
ghost use Rattle.sch_control.specs.View.{expression_with};
ghost use Rattle.sch_layout.specs.BodyLayout.{labels};

use sch_control::{Body, Exp};

// Whether nothing is tested in an expression.
pub(crate) fn is_straight<C: Drop>(e: &Exp<C>) -> bool
    ensures tests { (restores : C → List ℕ) → IsTrue result → tests_in (expression_with restores e.now) ≡ 0 }
    ensures labels { (restores : C → List ℕ) → IsTrue result → labels (expression_with restores e.now) ≡ 0 }
{
    match e {
        Exp::Bind(_, a, b) => is_straight(a) && is_straight(b),
        Exp::Seq(a, b) => is_straight(a) && is_straight(b),
        Exp::If(_, _, _) => false,
        Exp::Fix(_, e) => is_straight(e),
        Exp::Return(e) => is_straight(e),
        Exp::End(e) => is_straight(e),
        Exp::Save(_, e) => is_straight(e),
        Exp::Do(_) | Exp::Call(_, _) | Exp::TailCall(_) => true,
    }
}

// Whether there is one body at most, in which nothing is tested.
pub(crate) fn are_straight(bodies: &[Body]) -> bool
    ensures { IsTrue result → 2 * tests_of (codes_of bodies.now) < 2 ^ 32 }
{
    match bodies {
        [] => true,
        [body] => is_straight(&body.exp),
        _ => false,
    }
}
