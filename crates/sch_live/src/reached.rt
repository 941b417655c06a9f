//! Calls to which no path comes.

ghost use Rattle.std.specs.Prelude.{◌≡◌, true, false};
ghost use Rattle.sch_control.specs.flow.Middle.{listed};
ghost use Rattle.sch_live.specs.Reached.{gives, where_reached};

use crate::results::{BOTH, Results, results_of};
use sch_control::Exp;
use sch_sets::Set;

/// Empties the set of each call to which no path comes; `reached` says whether one comes to the expression. Answers what
/// the expression may give.
pub(crate) fn keep_reached<const N: usize>(e: &mut Exp<Set<N>>, reached: bool) -> Results
    ensures made { listed e.new ≡ where_reached reached (listed e.old) }
    ensures on_true { result.on_true ≡ gives (listed e.old) true }
    ensures on_false { result.on_false ≡ gives (listed e.old) false }
{
    match e {
        Exp::Do(o) => results_of(o),
        Exp::Bind(_, a, b) => {
            keep_reached(a, reached);
            keep_reached(b, reached)
        }
        Exp::Seq(a, b) => {
            keep_reached(a, reached);
            keep_reached(b, reached)
        }
        Exp::If(a, b, c) => {
            let test = keep_reached(a, reached);
            let first = keep_reached(b, reached && test.on_true);
            let second = keep_reached(c, reached && test.on_false);
            Results {
                on_true: test.on_true && first.on_true || test.on_false && second.on_true,
                on_false: test.on_true && first.on_false || test.on_false && second.on_false,
            }
        }
        Exp::Fix(_, e) => keep_reached(e, reached),
        Exp::Call(_, live) => {
            if !reached {
                *live = Set::new();
            }
            BOTH
        }
        Exp::TailCall(_) => BOTH,
        Exp::Return(e) => {
            keep_reached(e, reached);
            BOTH
        }
        Exp::End(e) => {
            keep_reached(e, reached);
            BOTH
        }
        Exp::Save(_, e) => keep_reached(e, reached),
    }
}
