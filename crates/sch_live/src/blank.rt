//! A body's tree with an empty set at each call.

ghost use Rattle.std.specs.Prelude.{◌≡◌, [], IfOk};
ghost use Rattle.sch_control.specs.Tree.{call};
ghost use Rattle.sch_control.specs.View.{expression};
ghost use Rattle.sch_control.specs.flow.Middle.{listed};

use sch_control::{
    Application, Exp, boxed_bind, boxed_call, boxed_end, boxed_if, boxed_return, boxed_seq,
    copied_do, copied_fix, copied_save, copied_tail_call, copy_application,
};
use sch_sets::Set;
use sch_word::Mem;
use std::alloc::Global;

// A copy of a call with an empty set.
#[inline(never)]
fn call_with_no_set<const N: usize>(
    alloc: Global,
    a: &Application<u32>,
) -> Result<Box<Exp<Set<N>>>, Mem>
    ensures { IfOk result (λ r. listed r.value ≡ call a.now []) }
{
    let a = copy_application(alloc, a)?;
    boxed_call(alloc, a, Set::new())
}

/// A copy of an expression with an empty set at each call.
pub(crate) fn with_no_sets<const N: usize>(
    alloc: Global,
    e: &Exp<()>,
) -> Result<Box<Exp<Set<N>>>, Mem>
    ensures { IfOk result (λ r. listed r.value ≡ expression e.now) }
{
    match e {
        Exp::Do(o) => copied_do(alloc, o),
        Exp::Bind(x, a, b) => {
            let a = with_no_sets(alloc, a)?;
            let b = with_no_sets(alloc, b)?;
            boxed_bind(alloc, *x, a, b)
        }
        Exp::Seq(a, b) => {
            let a = with_no_sets(alloc, a)?;
            let b = with_no_sets(alloc, b)?;
            boxed_seq(alloc, a, b)
        }
        Exp::If(a, b, c) => {
            let a = with_no_sets(alloc, a)?;
            let b = with_no_sets(alloc, b)?;
            let c = with_no_sets(alloc, c)?;
            boxed_if(alloc, a, b, c)
        }
        Exp::Fix(members, e) => {
            let e = with_no_sets(alloc, e)?;
            copied_fix(alloc, members, e)
        }
        Exp::Call(a, _) => call_with_no_set(alloc, a),
        Exp::TailCall(a) => copied_tail_call(alloc, a),
        Exp::Return(e) => {
            let e = with_no_sets(alloc, e)?;
            boxed_return(alloc, e)
        }
        Exp::End(e) => {
            let e = with_no_sets(alloc, e)?;
            boxed_end(alloc, e)
        }
        Exp::Save(saves, e) => {
            let e = with_no_sets(alloc, e)?;
            copied_save(alloc, saves, e)
        }
    }
}
