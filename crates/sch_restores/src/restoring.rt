//! The walk over a body, from its end, that lists what each call restores.

ghost use Rattle.std.specs.Prelude.{◌≡◌, ◌≤◌, ◌<◌, ◌*◌, ℕ, ◌&&◌, ◌||◌, not, filter, IfOk, OnOk};
ghost use Rattle.std.specs.FinSet as set;
ghost use Rattle.sch_word.specs.trees.Bindings.{numbers};
ghost use Rattle.sch_control.specs.Meaning.{binds};
ghost use Rattle.sch_control.specs.Tree as tree;
ghost use Rattle.sch_control.specs.flow.LiveTests.{behind, is_soon};
ghost use Rattle.sch_control.specs.flow.Middle.{listed};
ghost use Rattle.sch_control.specs.flow.Reads.{VariablesBelow};
ghost use Rattle.sch_control.specs.flow.Regions.{SavesBelow};
ghost use Rattle.sch_control.specs.flow.RestoredView.{restored, restored_listed};
ghost use Rattle.sch_restores.specs.Restores.{eager, wanted};

use crate::around::Around;
use crate::wanted::{want_call, want_group, want_heads, want_operation, want_tail_call};
use sch_control::{
    Application, Exp, Restoring, boxed_bind, boxed_call, boxed_end, boxed_if, boxed_return,
    boxed_seq, copied_do, copied_fix, copied_save, copied_tail_call, copy_application, members_of,
    remove_members, with_all,
};
use sch_sets::Set;
use sch_word::Mem;
use std::alloc::Global;

// What a call restores: of what is live after it and saved, what is wanted.
fn restoring<const N: usize>(
    alloc: Global,
    live: &Set<N>,
    around: &Around<'_, '_, N>,
) -> Result<Restoring<N>, Mem>
    ensures live { IfOk result (λ r. r.live ≡ live.now) }
    ensures restores { IfOk result (λ r. r.restores ≡ wanted around.now.count (set.contains live.now)
        (set.contains around.now.inside.now) (behind around.now.on_true.now around.now.on_false.now)) }
{
    let soon = around.on_true.union(around.on_false);
    let all = live.meet(&around.inside.meet(&soon));
    let restores = members_of(alloc, around.count, &all)?;
    Ok(Restoring {
        live: live.copy(),
        restores,
    })
}

// A copy of a call with what it restores.
#[inline(never)]
fn restoring_call<const N: usize>(
    alloc: Global,
    a: &Application<u32>,
    live: &Set<N>,
    around: &Around<'_, '_, N>,
) -> Result<Box<Exp<Restoring<N>>>, Mem>
    ensures same { IfOk result (λ r. restored_listed r.value ≡ tree.call a.now (set.items live.now)) }
    ensures made { IfOk result (λ r. restored r.value ≡ tree.call a.now (wanted around.now.count (set.contains live.now)
        (set.contains around.now.inside.now) (behind around.now.on_true.now around.now.on_false.now))) }
{
    let a = copy_application(alloc, a)?;
    let r = restoring(alloc, live, around)?;
    boxed_call(alloc, a, r)
}

/// A copy of an expression in which each call restores what is wanted after it before the next one. `soon` gets what is wanted
/// before the expression, and what the expression binds is taken out of `unbound`.
pub(crate) fn restore<const N: usize>(
    alloc: Global,
    e: &Exp<Set<N>>,
    around: &Around<'_, '_, N>,
    soon: &mut Set<N>,
    unbound: &mut Set<N>,
) -> Result<Box<Exp<Restoring<N>>>, Mem>
    requires some { 0 < N }
    requires variables { VariablesBelow (64 * N) (listed e.now) }
    requires saves { SavesBelow (64 * N) (listed e.now) }
    ensures same { IfOk result (λ r. restored_listed r.value ≡ listed e.now) }
    ensures made { IfOk result (λ r. restored r.value ≡ eager around.now.count (set.contains around.now.inside.now) (listed e.now)
        (behind around.now.on_true.now around.now.on_false.now)) }
    ensures soon { OnOk result ((x : ℕ) → set.contains soon.new x
        ≡ is_soon x (listed e.now) (behind around.now.on_true.now around.now.on_false.now x)) }
    ensures unbound { OnOk result ((x : ℕ) → set.contains unbound.new x
        ≡ (not (binds x (listed e.now)) && set.contains unbound.old x)) }
{
    let mut later = Set::new();
    match e {
        Exp::Do(o) => {
            want_operation(o, around.on_true, around.on_false, soon);
            copied_do(alloc, o)
        }
        Exp::Bind(x, a, b) => {
            let b = restore(alloc, b, around, &mut later, unbound)?;
            later.remove(*x);
            unbound.remove(*x);
            let a = restore(alloc, a, &around.with_behind(&later, &later), soon, unbound)?;
            boxed_bind(alloc, *x, a, b)
        }
        Exp::Seq(a, b) => {
            let b = restore(alloc, b, around, &mut later, unbound)?;
            let a = restore(alloc, a, &around.with_behind(&later, &later), soon, unbound)?;
            boxed_seq(alloc, a, b)
        }
        Exp::If(a, b, c) => {
            let mut other = Set::new();
            let b = restore(alloc, b, around, &mut later, unbound)?;
            let c = restore(alloc, c, around, &mut other, unbound)?;
            let a = restore(alloc, a, &around.with_behind(&later, &other), soon, unbound)?;
            boxed_if(alloc, a, b, c)
        }
        Exp::Fix(members, e) => {
            let e = restore(alloc, e, around, soon, unbound)?;
            want_group(members.as_slice(), soon);
            remove_members(members.as_slice(), unbound);
            copied_fix(alloc, members, e)
        }
        Exp::Call(a, live) => {
            want_call(a, soon);
            restoring_call(alloc, a, live, around)
        }
        Exp::TailCall(a) => {
            want_tail_call(a, soon);
            copied_tail_call(alloc, a)
        }
        Exp::Return(e) => {
            later.insert(0);
            let e = restore(alloc, e, &around.with_behind(&later, &later), soon, unbound)?;
            boxed_return(alloc, e)
        }
        Exp::End(e) => {
            let e = restore(alloc, e, &around.with_behind(&later, &later), soon, unbound)?;
            boxed_end(alloc, e)
        }
        Exp::Save(saves, e) => {
            let within = with_all(around.inside, saves.as_slice());
            let mut own = with_all(unbound, saves.as_slice());
            let e = restore(alloc, e, &around.within(&within), soon, &mut own)?;
            want_heads(saves.as_slice(), &own, soon);
            *unbound = unbound.meet(&own);
            copied_save(alloc, saves, e)
        }
    }
}
