//! What each part of a body needs saved, and a region of it round each arm.

ghost use Rattle.std.specs.Prelude.{◌≡◌, IfOk, OnOk, filter};
ghost use Rattle.std.specs.FinSet as set;
ghost use Rattle.sch_word.specs.trees.Bindings.{numbers};
ghost use Rattle.sch_control.specs.Tree as tree;
ghost use Rattle.sch_control.specs.flow.Middle.{listed};
ghost use Rattle.sch_saves.specs.LazyRegions as lazily;
ghost use Rattle.sch_saves.specs.SetsOfNeeds.{AreSavedBy};

use crate::regions::with_region;
use crate::variables::Variables;
use sch_control::{
    Application, Exp, Operation, boxed_bind, boxed_call, boxed_end, boxed_if, boxed_return,
    boxed_seq, copied_do, copied_fix, copied_tail_call, copy_application, known, members_of,
};
use sch_sets::Set;
use sch_word::Mem;
use std::alloc::Global;

/// What all paths through an expression need.
#[inline(never)]
pub(crate) fn settle<const N: usize>(on_true: &mut Set<N>, on_false: &mut Set<N>)
    ensures on_true { on_true.new ≡ set.intersection on_true.old on_false.old }
    ensures on_false { on_false.new ≡ set.intersection on_true.old on_false.old }
{
    *on_true = on_true.meet(on_false);
    *on_false = on_true.copy();
}

// Nothing is needed.
#[inline(never)]
fn clear<const N: usize>(on_true: &mut Set<N>, on_false: &mut Set<N>)
    ensures on_true { on_true.new ≡ set.empty }
    ensures on_false { on_false.new ≡ set.empty }
{
    *on_true = Set::new();
    *on_false = Set::new();
}

// Adds to what an expression needs, for each of its results, what the one before it needs. That is nothing, unless a call is in it.
#[inline(never)]
fn need_before<const N: usize>(
    before_true: &Set<N>,
    before_false: &Set<N>,
    on_true: &mut Set<N>,
    on_false: &mut Set<N>,
)
    ensures on_true { on_true.new ≡ set.union (set.intersection before_true.now before_false.now) on_true.old }
    ensures on_false { on_false.new ≡ set.union (set.intersection before_true.now before_false.now) on_false.old }
{
    let before = before_true.meet(before_false);
    if !before.is_empty() {
        *on_true = before.union(on_true);
        *on_false = before.union(on_false);
    }
}

// What a test and then one of two arms need, for a result of the arms.
#[inline(never)]
fn need_either<const N: usize>(
    on_true: &Set<N>,
    on_false: &Set<N>,
    first: &mut Set<N>,
    second: &Set<N>,
)
    ensures { first.new ≡ set.intersection (set.union on_true.now first.old) (set.union on_false.now second.now) }
{
    *first = on_true.union(first).meet(&on_false.union(second));
}

// What an operation needs: nothing, or everything for a result that it does not have.
#[inline(never)]
fn need_value<const N: usize>(
    variables: &Variables<'_, N>,
    o: &Operation<u32>,
    on_true: &mut Set<N>,
    on_false: &mut Set<N>,
)
    ensures { AreSavedBy variables.now.count (tree.perform o.now) on_true.new on_false.new }
{
    clear(on_true, on_false);
    match known(o) {
        Some(true) => *on_false = variables.all.copy(),
        Some(false) => *on_true = variables.all.copy(),
        None => {}
    }
}

// What a call needs.
#[inline(never)]
fn need_live<const N: usize>(
    variables: &Variables<'_, N>,
    live: &Set<N>,
    on_true: &mut Set<N>,
    on_false: &mut Set<N>,
)
    ensures on_true { on_true.new ≡ set.intersection live.now variables.now.all.now }
    ensures on_false { on_false.new ≡ set.intersection live.now variables.now.all.now }
{
    *on_true = live.meet(variables.all);
    *on_false = on_true.copy();
}

// A copy of a call.
#[inline(never)]
fn copied_call<const N: usize>(
    alloc: Global,
    a: &Application<u32>,
    live: &Set<N>,
) -> Result<Box<Exp<Set<N>>>, Mem>
    ensures { IfOk result (λ r. listed r.value ≡ tree.call a.now (set.items live.now)) }
{
    let a = copy_application(alloc, a)?;
    boxed_call(alloc, a, live.copy())
}

/// A region round an expression of all that it needs.
#[inline(never)]
pub(crate) fn surround<const N: usize>(
    alloc: Global,
    variables: &Variables<'_, N>,
    on_true: &Set<N>,
    on_false: &Set<N>,
    e: Box<Exp<Set<N>>>,
) -> Result<Box<Exp<Set<N>>>, Mem>
    ensures { IfOk result (λ r. listed r.value ≡ lazily.round
        (filter (set.contains (set.intersection on_true.now on_false.now)) (numbers 0 variables.now.count))
        (listed e.entry.value)) }
{
    let saves = members_of(alloc, variables.count, &on_true.meet(on_false))?;
    with_region(alloc, saves, e)
}

/// A copy of an expression with a region round each arm of all that the arm needs. `on_true` and `on_false` get what the whole
/// needs: what is live after a call on each path that gives a value that counts as true, and on each that gives `#f`.
pub(crate) fn with_needs<const N: usize>(
    alloc: Global,
    variables: &Variables<'_, N>,
    e: &Exp<Set<N>>,
    on_true: &mut Set<N>,
    on_false: &mut Set<N>,
) -> Result<Box<Exp<Set<N>>>, Mem>
    ensures made { IfOk result (λ r. listed r.value ≡ lazily.with_needs variables.now.count (listed e.now)) }
    ensures sets { OnOk result (AreSavedBy variables.now.count (listed e.now) on_true.new on_false.new) }
{
    let mut before_true = Set::new();
    let mut before_false = Set::new();
    match e {
        Exp::Do(o) => {
            need_value(variables, o, on_true, on_false);
            copied_do(alloc, o)
        }
        Exp::Bind(x, a, b) => {
            let a = with_needs(alloc, variables, a, &mut before_true, &mut before_false)?;
            let b = with_needs(alloc, variables, b, on_true, on_false)?;
            need_before(&before_true, &before_false, on_true, on_false);
            boxed_bind(alloc, *x, a, b)
        }
        Exp::Seq(a, b) => {
            let a = with_needs(alloc, variables, a, &mut before_true, &mut before_false)?;
            let b = with_needs(alloc, variables, b, on_true, on_false)?;
            need_before(&before_true, &before_false, on_true, on_false);
            boxed_seq(alloc, a, b)
        }
        Exp::If(a, b, c) => {
            let mut other_true = Set::new();
            let mut other_false = Set::new();
            let a = with_needs(alloc, variables, a, &mut before_true, &mut before_false)?;
            let first = with_needs(alloc, variables, b, on_true, on_false)?;
            let b = surround(alloc, variables, on_true, on_false, first)?;
            let second = with_needs(alloc, variables, c, &mut other_true, &mut other_false)?;
            let c = surround(alloc, variables, &other_true, &other_false, second)?;
            need_either(&before_true, &before_false, on_true, &other_true);
            need_either(&before_true, &before_false, on_false, &other_false);
            boxed_if(alloc, a, b, c)
        }
        Exp::Fix(members, e) => {
            let e = with_needs(alloc, variables, e, on_true, on_false)?;
            copied_fix(alloc, members, e)
        }
        Exp::Call(a, live) => {
            need_live(variables, live, on_true, on_false);
            copied_call(alloc, a, live)
        }
        Exp::TailCall(a) => {
            clear(on_true, on_false);
            copied_tail_call(alloc, a)
        }
        Exp::Return(e) => {
            let e = with_needs(alloc, variables, e, on_true, on_false)?;
            settle(on_true, on_false);
            boxed_return(alloc, e)
        }
        Exp::End(e) => {
            let e = with_needs(alloc, variables, e, on_true, on_false)?;
            settle(on_true, on_false);
            boxed_end(alloc, e)
        }
        Exp::Save(_, e) => with_needs(alloc, variables, e, on_true, on_false),
    }
}
