//! How many variables bodies have. A count goes no further than one past the limit.
//!
//! Which variables are assigned is known before: their marks stand on a stack, in the order of the text, and the
//! walk takes each when it comes to its binding.

ghost use Rattle.std.specs.Prelude.{◌≡◌, ◌+◌, ◌&&◌, cond, nat_le, length, reverse, slice_get, take, IfOk, OnOk};
ghost use Rattle.sch_word.specs.trees.Shape.{max_variables};
ghost use Rattle.sch_lang.specs.Tree.{Expression};
ghost use Rattle.sch_lang.specs.Variables.{assigns};
ghost use Rattle.sch_word.specs.values.Options.{or_false};
ghost use Rattle.sch_word.specs.trees.VariableCounts.{one_unless, twice_if, three_each};
ghost use Rattle.sch_lang.specs.Measures.{body_variables, counts_nothing, bound_count, onto_assigned, variables, variables_each, variables_operands, variables_parts};
ghost use Rattle.sch_lang.specs.View.{expression, expressions_of, lambdas_of};
ghost use Rattle.sch_variable_counts.specs.Counts.{Counts};
ghost use Rattle.sch_lang.specs.Kinds.{IsLet, IsFix, IsRec};
ghost use Rattle.sch_variable_counts.specs.Walked.{capped, marks_of, marks_in, marks_in_each, marks_in_lambdas, Takes};
ghost use Rattle.sch_variable_counts.specs.Within.{has_few_variables, each_procedure_in, each_lambda, few_variables};

use crate::assigned::all_marks;
use crate::lengths::{both, count, count_lambdas};
use crate::scopes::bind_all;
use sch_lang::{Exp, Lambda};
use sch_word::{List, Mem};
use std::alloc::Global;

const MAX_VARIABLES: usize = 1000;

/// One more than a body may have.
const TOO_MANY: usize = MAX_VARIABLES + 1;

/// The variables that are counted, and whether each procedure that the walk came to has few enough.
#[derive(Clone, Copy, Drop)]
pub(crate) struct Counted {
    pub(crate) variables: usize,
    pub(crate) few: bool,
}

const NOTHING: Counted = Counted {
    variables: 0,
    few: true,
};

/// What two walks have counted.
fn sum(a: Counted, b: Counted) -> Counted
    ensures variables { result.variables ≡ capped (a.variables + b.variables) }
    ensures few { result.few ≡ (a.few && b.few) }
{
    Counted {
        variables: plus(a.variables, b.variables),
        few: both(a.few, b.few),
    }
}

/// What was counted and `variables` more.
fn with(variables: usize, a: Counted) -> Counted
    ensures variables { result.variables ≡ capped (variables + a.variables) }
    ensures few { result.few ≡ a.few }
{
    Counted {
        variables: plus(variables, a.variables),
        few: a.few,
    }
}

/// The sum of two counts.
fn plus(a: usize, b: usize) -> usize
    ensures { result ≡ capped (a + b) }
{
    a.saturating_add(b).min(TOO_MANY)
}

/// Whether an expression needs no variable for its value. `once` says of the body's variables, the nearest
/// last, whether each counts once.
fn counts_nothing(e: &Exp, once: &[bool]) -> bool
    ensures { result ≡ counts_nothing (expression e.now) (reverse once.now) }
{
    match e {
        Exp::Constant(_) => true,
        Exp::Literal(_) => true,
        Exp::Local(k) => or_false(once, *k as usize),
        _ => false,
    }
}

/// Whether the variable with k bound nearer is one of the body's and counts once.
fn or_false(once: &[bool], k: usize) -> bool
    ensures { result ≡ or_false (slice_get (reverse once.now) k) }
{
    let n = once.len();
    k < n && once[n - 1 - k]
}

/// What the value of an expression counts.
fn value_count(e: &Exp, once: &[bool]) -> usize
    ensures { result ≡ one_unless (counts_nothing (expression e.now) (reverse once.now)) }
{
    if counts_nothing(e, once) { 0 } else { 1 }
}

fn twice_if(assigned: bool) -> usize
    ensures { result ≡ twice_if assigned }
{
    if assigned { 2 } else { 1 }
}

/// Binds variables, each of which counts twice where it is assigned, and answers what they count.
fn bind_assigned(count: usize, marks: &mut Vec<bool>, once: &mut Vec<bool>) -> Result<usize, Mem>
    ensures count { IfOk result (λ n. (e : Expression) → Takes (marks_of count (assigns e)) marks.old.items marks.new.items (n ≡ capped (bound_count count e))) }
    ensures once { OnOk result ((e : Expression) → Takes (marks_of count (assigns e)) marks.old.items marks.new.items (reverse once.new.items ≡ onto_assigned count e (reverse once.old.items))) }
    ensures kept { OnOk result (take (length once.old.items) once.new.items ≡ once.old.items) }
{
    let mut total = 0;
    let mut left = count;
    while left > 0 {
        left -= 1;
        let Some(mark) = marks.pop() else {
            return Ok(total);
        };
        total = plus(total, twice_if(mark));
        once.push(!mark)?;
    }
    Ok(total)
}

/// What the variables of a `letrec` count.
#[tactic(auto, using(crate::proofs::CappedCounts::three_is))]
fn three_each(count: usize) -> usize
    ensures { result ≡ capped (three_each count) }
{
    count.saturating_mul(3).min(TOO_MANY)
}

/// What an expression counts in a body.
#[cycle(counting)]
fn count_in(
    alloc: Global,
    e: &Exp,
    once: &mut Vec<bool>,
    marks: &mut Vec<bool>,
) -> Result<Counted, Mem>
    ensures count { IfOk result (λ n. Takes (marks_in (expression e.now)) marks.old.items marks.new.items
        (Counts n (variables (expression e.now) (reverse once.old.items)) (few_variables (expression e.now)))) }
    ensures once { OnOk result (once.new.items ≡ once.old.items) }
{
    match e {
        Exp::Constant(_) => Ok(NOTHING),
        Exp::Literal(_) => Ok(NOTHING),
        Exp::Local(_) => Ok(NOTHING),
        Exp::Global(_) => Ok(NOTHING),
        Exp::Lambda(l) => {
            let few = count_body(alloc, l.formals, &l.body, marks)?;
            Ok(Counted { variables: 0, few })
        }
        Exp::SetLocal(_, value) => count_value(alloc, value, once, marks),
        Exp::SetGlobal(_, value) => count_value(alloc, value, once, marks),
        Exp::Define(_, value) => count_value(alloc, value, once, marks),
        Exp::If(test, yes, no) => {
            let a = count_in(alloc, test, once, marks)?;
            let b = count_in(alloc, yes, once, marks)?;
            let c = count_in(alloc, no, once, marks)?;
            Ok(sum(a, sum(b, c)))
        }
        Exp::Seq(parts) => count_parts(alloc, parts, once, marks),
        Exp::Let(_, _, _) => count_let(alloc, e, once, marks),
        Exp::Fix(_, _) => count_fix(alloc, e, once, marks),
        Exp::Rec(_, _, _) => count_rec(alloc, e, once, marks),
        Exp::Call(_, operator, operands) => {
            let first = count_value(alloc, operator, once, marks)?;
            let others = count_operands(alloc, operands, once, marks)?;
            Ok(sum(first, others))
        }
        Exp::Prim(_, _, operands) => count_operands(alloc, operands, once, marks),
    }
}

/// What a `let` counts.
#[cycle(counting)]
fn count_let(
    alloc: Global,
    e: &Exp,
    once: &mut Vec<bool>,
    marks: &mut Vec<bool>,
) -> Result<Counted, Mem>
    requires kind { IsLet (expression e.now) }
    ensures count { IfOk result (λ n. Takes (marks_in (expression e.now)) marks.old.items marks.new.items
        (Counts n (variables (expression e.now) (reverse once.old.items)) (few_variables (expression e.now)))) }
    ensures once { OnOk result (once.new.items ≡ once.old.items) }
{
    let Exp::Let(_, inits, body) = e else {
        unreachable!();
    };
    let first = count_each(alloc, inits, once, marks)?;
    let depth = once.len();
    let bound = bind_assigned(count(inits), marks, once)?;
    let inside = count_in(alloc, body, once, marks)?;
    once.truncate(depth);
    Ok(sum(first, with(bound, inside)))
}

/// What a group of procedures and its body count.
#[cycle(counting)]
fn count_fix(
    alloc: Global,
    e: &Exp,
    once: &mut Vec<bool>,
    marks: &mut Vec<bool>,
) -> Result<Counted, Mem>
    requires kind { IsFix (expression e.now) }
    ensures count { IfOk result (λ n. Takes (marks_in (expression e.now)) marks.old.items marks.new.items
        (Counts n (variables (expression e.now) (reverse once.old.items)) (few_variables (expression e.now)))) }
    ensures once { OnOk result (once.new.items ≡ once.old.items) }
{
    let Exp::Fix(lambdas, body) = e else {
        unreachable!();
    };
    let few = count_each_lambda(alloc, lambdas, marks)?;
    let bound = count_lambdas(lambdas);
    let depth = once.len();
    bind_all(bound, true, once)?;
    let inside = count_in(alloc, body, once, marks)?;
    once.truncate(depth);
    Ok(sum(Counted { variables: 0, few }, with(bound, inside)))
}

/// What a `letrec` counts.
#[cycle(counting)]
fn count_rec(
    alloc: Global,
    e: &Exp,
    once: &mut Vec<bool>,
    marks: &mut Vec<bool>,
) -> Result<Counted, Mem>
    requires kind { IsRec (expression e.now) }
    ensures count { IfOk result (λ n. Takes (marks_in (expression e.now)) marks.old.items marks.new.items
        (Counts n (variables (expression e.now) (reverse once.old.items)) (few_variables (expression e.now)))) }
    ensures once { OnOk result (once.new.items ≡ once.old.items) }
{
    let Exp::Rec(_, inits, body) = e else {
        unreachable!();
    };
    let bound = count(inits);
    let depth = once.len();
    bind_all(bound, false, once)?;
    let first = count_each(alloc, inits, once, marks)?;
    let inside = count_in(alloc, body, once, marks)?;
    once.truncate(depth);
    Ok(with(three_each(bound), sum(first, inside)))
}

/// What an expression counts whose value is kept.
#[cycle(counting)]
fn count_value(
    alloc: Global,
    e: &Exp,
    once: &mut Vec<bool>,
    marks: &mut Vec<bool>,
) -> Result<Counted, Mem>
    ensures count { IfOk result (λ n. Takes (marks_in (expression e.now)) marks.old.items marks.new.items
        (Counts n (one_unless (counts_nothing (expression e.now) (reverse once.old.items)) + variables (expression e.now) (reverse once.old.items)) (few_variables (expression e.now)))) }
    ensures once { OnOk result (once.new.items ≡ once.old.items) }
{
    let here = value_count(e, once.as_slice());
    let inside = count_in(alloc, e, once, marks)?;
    Ok(with(here, inside))
}

/// What inits count.
#[cycle(counting)]
fn count_each(
    alloc: Global,
    es: &List<Exp>,
    once: &mut Vec<bool>,
    marks: &mut Vec<bool>,
) -> Result<Counted, Mem>
    ensures count { IfOk result (λ n. Takes (marks_in_each (expressions_of es.now)) marks.old.items marks.new.items
        (Counts n (variables_each (expressions_of es.now) (reverse once.old.items)) (each_procedure_in has_few_variables (expressions_of es.now)))) }
    ensures once { OnOk result (once.new.items ≡ once.old.items) }
{
    let mut total = NOTHING;
    for e in es.as_slice() {
        let here = count_in(alloc, e, once, marks)?;
        total = sum(total, here);
    }
    Ok(total)
}

/// What operands count.
#[cycle(counting)]
fn count_operands(
    alloc: Global,
    es: &List<Exp>,
    once: &mut Vec<bool>,
    marks: &mut Vec<bool>,
) -> Result<Counted, Mem>
    ensures count { IfOk result (λ n. Takes (marks_in_each (expressions_of es.now)) marks.old.items marks.new.items
        (Counts n (variables_operands (expressions_of es.now) (reverse once.old.items)) (each_procedure_in has_few_variables (expressions_of es.now)))) }
    ensures once { OnOk result (once.new.items ≡ once.old.items) }
{
    let mut total = NOTHING;
    for e in es.as_slice() {
        let here = count_value(alloc, e, once, marks)?;
        total = sum(total, here);
    }
    Ok(total)
}

/// What the parts of a sequence count. The value of the last is not kept.
#[cycle(counting)]
fn count_parts(
    alloc: Global,
    es: &List<Exp>,
    once: &mut Vec<bool>,
    marks: &mut Vec<bool>,
) -> Result<Counted, Mem>
    ensures count { IfOk result (λ n. Takes (marks_in_each (expressions_of es.now)) marks.old.items marks.new.items
        (Counts n (variables_parts (expressions_of es.now) (reverse once.old.items)) (each_procedure_in has_few_variables (expressions_of es.now)))) }
    ensures once { OnOk result (once.new.items ≡ once.old.items) }
{
    let items = es.as_slice();
    let n = items.len();
    let mut total = NOTHING;
    for i in 0..n {
        let e = &items[i];
        let here = count_part(alloc, i + 1 == n, e, once, marks)?;
        total = sum(total, here);
    }
    Ok(total)
}

/// What a part of a sequence counts.
#[cycle(counting)]
fn count_part(
    alloc: Global,
    is_last: bool,
    e: &Exp,
    once: &mut Vec<bool>,
    marks: &mut Vec<bool>,
) -> Result<Counted, Mem>
    ensures count { IfOk result (λ n. Takes (marks_in (expression e.now)) marks.old.items marks.new.items
        (Counts n (cond is_last 0 (one_unless (counts_nothing (expression e.now) (reverse once.old.items)))
        + variables (expression e.now) (reverse once.old.items)) (few_variables (expression e.now)))) }
    ensures once { OnOk result (once.new.items ≡ once.old.items) }
{
    if is_last {
        let inside = count_in(alloc, e, once, marks)?;
        return Ok(inside);
    }
    let inside = count_value(alloc, e, once, marks)?;
    Ok(inside)
}

/// Whether each of some procedures, and each in them, has at most 1,000 variables.
#[cycle(counting)]
fn count_each_lambda(alloc: Global, ls: &List<Lambda>, marks: &mut Vec<bool>) -> Result<bool, Mem>
    ensures { IfOk result (λ few. Takes (marks_in_lambdas (lambdas_of ls.now)) marks.old.items marks.new.items (few ≡ each_lambda has_few_variables (lambdas_of ls.now))) }
{
    let mut few = true;
    for l in ls.as_slice() {
        let here = count_body(alloc, l.formals, &l.body, marks)?;
        few = both(few, here);
    }
    Ok(few)
}

/// Whether a body with these formals, and each procedure in it, has at most 1,000 variables.
#[cycle(counting)]
fn count_body(alloc: Global, formals: u32, e: &Exp, marks: &mut Vec<bool>) -> Result<bool, Mem>
    ensures { IfOk result (λ few. Takes (λ rest. marks_of formals (assigns (expression e.now)) (marks_in (expression e.now) rest)) marks.old.items marks.new.items
        (few ≡ (nat_le (body_variables formals (expression e.now)) max_variables && few_variables (expression e.now)))) }
{
    let mut once = Vec::new(alloc);
    let bound = bind_assigned(formals as usize, marks, &mut once)?;
    let inside = count_in(alloc, e, &mut once, marks)?;
    let all = with(bound, inside);
    Ok(both(all.variables <= MAX_VARIABLES, all.few))
}

/// Whether a body with these formals, and the body of each procedure in it, has at most 1,000 variables.
pub(crate) fn fits(alloc: Global, formals: u32, e: &Exp) -> Result<bool, Mem>
    ensures { IfOk result (λ few. few ≡ (nat_le (body_variables formals (expression e.now)) max_variables && few_variables (expression e.now))) }
{
    let mut marks = all_marks(alloc, formals, e)?;
    count_body(alloc, formals, e, &mut marks)
}
