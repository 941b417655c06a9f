//! Each variable gets a number of its own, in the order of the text.

ghost use Rattle.std.specs.Prelude.{◌≡◌, ◌+◌, ◌<◌, ◌^◌, length, reverse, take, IfOk, OnOk};
ghost use Rattle.sch_word.specs.trees.Bindings.{scope_with};
ghost use Rattle.sch_lang.specs.Tree as source;
ghost use Rattle.sch_lang.specs.View.{expression, expressions_of, function, lambdas_of};
ghost use Rattle.sch_cells.specs.View as view;
ghost use Rattle.sch_lang.specs.InScope.{InScope, EachInScope, LambdasInScope};
ghost use Rattle.sch_lang.specs.Kinds.{IsIf, IsLet, IsFix, IsRec, IsCall};
ghost use Rattle.sch_rename.specs.Made.{number_at, binds, binds_each, binds_lambdas, Renames, RenamesEach, RenamesLambda, RenamesLambdas};

use sch_cells as cells;
use sch_lang::{Exp, Lambda};
use sch_word::{List, Mem};
use std::alloc::Global;

// The number of the variable with k bound nearer. The nearest is the last of the scope.
#[tactic(auto, using(crate::proofs::Loops::from_the_end))]
fn number_of(scope: &[u32], k: u32) -> u32
    requires { k < length scope.now }
    ensures { result ≡ number_at (reverse scope.now) k }
{
    scope[scope.len() - 1 - k as usize]
}

// How many expressions there are.
#[tactic(auto, using(sch_lang::proofs::ListViews::count_is))]
fn count(es: &List<Exp>) -> u32
    requires { source.count (expressions_of es.now) < 2 ^ 32 }
    ensures { result ≡ source.count (expressions_of es.now) }
{
    es.len() as u32
}

// How many lambdas there are.
#[tactic(auto, using(sch_lang::proofs::ListViews::count_lambdas_is))]
fn count_lambdas(ls: &List<Lambda>) -> u32
    requires { source.count_lambdas (lambdas_of ls.now) < 2 ^ 32 }
    ensures { result ≡ source.count_lambdas (lambdas_of ls.now) }
{
    ls.len() as u32
}

// Puts `count` new variables into the scope, the nearest last.
fn bind_variables(first: u32, count: u32, scope: &mut Vec<u32>) -> Result<(), Mem>
    requires { first + count < 2 ^ 32 }
    ensures names { OnOk result (reverse scope.new.items ≡ scope_with first count (reverse scope.old.items)) }
    ensures kept { OnOk result (take (length scope.old.items) scope.new.items ≡ scope.old.items) }
    ensures len { OnOk result (length scope.new.items ≡ length scope.old.items + count) }
{
    for x in first..first + count {
        scope.push(x)?;
    }
    Ok(())
}

/// The expression in a scope of numbers, where new variables have the numbers from `next` on.
#[cycle(renaming)]
fn rename_expression(
    alloc: Global,
    e: &Exp,
    scope: &mut Vec<u32>,
    next: &mut u32,
) -> Result<cells::Exp, Mem>
    requires inside { InScope (expression e.now) (length scope.old.items) }
    requires few { next.old + binds (expression e.now) < 2 ^ 32 }
    ensures { IfOk result (λ q. Renames (expression e.now) scope.old.items scope.new.items next.old next.new (view.tree q)) }
{
    match e {
        Exp::Constant(c) => Ok(cells::Exp::Constant(*c)),
        Exp::Literal(n) => Ok(cells::Exp::Literal(*n)),
        Exp::Local(k) => Ok(cells::Exp::Var(number_of(scope.as_slice(), *k))),
        Exp::Global(g) => Ok(cells::Exp::Global(*g)),
        Exp::SetLocal(k, value) => {
            let x = number_of(scope.as_slice(), *k);
            let value = rename_boxed(alloc, value, scope, next)?;
            Ok(cells::Exp::SetVar(x, value))
        }
        Exp::SetGlobal(g, value) => {
            let value = rename_boxed(alloc, value, scope, next)?;
            Ok(cells::Exp::SetGlobal(*g, value))
        }
        Exp::Define(g, value) => {
            let value = rename_boxed(alloc, value, scope, next)?;
            Ok(cells::Exp::Define(*g, value))
        }
        Exp::If(_, _, _) => rename_if(alloc, e, scope, next),
        Exp::Seq(parts) => {
            let parts = rename_each(alloc, parts, scope, next)?;
            Ok(cells::Exp::Seq(parts))
        }
        Exp::Let(_, _, _) => rename_let(alloc, e, scope, next),
        Exp::Fix(_, _) => rename_fix(alloc, e, scope, next),
        Exp::Rec(_, _, _) => rename_rec(alloc, e, scope, next),
        Exp::Lambda(l) => {
            let l = Box::new(alloc, rename_lambda(alloc, l, scope, next)?)?;
            Ok(cells::Exp::Lambda(l))
        }
        Exp::Call(_, _, _) => rename_call(alloc, e, scope, next),
        Exp::Prim(site, which, operands) => {
            let operands = rename_each(alloc, operands, scope, next)?;
            Ok(cells::Exp::Prim(*site, *which, operands))
        }
    }
}

// The same for an If. As functions of their own, this and the next four keep the frames of the walk small.
#[cycle(renaming)]
#[inline(never)]
fn rename_if(
    alloc: Global,
    e: &Exp,
    scope: &mut Vec<u32>,
    next: &mut u32,
) -> Result<cells::Exp, Mem>
    requires kind { IsIf (expression e.now) }
    requires inside { InScope (expression e.now) (length scope.old.items) }
    requires few { next.old + binds (expression e.now) < 2 ^ 32 }
    ensures { IfOk result (λ q. Renames (expression e.now) scope.old.items scope.new.items next.old next.new (view.tree q)) }
{
    let Exp::If(test, yes, no) = e else {
        unreachable!();
    };
    let test = rename_boxed(alloc, test, scope, next)?;
    let yes = rename_boxed(alloc, yes, scope, next)?;
    let no = rename_boxed(alloc, no, scope, next)?;
    Ok(cells::Exp::If(test, yes, no))
}

// The same for a Let, whose inits stand outside.
#[cycle(renaming)]
#[inline(never)]
fn rename_let(
    alloc: Global,
    e: &Exp,
    scope: &mut Vec<u32>,
    next: &mut u32,
) -> Result<cells::Exp, Mem>
    requires kind { IsLet (expression e.now) }
    requires inside { InScope (expression e.now) (length scope.old.items) }
    requires few { next.old + binds (expression e.now) < 2 ^ 32 }
    ensures { IfOk result (λ q. Renames (expression e.now) scope.old.items scope.new.items next.old next.new (view.tree q)) }
{
    let Exp::Let(site, inits, body) = e else {
        unreachable!();
    };
    let first = *next;
    let count = count(inits);
    *next += count;
    let inits = rename_each(alloc, inits, scope, next)?;
    let depth = scope.len();
    bind_variables(first, count, scope)?;
    let body = rename_boxed(alloc, body, scope, next)?;
    scope.truncate(depth);
    Ok(cells::Exp::Let {
        site: *site,
        first,
        inits,
        body,
    })
}

// The same for procedures that know one another.
#[cycle(renaming)]
#[inline(never)]
fn rename_fix(
    alloc: Global,
    e: &Exp,
    scope: &mut Vec<u32>,
    next: &mut u32,
) -> Result<cells::Exp, Mem>
    requires kind { IsFix (expression e.now) }
    requires inside { InScope (expression e.now) (length scope.old.items) }
    requires few { next.old + binds (expression e.now) < 2 ^ 32 }
    ensures { IfOk result (λ q. Renames (expression e.now) scope.old.items scope.new.items next.old next.new (view.tree q)) }
{
    let Exp::Fix(lambdas, body) = e else {
        unreachable!();
    };
    let first = *next;
    let count = count_lambdas(lambdas);
    *next += count;
    let depth = scope.len();
    bind_variables(first, count, scope)?;
    let lambdas = rename_lambdas(alloc, lambdas, scope, next)?;
    let body = rename_boxed(alloc, body, scope, next)?;
    scope.truncate(depth);
    Ok(cells::Exp::Fix {
        first,
        lambdas,
        body,
    })
}

// The same for a Rec, whose inits stand inside.
#[cycle(renaming)]
#[inline(never)]
fn rename_rec(
    alloc: Global,
    e: &Exp,
    scope: &mut Vec<u32>,
    next: &mut u32,
) -> Result<cells::Exp, Mem>
    requires kind { IsRec (expression e.now) }
    requires inside { InScope (expression e.now) (length scope.old.items) }
    requires few { next.old + binds (expression e.now) < 2 ^ 32 }
    ensures { IfOk result (λ q. Renames (expression e.now) scope.old.items scope.new.items next.old next.new (view.tree q)) }
{
    let Exp::Rec(site, inits, body) = e else {
        unreachable!();
    };
    let first = *next;
    let count = count(inits);
    *next += count;
    let depth = scope.len();
    bind_variables(first, count, scope)?;
    let inits = rename_each(alloc, inits, scope, next)?;
    let body = rename_boxed(alloc, body, scope, next)?;
    scope.truncate(depth);
    Ok(cells::Exp::Rec {
        site: *site,
        first,
        inits,
        body,
    })
}

// The same for a call.
#[cycle(renaming)]
#[inline(never)]
fn rename_call(
    alloc: Global,
    e: &Exp,
    scope: &mut Vec<u32>,
    next: &mut u32,
) -> Result<cells::Exp, Mem>
    requires kind { IsCall (expression e.now) }
    requires inside { InScope (expression e.now) (length scope.old.items) }
    requires few { next.old + binds (expression e.now) < 2 ^ 32 }
    ensures { IfOk result (λ q. Renames (expression e.now) scope.old.items scope.new.items next.old next.new (view.tree q)) }
{
    let Exp::Call(site, operator, operands) = e else {
        unreachable!();
    };
    let operator = rename_boxed(alloc, operator, scope, next)?;
    let operands = rename_each(alloc, operands, scope, next)?;
    Ok(cells::Exp::Call {
        site: *site,
        spread: false,
        operator,
        operands,
    })
}

// The same on the heap. As a function of its own it keeps the frames of the walk small.
#[cycle(renaming)]
#[inline(never)]
fn rename_boxed(
    alloc: Global,
    e: &Box<Exp>,
    scope: &mut Vec<u32>,
    next: &mut u32,
) -> Result<Box<cells::Exp>, Mem>
    requires inside { InScope (expression e.now.value) (length scope.old.items) }
    requires few { next.old + binds (expression e.now.value) < 2 ^ 32 }
    ensures { IfOk result (λ q. Renames (expression e.now.value) scope.old.items scope.new.items next.old next.new (view.tree q.value)) }
{
    let e = rename_expression(alloc, e, scope, next)?;
    Ok(Box::new(alloc, e)?)
}

/// Each of some expressions, one after another.
#[cycle(renaming)]
#[inline(never)]
pub(crate) fn rename_each(
    alloc: Global,
    es: &List<Exp>,
    scope: &mut Vec<u32>,
    next: &mut u32,
) -> Result<List<cells::Exp>, Mem>
    requires inside { EachInScope (expressions_of es.now) (length scope.old.items) }
    requires few { next.old + binds_each (expressions_of es.now) < 2 ^ 32 }
    ensures { IfOk result (λ qs. RenamesEach (expressions_of es.now)
        scope.old.items scope.new.items next.old next.new (view.trees_of qs)) }
{
    let mut all = List::from_vec(Vec::with_capacity(alloc, es.len())?);
    for e in es.as_slice() {
        all.push(rename_expression(alloc, e, scope, next)?)?;
    }
    Ok(all)
}

/// The procedure; its formals have the first of the new numbers.
#[cycle(renaming)]
#[inline(never)]
fn rename_lambda(
    alloc: Global,
    l: &Lambda,
    scope: &mut Vec<u32>,
    next: &mut u32,
) -> Result<cells::Lambda, Mem>
    requires inside { InScope (expression l.now.body) (length scope.old.items + l.now.formals) }
    requires few { next.old + (l.now.formals + binds (expression l.now.body)) < 2 ^ 32 }
    ensures { IfOk result (λ q. RenamesLambda (function l.now) scope.old.items scope.new.items next.old next.new (view.function q)) }
{
    let first = *next;
    *next += l.formals;
    let depth = scope.len();
    bind_variables(first, l.formals, scope)?;
    let body = rename_expression(alloc, &l.body, scope, next)?;
    scope.truncate(depth);
    let name = List::from_slice(alloc, l.name.as_slice())?;
    Ok(cells::Lambda {
        name,
        first,
        formals: l.formals,
        rest: l.rest,
        body,
    })
}

/// Each of some lambdas, one after another.
#[cycle(renaming)]
#[inline(never)]
pub(crate) fn rename_lambdas(
    alloc: Global,
    ls: &List<Lambda>,
    scope: &mut Vec<u32>,
    next: &mut u32,
) -> Result<List<cells::Lambda>, Mem>
    requires inside { LambdasInScope (lambdas_of ls.now) (length scope.old.items) }
    requires few { next.old + binds_lambdas (lambdas_of ls.now) < 2 ^ 32 }
    ensures { IfOk result (λ qs. RenamesLambdas (lambdas_of ls.now)
        scope.old.items scope.new.items next.old next.new (view.lambdas_of qs)) }
{
    let mut all = List::from_vec(Vec::with_capacity(alloc, ls.len())?);
    for l in ls.as_slice() {
        all.push(rename_lambda(alloc, l, scope, next)?)?;
    }
    Ok(all)
}
