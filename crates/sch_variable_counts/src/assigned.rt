//! Which variables an expression assigns.
//!
//! The marks of the variables that bindings and lambdas bind come on a stack. The text is walked from its end, so
//! that those of its first binding are on top.

ghost use Rattle.std.specs.Prelude.{◌≡◌, ◌+◌, [], map, reverse, List as Listed, Bool, ℕ, IfOk, OnOk};
ghost use Rattle.std.specs.Prelude.{◌++◌};
ghost use Rattle.sch_word.specs.trees.Bindings.{numbers};
ghost use Rattle.sch_lang.specs.Variables.{assigns, assigns_each, assigns_lambdas};
ghost use Rattle.sch_lang.specs.View.{expression, expressions_of, lambdas_of};
ghost use Rattle.sch_lang.specs.Kinds.{IsFix, IsRec};
ghost use Rattle.sch_variable_counts.specs.Walked.{marks_of, marks_in, marks_in_each, marks_in_lambdas};
ghost use Rattle.sch_word.specs.trees.Assigned.{marked};

use crate::lengths::{count, count_lambdas};
use crate::scopes::{bind_all, leave, mark_variable};
use sch_lang::{Exp, Lambda};
use sch_word::{List, Mem};
use std::alloc::Global;

/// Takes the nearest variables out of the scope and puts their marks on the stack, the nearest first.
fn close(count: usize, scope: &mut Vec<bool>, stack: &mut Vec<bool>) -> Result<(), Mem>
    ensures { OnOk result ((f : ℕ → Bool) (rest : Listed Bool) → reverse scope.old.items ≡ map f (numbers 0 count) ++ rest →
        (reverse scope.new.items ≡ rest) × (reverse stack.new.items ≡ marks_of count f (reverse stack.old.items))) }
{
    let mut left = count;
    while left > 0 {
        left -= 1;
        let Some(mark) = scope.pop() else {
            return Ok(());
        };
        stack.push(mark)?;
    }
    Ok(())
}

/// Marks each of the variables in scope that an expression assigns.
#[cycle(marking)]
fn mark(e: &Exp, scope: &mut Vec<bool>, stack: &mut Vec<bool>) -> Result<(), Mem>
    ensures scope { OnOk result (reverse scope.new.items ≡ marked (assigns (expression e.now)) 0 (reverse scope.old.items)) }
    ensures stack { OnOk result (reverse stack.new.items ≡ marks_in (expression e.now) (reverse stack.old.items)) }
{
    match e {
        Exp::Constant(_) => Ok(()),
        Exp::Literal(_) => Ok(()),
        Exp::Local(_) => Ok(()),
        Exp::Global(_) => Ok(()),
        Exp::SetLocal(k, value) => {
            mark_variable(*k, scope);
            mark(value, scope, stack)?;
            Ok(())
        }
        Exp::SetGlobal(_, value) => mark(value, scope, stack),
        Exp::Define(_, value) => mark(value, scope, stack),
        Exp::If(test, yes, no) => {
            mark(no, scope, stack)?;
            mark(yes, scope, stack)?;
            mark(test, scope, stack)?;
            Ok(())
        }
        Exp::Seq(parts) => mark_each(parts, scope, stack),
        Exp::Let(_, inits, body) => {
            mark_under(count(inits), body, scope, stack)?;
            mark_each(inits, scope, stack)?;
            Ok(())
        }
        Exp::Fix(_, _) => mark_fix(e, scope, stack),
        Exp::Rec(_, _, _) => mark_rec(e, scope, stack),
        Exp::Lambda(l) => mark_under(l.formals as usize, &l.body, scope, stack),
        Exp::Call(_, operator, operands) => {
            mark_each(operands, scope, stack)?;
            mark(operator, scope, stack)?;
            Ok(())
        }
        Exp::Prim(_, _, operands) => mark_each(operands, scope, stack),
    }
}

/// The same for a group of procedures.
#[cycle(marking)]
fn mark_fix(e: &Exp, scope: &mut Vec<bool>, stack: &mut Vec<bool>) -> Result<(), Mem>
    requires kind { IsFix (expression e.now) }
    ensures scope { OnOk result (reverse scope.new.items ≡ marked (assigns (expression e.now)) 0 (reverse scope.old.items)) }
    ensures stack { OnOk result (reverse stack.new.items ≡ marks_in (expression e.now) (reverse stack.old.items)) }
{
    let Exp::Fix(lambdas, body) = e else {
        unreachable!();
    };
    let bound = count_lambdas(lambdas);
    bind_all(bound, false, scope)?;
    mark(body, scope, stack)?;
    mark_lambdas(lambdas, scope, stack)?;
    leave(bound, scope);
    Ok(())
}

/// The same for a `letrec`.
#[cycle(marking)]
fn mark_rec(e: &Exp, scope: &mut Vec<bool>, stack: &mut Vec<bool>) -> Result<(), Mem>
    requires kind { IsRec (expression e.now) }
    ensures scope { OnOk result (reverse scope.new.items ≡ marked (assigns (expression e.now)) 0 (reverse scope.old.items)) }
    ensures stack { OnOk result (reverse stack.new.items ≡ marks_in (expression e.now) (reverse stack.old.items)) }
{
    let Exp::Rec(_, inits, body) = e else {
        unreachable!();
    };
    let bound = count(inits);
    bind_all(bound, false, scope)?;
    mark(body, scope, stack)?;
    mark_each(inits, scope, stack)?;
    leave(bound, scope);
    Ok(())
}

/// Marks what a body assigns in which `count` variables more are bound. Their marks come on the stack.
#[cycle(marking)]
fn mark_under(
    count: usize,
    e: &Exp,
    scope: &mut Vec<bool>,
    stack: &mut Vec<bool>,
) -> Result<(), Mem>
    ensures scope { OnOk result (reverse scope.new.items ≡ marked (λ j. assigns (expression e.now) (j + count)) 0 (reverse scope.old.items)) }
    ensures stack { OnOk result (reverse stack.new.items ≡ marks_of count (assigns (expression e.now)) (marks_in (expression e.now) (reverse stack.old.items))) }
{
    bind_all(count, false, scope)?;
    mark(e, scope, stack)?;
    close(count, scope, stack)?;
    Ok(())
}

/// The same for each of some expressions, from the last to the first.
#[cycle(marking)]
fn mark_each(es: &List<Exp>, scope: &mut Vec<bool>, stack: &mut Vec<bool>) -> Result<(), Mem>
    ensures scope { OnOk result (reverse scope.new.items ≡ marked (assigns_each (expressions_of es.now)) 0 (reverse scope.old.items)) }
    ensures stack { OnOk result (reverse stack.new.items ≡ marks_in_each (expressions_of es.now) (reverse stack.old.items)) }
{
    let items = es.as_slice();
    let mut left = items.len();
    while left > 0 {
        left -= 1;
        mark(&items[left], scope, stack)?;
    }
    Ok(())
}

/// The same for each of some lambdas, from the last to the first.
#[cycle(marking)]
fn mark_lambdas(ls: &List<Lambda>, scope: &mut Vec<bool>, stack: &mut Vec<bool>) -> Result<(), Mem>
    ensures scope { OnOk result (reverse scope.new.items ≡ marked (assigns_lambdas (lambdas_of ls.now)) 0 (reverse scope.old.items)) }
    ensures stack { OnOk result (reverse stack.new.items ≡ marks_in_lambdas (lambdas_of ls.now) (reverse stack.old.items)) }
{
    let items = ls.as_slice();
    let mut left = items.len();
    while left > 0 {
        left -= 1;
        let l = &items[left];
        mark_under(l.formals as usize, &l.body, scope, stack)?;
    }
    Ok(())
}

/// The marks of the variables of a procedure with these formals, and of all that are bound in it.
pub(crate) fn all_marks(alloc: Global, formals: u32, e: &Exp) -> Result<Vec<bool>, Mem>
    ensures { IfOk result (λ marks. reverse marks.items ≡ marks_of formals (assigns (expression e.now)) (marks_in (expression e.now) [])) }
{
    let mut scope = Vec::new(alloc);
    let mut marks = Vec::new(alloc);
    mark_under(formals as usize, e, &mut scope, &mut marks)?;
    Ok(marks)
}
