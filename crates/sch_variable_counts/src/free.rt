//! The free variables of procedures.
//!
//! A list of variables is kept from its last to its first, so that a variable is put before the others by a push,
//! and the text is walked from its end. A list holds each variable once.

ghost use Rattle.std.specs.Prelude.{◌≡◌, ◌&&◌, [], nat_le, length, reverse, IfOk, OnOk};
ghost use Rattle.sch_word.specs.trees.Shape.{max_free_variables};
ghost use Rattle.sch_word.specs.trees.NumberSets.{union};
ghost use Rattle.sch_lang.specs.Variables.{free, outside};
ghost use Rattle.sch_lang.specs.View.{expression, expressions_of, lambdas_of};
ghost use Rattle.sch_lang.specs.Kinds.{IsLet, IsFix, IsRec};
ghost use Rattle.sch_variable_counts.specs.Walked.{found, found_each, found_lambdas};
ghost use Rattle.sch_variable_counts.specs.Within.{has_few_free, each_procedure_in, each_lambda, few_free};

use crate::lengths::{both, count, count_lambdas};
use sch_lang::{Exp, Lambda};
use sch_word::{List, Mem, insert_number, insert_numbers};
use std::alloc::Global;

const MAX_FREE: usize = 1000;

/// The same, where each of those put before others stands once: before none they are as they are.
fn insert_list(more: Vec<u32>, xs: &mut Vec<u32>) -> Result<(), Mem>
    requires { union (reverse more.items) [] ≡ reverse more.items }
    ensures { OnOk result (reverse xs.new.items ≡ union (reverse more.items) (reverse xs.old.items)) }
{
    if xs.len() == 0 {
        *xs = more;
        return Ok(());
    }
    insert_numbers(more.as_slice(), xs)
}

/// Variables as they are seen from outside a binding of n of them.
fn outside_group(alloc: Global, count: usize, xs: &[u32]) -> Result<Vec<u32>, Mem>
    ensures { IfOk result (λ left. reverse left.items ≡ outside count (reverse xs.now)) }
{
    let mut left = Vec::new(alloc);
    for x in xs {
        if *x as usize >= count {
            left.push(*x - count as u32)?;
        }
    }
    Ok(left)
}

/// Puts the free variables of a procedure before others, and answers whether it, and each procedure in it, has
/// at most 1,000 of them.
#[cycle(finding)]
pub(crate) fn find_procedure(
    alloc: Global,
    formals: u32,
    e: &Exp,
    xs: &mut Vec<u32>,
) -> Result<bool, Mem>
    ensures found { OnOk result (reverse xs.new.items ≡ union (outside formals (found (expression e.now) [])) (reverse xs.old.items)) }
    ensures few { IfOk result (λ few. few ≡ (nat_le (length (outside formals (free (expression e.now)))) max_free_variables && few_free (expression e.now))) }
{
    let mut inside = Vec::new(alloc);
    let few = find(alloc, e, &mut inside)?;
    let own = outside_group(alloc, formals as usize, inside.as_slice())?;
    let outer = own.as_slice();
    insert_numbers(outer, xs)?;
    let here = outer.len() <= MAX_FREE;
    Ok(both(here, few))
}

/// Puts the free variables of an expression before others, and answers whether each procedure in it has at most
/// 1,000 of them.
#[cycle(finding)]
fn find(alloc: Global, e: &Exp, xs: &mut Vec<u32>) -> Result<bool, Mem>
    ensures found { OnOk result (reverse xs.new.items ≡ found (expression e.now) (reverse xs.old.items)) }
    ensures few { IfOk result (λ few. few ≡ few_free (expression e.now)) }
{
    match e {
        Exp::Constant(_) | Exp::Literal(_) | Exp::Global(_) => Ok(true),
        Exp::Local(k) => {
            insert_number(*k, xs)?;
            Ok(true)
        }
        Exp::SetLocal(k, value) => {
            let few = find(alloc, value, xs)?;
            insert_number(*k, xs)?;
            Ok(few)
        }
        Exp::SetGlobal(_, value) | Exp::Define(_, value) => find(alloc, value, xs),
        Exp::If(test, yes, no) => {
            let c = find(alloc, no, xs)?;
            let b = find(alloc, yes, xs)?;
            let a = find(alloc, test, xs)?;
            Ok(both(a, both(b, c)))
        }
        Exp::Seq(parts) => find_each(alloc, parts, xs),
        Exp::Let(_, _, _) => find_let(alloc, e, xs),
        Exp::Fix(_, _) => find_fix(alloc, e, xs),
        Exp::Rec(_, _, _) => find_rec(alloc, e, xs),
        Exp::Lambda(l) => find_procedure(alloc, l.formals, &l.body, xs),
        Exp::Call(_, operator, operands) => {
            let others = find_each(alloc, operands, xs)?;
            let first = find(alloc, operator, xs)?;
            Ok(both(first, others))
        }
        Exp::Prim(_, _, operands) => find_each(alloc, operands, xs),
    }
}

/// The same for a `let`.
#[cycle(finding)]
fn find_let(alloc: Global, e: &Exp, xs: &mut Vec<u32>) -> Result<bool, Mem>
    requires kind { IsLet (expression e.now) }
    ensures found { OnOk result (reverse xs.new.items ≡ found (expression e.now) (reverse xs.old.items)) }
    ensures few { IfOk result (λ few. few ≡ few_free (expression e.now)) }
{
    let Exp::Let(_, inits, body) = e else {
        unreachable!();
    };
    let mut inside = Vec::new(alloc);
    let few = find(alloc, body, &mut inside)?;
    let outer = outside_group(alloc, count(inits), inside.as_slice())?;
    insert_list(outer, xs)?;
    let first = find_each(alloc, inits, xs)?;
    Ok(both(first, few))
}

/// The same for a group of procedures.
#[cycle(finding)]
fn find_fix(alloc: Global, e: &Exp, xs: &mut Vec<u32>) -> Result<bool, Mem>
    requires kind { IsFix (expression e.now) }
    ensures found { OnOk result (reverse xs.new.items ≡ found (expression e.now) (reverse xs.old.items)) }
    ensures few { IfOk result (λ few. few ≡ few_free (expression e.now)) }
{
    let Exp::Fix(lambdas, body) = e else {
        unreachable!();
    };
    let mut inside = Vec::new(alloc);
    let few = find(alloc, body, &mut inside)?;
    let first = find_lambdas(alloc, lambdas, &mut inside)?;
    let outer = outside_group(alloc, count_lambdas(lambdas), inside.as_slice())?;
    insert_list(outer, xs)?;
    Ok(both(first, few))
}

/// The same for a `letrec`.
#[cycle(finding)]
fn find_rec(alloc: Global, e: &Exp, xs: &mut Vec<u32>) -> Result<bool, Mem>
    requires kind { IsRec (expression e.now) }
    ensures found { OnOk result (reverse xs.new.items ≡ found (expression e.now) (reverse xs.old.items)) }
    ensures few { IfOk result (λ few. few ≡ few_free (expression e.now)) }
{
    let Exp::Rec(_, inits, body) = e else {
        unreachable!();
    };
    let mut inside = Vec::new(alloc);
    let few = find(alloc, body, &mut inside)?;
    let first = find_each(alloc, inits, &mut inside)?;
    let outer = outside_group(alloc, count(inits), inside.as_slice())?;
    insert_list(outer, xs)?;
    Ok(both(first, few))
}

/// The same for each of some expressions, from the last to the first.
#[cycle(finding)]
fn find_each(alloc: Global, es: &List<Exp>, xs: &mut Vec<u32>) -> Result<bool, Mem>
    ensures found { OnOk result (reverse xs.new.items ≡ found_each (expressions_of es.now) (reverse xs.old.items)) }
    ensures few { IfOk result (λ few. few ≡ each_procedure_in has_few_free (expressions_of es.now)) }
{
    let items = es.as_slice();
    let mut few = true;
    let mut left = items.len();
    while left > 0 {
        left -= 1;
        let here = find(alloc, &items[left], xs)?;
        few = both(here, few);
    }
    Ok(few)
}

/// The same for each of some lambdas, from the last to the first.
#[cycle(finding)]
fn find_lambdas(alloc: Global, ls: &List<Lambda>, xs: &mut Vec<u32>) -> Result<bool, Mem>
    ensures found { OnOk result (reverse xs.new.items ≡ found_lambdas (lambdas_of ls.now) (reverse xs.old.items)) }
    ensures few { IfOk result (λ few. few ≡ each_lambda has_few_free (lambdas_of ls.now)) }
{
    let items = ls.as_slice();
    let mut few = true;
    let mut left = items.len();
    while left > 0 {
        left -= 1;
        let l = &items[left];
        let here = find_procedure(alloc, l.formals, &l.body, xs)?;
        few = both(here, few);
    }
    Ok(few)
}
