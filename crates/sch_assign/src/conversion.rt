//! Each variable that gets a cell has it in a variable of its own.

ghost use Rattle.std.specs.Prelude.{◌≡◌, ◌+◌, ◌<◌, ◌^◌, [], ◌++◌, None, IfOk, OnOk};
ghost use Rattle.sch_cells.specs.Tree as plain;
ghost use Rattle.sch_cells.specs.View.{tree, trees_of, lambdas_of};
ghost use Rattle.sch_assign.specs.Converted.{Low, and_cell, cells_for, empty_cells, wrapped, converted, converted_each, converted_lambdas};
ghost use Rattle.sch_assign.specs.InRange.{InRange, EachInRange, LambdasInRange};
ghost use Rattle.sch_cells.specs.Kinds.{IsIf, IsLet, IsFix, IsRec, IsCall};
ghost use Rattle.sch_assign.specs.PartsOfRec.{Fills, filled, under_cells};
ghost use Rattle.sch_assign.specs.Table.{table};

use crate::marking::variable_at;
use sch_cells::{Exp, Lambda, NewCell, count};
use sch_word::{List, Mem};
use std::alloc::Global;

// Whether a variable gets a cell.
fn gets_cell(celled: &[bool], x: u32) -> bool
    ensures { result ≡ table celled.now x }
{
    match celled.get(x as usize) {
        Some(gets) => *gets,
        None => false,
    }
}

// The cell of a variable that gets one.
fn add_cell(celled: &[bool], n: u32, x: u32, all: &mut List<NewCell>) -> Result<(), Mem>
    requires { x + n < 2 ^ 32 }
    ensures { OnOk result (all.new ≡ all.old ++ and_cell n (table celled.now x) x []) }
{
    if gets_cell(celled, x) {
        all.push(NewCell {
            variable: x + n,
            content: Some(x),
        })?;
    }
    Ok(())
}

// The cells of a group of variables.
#[inline(never)]
fn cells(
    alloc: Global,
    celled: &[bool],
    n: u32,
    first: u32,
    count: usize,
) -> Result<List<NewCell>, Mem>
    requires low { Low n first count }
    requires few { n + n < 2 ^ 32 }
    ensures { IfOk result (λ cs. cs ≡ cells_for (table celled.now) n first count) }
{
    let mut all = List::new(alloc);
    for place in 0..count {
        add_cell(celled, n, variable_at(first, place), &mut all)?;
    }
    Ok(all)
}

// A cell with nothing in it.
fn empty_cell(n: u32, x: u32) -> NewCell
    requires { x + n < 2 ^ 32 }
    ensures variable { result.variable ≡ x + n }
    ensures content { result.content ≡ None }
{
    NewCell {
        variable: x + n,
        content: None,
    }
}

// Cells with nothing in them for a group of variables.
#[inline(never)]
fn no_values(alloc: Global, n: u32, first: u32, count: usize) -> Result<List<NewCell>, Mem>
    requires low { Low n first count }
    requires few { n + n < 2 ^ 32 }
    ensures { IfOk result (λ cs. cs ≡ empty_cells n first count) }
{
    let mut all = List::new(alloc);
    for place in 0..count {
        all.push(empty_cell(n, variable_at(first, place)))?;
    }
    Ok(all)
}

// An expression under its cells, if there are any.
#[inline(never)]
fn wrap(alloc: Global, cs: List<NewCell>, e: Box<Exp>) -> Result<Box<Exp>, Mem>
    ensures { IfOk result (λ q. tree q.value ≡ wrapped cs (tree e.value)) }
{
    if cs.is_empty() {
        return Ok(e);
    }
    Ok(Box::new(alloc, Exp::NewCells(cs, e))?)
}

// The body of a procedure under its cells, if there are any.
#[inline(never)]
fn wrap_body(alloc: Global, cs: List<NewCell>, e: Exp) -> Result<Exp, Mem>
    ensures { IfOk result (λ q. tree q ≡ wrapped cs (tree e)) }
{
    if cs.is_empty() {
        return Ok(e);
    }
    Ok(Exp::NewCells(cs, Box::new(alloc, e)?))
}

// A variable's value goes into its cell.
#[inline(never)]
fn fill_one(alloc: Global, n: u32, x: u32) -> Result<Exp, Mem>
    requires { x + n < 2 ^ 32 }
    ensures { IfOk result (λ q. tree q ≡ plain.cell_set (x + n) (plain.variable x)) }
{
    let value = Box::new(alloc, Exp::Var(x))?;
    Ok(Exp::CellSet(x + n, value))
}

// The values of a group of variables go into their cells, before an expression that is still to come.
#[inline(never)]
fn fill(alloc: Global, n: u32, first: u32, count: usize) -> Result<List<Exp>, Mem>
    requires low { Low n first count }
    requires few { n + n < 2 ^ 32 }
    ensures { IfOk result (λ qs. Fills n first count qs) }
{
    let mut all = List::new(alloc);
    for place in 0..count {
        all.push(fill_one(alloc, n, variable_at(first, place))?)?;
    }
    Ok(all)
}

/// The expression with cells for the variables of the table.
#[cycle(converting)]
fn convert(alloc: Global, celled: &[bool], n: u32, e: &Exp) -> Result<Exp, Mem>
    requires within { InRange n (tree e.now) }
    requires few { n + n < 2 ^ 32 }
    ensures { IfOk result (λ q. tree q ≡ converted (table celled.now) n (tree e.now)) }
{
    match e {
        Exp::Constant(c) => Ok(Exp::Constant(*c)),
        Exp::Literal(k) => Ok(Exp::Literal(*k)),
        Exp::Var(x) => {
            if gets_cell(celled, *x) {
                Ok(Exp::CellGet(*x + n))
            } else {
                Ok(Exp::Var(*x))
            }
        }
        Exp::Global(g) => Ok(Exp::Global(*g)),
        Exp::SetVar(x, value) => {
            let value = convert_boxed(alloc, celled, n, value)?;
            Ok(Exp::CellSet(*x + n, value))
        }
        Exp::SetGlobal(g, value) => {
            let value = convert_boxed(alloc, celled, n, value)?;
            Ok(Exp::SetGlobal(*g, value))
        }
        Exp::Define(g, value) => {
            let value = convert_boxed(alloc, celled, n, value)?;
            Ok(Exp::Define(*g, value))
        }
        Exp::If(_, _, _) => convert_if(alloc, celled, n, e),
        Exp::Seq(parts) => {
            let parts = convert_each(alloc, celled, n, parts)?;
            Ok(Exp::Seq(parts))
        }
        Exp::Let { .. } => convert_let(alloc, celled, n, e),
        Exp::Fix { .. } => convert_fix(alloc, celled, n, e),
        Exp::Rec { .. } => convert_rec(alloc, celled, n, e),
        Exp::Lambda(l) => convert_procedure(alloc, celled, n, l),
        Exp::Call { .. } => convert_call(alloc, celled, n, e),
        Exp::Prim(site, which, operands) => {
            let operands = convert_each(alloc, celled, n, operands)?;
            Ok(Exp::Prim(*site, *which, operands))
        }
        Exp::NewCells(_, _) | Exp::CellGet(_) | Exp::CellSet(_, _) => unreachable!(),
    }
}

// The same for an If. As functions of their own, this and those that follow keep the frames of the walk small.
#[cycle(converting)]
#[inline(never)]
fn convert_if(alloc: Global, celled: &[bool], n: u32, e: &Exp) -> Result<Exp, Mem>
    requires kind { IsIf (tree e.now) }
    requires within { InRange n (tree e.now) }
    requires few { n + n < 2 ^ 32 }
    ensures { IfOk result (λ q. tree q ≡ converted (table celled.now) n (tree e.now)) }
{
    let Exp::If(test, yes, no) = e else {
        unreachable!();
    };
    let test = convert_boxed(alloc, celled, n, test)?;
    let yes = convert_boxed(alloc, celled, n, yes)?;
    let no = convert_boxed(alloc, celled, n, no)?;
    Ok(Exp::If(test, yes, no))
}

// The same for a call.
#[cycle(converting)]
#[inline(never)]
fn convert_call(alloc: Global, celled: &[bool], n: u32, e: &Exp) -> Result<Exp, Mem>
    requires kind { IsCall (tree e.now) }
    requires within { InRange n (tree e.now) }
    requires few { n + n < 2 ^ 32 }
    ensures { IfOk result (λ q. tree q ≡ converted (table celled.now) n (tree e.now)) }
{
    let Exp::Call {
        site,
        spread,
        operator,
        operands,
    } = e
    else {
        unreachable!();
    };
    let operator = convert_boxed(alloc, celled, n, operator)?;
    let operands = convert_each(alloc, celled, n, operands)?;
    Ok(Exp::Call {
        site: *site,
        spread: *spread,
        operator,
        operands,
    })
}

// The same for a Let.
#[cycle(converting)]
#[inline(never)]
fn convert_let(alloc: Global, celled: &[bool], n: u32, e: &Exp) -> Result<Exp, Mem>
    requires kind { IsLet (tree e.now) }
    requires within { InRange n (tree e.now) }
    requires few { n + n < 2 ^ 32 }
    ensures { IfOk result (λ q. tree q ≡ converted (table celled.now) n (tree e.now)) }
{
    let Exp::Let {
        site,
        first,
        inits,
        body,
    } = e
    else {
        unreachable!();
    };
    let cs = cells(alloc, celled, n, *first, count(inits))?;
    let inits = convert_each(alloc, celled, n, inits)?;
    let body = convert_boxed(alloc, celled, n, body)?;
    let body = wrap(alloc, cs, body)?;
    Ok(Exp::Let {
        site: *site,
        first: *first,
        inits,
        body,
    })
}

// The same for a group of procedures.
#[cycle(converting)]
#[inline(never)]
fn convert_fix(alloc: Global, celled: &[bool], n: u32, e: &Exp) -> Result<Exp, Mem>
    requires kind { IsFix (tree e.now) }
    requires within { InRange n (tree e.now) }
    requires few { n + n < 2 ^ 32 }
    ensures { IfOk result (λ q. tree q ≡ converted (table celled.now) n (tree e.now)) }
{
    let Exp::Fix {
        first,
        lambdas,
        body,
    } = e
    else {
        unreachable!();
    };
    let lambdas = convert_lambdas(alloc, celled, n, lambdas)?;
    let body = convert_boxed(alloc, celled, n, body)?;
    Ok(Exp::Fix {
        first: *first,
        lambdas,
        body,
    })
}

// The same for a Rec: its cells are new and empty, the inits have their values, and these go into the cells.
#[cycle(converting)]
#[inline(never)]
fn convert_rec(alloc: Global, celled: &[bool], n: u32, e: &Exp) -> Result<Exp, Mem>
    requires kind { IsRec (tree e.now) }
    requires within { InRange n (tree e.now) }
    requires few { n + n < 2 ^ 32 }
    ensures { IfOk result (λ q. tree q ≡ converted (table celled.now) n (tree e.now)) }
{
    let Exp::Rec { first, inits, .. } = e else {
        unreachable!();
    };
    let cs = no_values(alloc, n, *first, count(inits))?;
    let inner = convert_inits(alloc, celled, n, e)?;
    Ok(Exp::NewCells(cs, inner))
}

// What stands under the cells of a Rec.
#[cycle(converting)]
#[inline(never)]
fn convert_inits(alloc: Global, celled: &[bool], n: u32, e: &Exp) -> Result<Box<Exp>, Mem>
    requires kind { IsRec (tree e.now) }
    requires within { InRange n (tree e.now) }
    requires few { n + n < 2 ^ 32 }
    ensures { IfOk result (λ q. tree q.value ≡ under_cells (table celled.now) n (tree e.now)) }
{
    let Exp::Rec {
        site,
        first,
        inits,
        ..
    } = e
    else {
        unreachable!();
    };
    let inits = convert_each(alloc, celled, n, inits)?;
    let body = convert_filled(alloc, celled, n, e)?;
    let inner = Exp::Let {
        site: *site,
        first: *first,
        inits,
        body,
    };
    Ok(Box::new(alloc, inner)?)
}

// The body of a Rec, after the values of its variables have gone into their cells.
#[cycle(converting)]
#[inline(never)]
fn convert_filled(alloc: Global, celled: &[bool], n: u32, e: &Exp) -> Result<Box<Exp>, Mem>
    requires kind { IsRec (tree e.now) }
    requires within { InRange n (tree e.now) }
    requires few { n + n < 2 ^ 32 }
    ensures { IfOk result (λ q. tree q.value ≡ filled (table celled.now) n (tree e.now)) }
{
    let Exp::Rec {
        first,
        inits,
        body,
        ..
    } = e
    else {
        unreachable!();
    };
    let mut parts = fill(alloc, n, *first, count(inits))?;
    parts.push(convert(alloc, celled, n, body)?)?;
    Ok(Box::new(alloc, Exp::Seq(parts))?)
}

// A procedure on the heap.
#[cycle(converting)]
#[inline(never)]
fn convert_procedure(alloc: Global, celled: &[bool], n: u32, l: &Lambda) -> Result<Exp, Mem>
    requires low { Low n l.now.first l.now.formals }
    requires within { InRange n (tree l.now.body) }
    requires few { n + n < 2 ^ 32 }
    ensures { IfOk result (λ q. tree q ≡
        converted (table celled.now) n (plain.lambda l.now.name l.now.first l.now.formals l.now.rest (tree l.now.body))) }
{
    let l = convert_lambda(alloc, celled, n, l)?;
    Ok(Exp::Lambda(Box::new(alloc, l)?))
}

// The same on the heap. As a function of its own it keeps the frames of the walk small.
#[cycle(converting)]
#[inline(never)]
fn convert_boxed(alloc: Global, celled: &[bool], n: u32, e: &Exp) -> Result<Box<Exp>, Mem>
    requires within { InRange n (tree e.now) }
    requires few { n + n < 2 ^ 32 }
    ensures { IfOk result (λ q. tree q.value ≡ converted (table celled.now) n (tree e.now)) }
{
    let e = convert(alloc, celled, n, e)?;
    Ok(Box::new(alloc, e)?)
}

/// The same for each of some expressions.
#[cycle(converting)]
#[inline(never)]
pub(crate) fn convert_each(
    alloc: Global,
    celled: &[bool],
    n: u32,
    es: &List<Exp>,
) -> Result<List<Exp>, Mem>
    requires within { EachInRange n (trees_of es.now) }
    requires few { n + n < 2 ^ 32 }
    ensures { IfOk result (λ qs. trees_of qs ≡ converted_each (table celled.now) n (trees_of es.now)) }
{
    let mut all = List::from_vec(Vec::with_capacity(alloc, es.len())?);
    for e in es.as_slice() {
        all.push(convert(alloc, celled, n, e)?)?;
    }
    Ok(all)
}

#[cycle(converting)]
#[inline(never)]
fn convert_lambda(alloc: Global, celled: &[bool], n: u32, l: &Lambda) -> Result<Lambda, Mem>
    requires low { Low n l.now.first l.now.formals }
    requires within { InRange n (tree l.now.body) }
    requires few { n + n < 2 ^ 32 }
    ensures { IfOk result (λ q. plain.lambda q.name q.first q.formals q.rest (tree q.body) ≡
        converted (table celled.now) n (plain.lambda l.now.name l.now.first l.now.formals l.now.rest (tree l.now.body))) }
{
    let name = List::from_slice(alloc, l.name.as_slice())?;
    let body = convert_body(alloc, celled, n, l)?;
    Ok(Lambda {
        name,
        first: l.first,
        formals: l.formals,
        rest: l.rest,
        body,
    })
}

// The body of a procedure under the cells of its formals.
#[cycle(converting)]
#[inline(never)]
fn convert_body(alloc: Global, celled: &[bool], n: u32, l: &Lambda) -> Result<Exp, Mem>
    requires low { Low n l.now.first l.now.formals }
    requires within { InRange n (tree l.now.body) }
    requires few { n + n < 2 ^ 32 }
    ensures { IfOk result (λ q. tree q ≡
        wrapped (cells_for (table celled.now) n l.now.first l.now.formals) (converted (table celled.now) n (tree l.now.body))) }
{
    let cs = cells(alloc, celled, n, l.first, l.formals as usize)?;
    let body = convert(alloc, celled, n, &l.body)?;
    wrap_body(alloc, cs, body)
}

/// The same for each of some lambdas.
#[cycle(converting)]
#[inline(never)]
pub(crate) fn convert_lambdas(
    alloc: Global,
    celled: &[bool],
    n: u32,
    ls: &List<Lambda>,
) -> Result<List<Lambda>, Mem>
    requires within { LambdasInRange n (lambdas_of ls.now) }
    requires few { n + n < 2 ^ 32 }
    ensures { IfOk result (λ qs. lambdas_of qs ≡ converted_lambdas (table celled.now) n (lambdas_of ls.now)) }
{
    let mut all = List::from_vec(Vec::with_capacity(alloc, ls.len())?);
    for l in ls.as_slice() {
        all.push(convert_lambda(alloc, celled, n, l)?)?;
    }
    Ok(all)
}
