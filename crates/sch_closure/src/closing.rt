//! Trees without free variables, and the bodies of procedures by their labels.

ghost use Rattle.std.specs.Prelude.{◌≡◌, ◌+◌, ◌<◌, ◌^◌, ℕ, List, suc, [], length, map, slice_get, slice_set, Some, IfOk, OnOk};
ghost use Rattle.sch_cells.specs.View.{function, tree, trees_of, lambdas_of};
ghost use Rattle.sch_flat.specs.View as view;
ghost use Rattle.sch_closure.specs.Closed.{place, placed, procedures, procedures_each, procedures_lambdas, fields_of, captured, starts};
ghost use Rattle.sch_closure.specs.Fresh.{Stands, EachStands, LambdasStand};
ghost use Rattle.sch_cells.specs.Kinds.{IsIf, IsLetOrRec, IsFix, IsCall, IsNewCells};
ghost use Rattle.sch_closure.specs.Walked.{body_with, Closes, ClosesEach, ClosesLambda, ClosesLambdas};

use sch_cells::{Exp, Lambda};
use sch_flat as flat;
use sch_flat::{Body, Made, Variable};
use sch_word::{Const, List, Mem};
use std::alloc::Global;

// A variable in a body whose record has these fields.
fn place_variable(fields: &[u32], x: u32) -> Variable
    requires { length fields.now < 2 ^ 32 }
    ensures { view.used result ≡ place fields.now x }
{
    for k in 0..fields.len() {
        if x == fields[k] {
            return Variable::Free(k as u32);
        }
    }
    Variable::Bound(x)
}

// Each of some variables in a body whose record has these fields.
#[inline(never)]
fn place_each(alloc: Global, fields: &[u32], xs: &[u32]) -> Result<List<Variable>, Mem>
    requires { length fields.now < 2 ^ 32 }
    ensures { IfOk result (λ vs. map view.used vs ≡ map (place fields.now) xs.now) }
{
    let mut all = List::from_vec(Vec::with_capacity(alloc, xs.len())?);
    for x in xs {
        all.push(place_variable(fields, *x))?;
    }
    Ok(all)
}

fn place_cell(fields: &[u32], c: &sch_cells::NewCell) -> flat::NewCell
    requires { length fields.now < 2 ^ 32 }
    ensures { view.new_cell result ≡ placed fields.now c.now }
{
    let content = match c.content {
        Some(x) => Some(place_variable(fields, x)),
        None => None,
    };
    flat::NewCell {
        variable: c.variable,
        content,
    }
}

// Each of some new cells in a body whose record has these fields.
#[inline(never)]
fn place_cells(
    alloc: Global,
    fields: &[u32],
    cs: &[sch_cells::NewCell],
) -> Result<List<flat::NewCell>, Mem>
    requires { length fields.now < 2 ^ 32 }
    ensures { IfOk result (λ made. map view.new_cell made ≡ map (placed fields.now) cs.now) }
{
    let mut all = List::from_vec(Vec::with_capacity(alloc, cs.len())?);
    for c in cs {
        all.push(place_cell(fields, c))?;
    }
    Ok(all)
}

/// The tree in a body whose record has these fields. The bodies of its procedures are put behind `bodies`.
#[cycle(closing)]
fn close_expression(
    alloc: Global,
    e: &Exp,
    own: &[u32],
    fields: &[List<u32>],
    bodies: &mut Vec<Body>,
) -> Result<flat::Exp, Mem>
    requires own { length own.now < 2 ^ 32 }
    requires short { (k : ℕ) → (xs : List ℕ) → slice_get fields.now k ≡ Some xs → length xs < 2 ^ 32 }
    requires stand { Stands captured fields.now (tree e.now) (length bodies.old.items) }
    requires few { length bodies.old.items + procedures (tree e.now) < 2 ^ 32 }
    ensures { IfOk result (λ q. Closes (tree e.now) own.now bodies.old.items bodies.new.items (view.tree q)) }
{
    match e {
        Exp::Constant(c) => Ok(flat::Exp::Constant(*c)),
        Exp::Literal(n) => Ok(flat::Exp::Literal(*n)),
        Exp::Var(x) => Ok(flat::Exp::Var(place_variable(own, *x))),
        Exp::Global(g) => Ok(flat::Exp::Global(*g)),
        Exp::SetVar(_, value) => close_expression(alloc, value, own, fields, bodies),
        Exp::SetGlobal(g, value) => {
            let value = close_boxed(alloc, value, own, fields, bodies)?;
            Ok(flat::Exp::SetGlobal(*g, value))
        }
        Exp::Define(g, value) => {
            let value = close_boxed(alloc, value, own, fields, bodies)?;
            Ok(flat::Exp::Define(*g, value))
        }
        Exp::If(_, _, _) => close_if(alloc, e, own, fields, bodies),
        Exp::Seq(parts) => {
            let parts = close_each(alloc, parts, own, fields, bodies)?;
            Ok(flat::Exp::Seq(parts))
        }
        Exp::Let { .. } | Exp::Rec { .. } => close_let(alloc, e, own, fields, bodies),
        Exp::Fix { .. } => close_fix(alloc, e, own, fields, bodies),
        Exp::Lambda(l) => {
            let m = close_lambda(alloc, l, own, fields, bodies)?;
            Ok(flat::Exp::MakeClosure(m))
        }
        Exp::Call { .. } => close_call(alloc, e, own, fields, bodies),
        Exp::Prim(site, which, operands) => {
            let operands = close_each(alloc, operands, own, fields, bodies)?;
            Ok(flat::Exp::Prim(*site, *which, operands))
        }
        Exp::NewCells(_, _) => close_new_cells(alloc, e, own, fields, bodies),
        Exp::CellGet(x) => Ok(flat::Exp::CellGet(place_variable(own, *x))),
        Exp::CellSet(x, value) => {
            let value = close_boxed(alloc, value, own, fields, bodies)?;
            Ok(flat::Exp::CellSet(place_variable(own, *x), value))
        }
    }
}

// The same for an If. As functions of their own, this and the next four keep the frames of the walk small.
#[cycle(closing)]
fn close_if(
    alloc: Global,
    e: &Exp,
    own: &[u32],
    fields: &[List<u32>],
    bodies: &mut Vec<Body>,
) -> Result<flat::Exp, Mem>
    requires kind { IsIf (tree e.now) }
    requires own { length own.now < 2 ^ 32 }
    requires short { (k : ℕ) → (xs : List ℕ) → slice_get fields.now k ≡ Some xs → length xs < 2 ^ 32 }
    requires stand { Stands captured fields.now (tree e.now) (length bodies.old.items) }
    requires few { length bodies.old.items + procedures (tree e.now) < 2 ^ 32 }
    ensures { IfOk result (λ q. Closes (tree e.now) own.now bodies.old.items bodies.new.items (view.tree q)) }
{
    let Exp::If(test, yes, no) = e else {
        unreachable!();
    };
    let test = close_boxed(alloc, test, own, fields, bodies)?;
    let yes = close_boxed(alloc, yes, own, fields, bodies)?;
    let no = close_boxed(alloc, no, own, fields, bodies)?;
    Ok(flat::Exp::If(test, yes, no))
}

// The same for a Let, or a Rec.
#[cycle(closing)]
fn close_let(
    alloc: Global,
    e: &Exp,
    own: &[u32],
    fields: &[List<u32>],
    bodies: &mut Vec<Body>,
) -> Result<flat::Exp, Mem>
    requires kind { IsLetOrRec (tree e.now) }
    requires own { length own.now < 2 ^ 32 }
    requires short { (k : ℕ) → (xs : List ℕ) → slice_get fields.now k ≡ Some xs → length xs < 2 ^ 32 }
    requires stand { Stands captured fields.now (tree e.now) (length bodies.old.items) }
    requires few { length bodies.old.items + procedures (tree e.now) < 2 ^ 32 }
    ensures { IfOk result (λ q. Closes (tree e.now) own.now bodies.old.items bodies.new.items (view.tree q)) }
{
    match e {
        Exp::Let {
            site,
            first,
            inits,
            body,
        }
        | Exp::Rec {
            site,
            first,
            inits,
            body,
        } => {
            let inits = close_each(alloc, inits, own, fields, bodies)?;
            let body = close_boxed(alloc, body, own, fields, bodies)?;
            Ok(flat::Exp::Let {
                site: *site,
                first: *first,
                inits,
                body,
            })
        }
        _ => unreachable!(),
    }
}

// The same for procedures that know one another.
#[cycle(closing)]
fn close_fix(
    alloc: Global,
    e: &Exp,
    own: &[u32],
    fields: &[List<u32>],
    bodies: &mut Vec<Body>,
) -> Result<flat::Exp, Mem>
    requires kind { IsFix (tree e.now) }
    requires own { length own.now < 2 ^ 32 }
    requires short { (k : ℕ) → (xs : List ℕ) → slice_get fields.now k ≡ Some xs → length xs < 2 ^ 32 }
    requires stand { Stands captured fields.now (tree e.now) (length bodies.old.items) }
    requires few { length bodies.old.items + procedures (tree e.now) < 2 ^ 32 }
    ensures { IfOk result (λ q. Closes (tree e.now) own.now bodies.old.items bodies.new.items (view.tree q)) }
{
    let Exp::Fix {
        first,
        lambdas,
        body,
    } = e
    else {
        unreachable!();
    };
    let closures = close_lambdas(alloc, lambdas, own, fields, bodies)?;
    let body = close_boxed(alloc, body, own, fields, bodies)?;
    Ok(flat::Exp::FixClosures {
        first: *first,
        closures,
        body,
    })
}

// The same for a call.
#[cycle(closing)]
fn close_call(
    alloc: Global,
    e: &Exp,
    own: &[u32],
    fields: &[List<u32>],
    bodies: &mut Vec<Body>,
) -> Result<flat::Exp, Mem>
    requires kind { IsCall (tree e.now) }
    requires own { length own.now < 2 ^ 32 }
    requires short { (k : ℕ) → (xs : List ℕ) → slice_get fields.now k ≡ Some xs → length xs < 2 ^ 32 }
    requires stand { Stands captured fields.now (tree e.now) (length bodies.old.items) }
    requires few { length bodies.old.items + procedures (tree e.now) < 2 ^ 32 }
    ensures { IfOk result (λ q. Closes (tree e.now) own.now bodies.old.items bodies.new.items (view.tree q)) }
{
    let Exp::Call {
        site,
        spread,
        operator,
        operands,
    } = e
    else {
        unreachable!();
    };
    let operator = close_boxed(alloc, operator, own, fields, bodies)?;
    let operands = close_each(alloc, operands, own, fields, bodies)?;
    Ok(flat::Exp::Call {
        site: *site,
        spread: *spread,
        operator,
        operands,
    })
}

// The same for new cells.
#[cycle(closing)]
fn close_new_cells(
    alloc: Global,
    e: &Exp,
    own: &[u32],
    fields: &[List<u32>],
    bodies: &mut Vec<Body>,
) -> Result<flat::Exp, Mem>
    requires kind { IsNewCells (tree e.now) }
    requires own { length own.now < 2 ^ 32 }
    requires short { (k : ℕ) → (xs : List ℕ) → slice_get fields.now k ≡ Some xs → length xs < 2 ^ 32 }
    requires stand { Stands captured fields.now (tree e.now) (length bodies.old.items) }
    requires few { length bodies.old.items + procedures (tree e.now) < 2 ^ 32 }
    ensures { IfOk result (λ q. Closes (tree e.now) own.now bodies.old.items bodies.new.items (view.tree q)) }
{
    let Exp::NewCells(cells, body) = e else {
        unreachable!();
    };
    let cells = place_cells(alloc, own, cells.as_slice())?;
    let body = close_boxed(alloc, body, own, fields, bodies)?;
    Ok(flat::Exp::NewCells(cells, body))
}

// The same on the heap. As a function of its own it keeps the frames of the walk small.
#[cycle(closing)]
#[inline(never)]
fn close_boxed(
    alloc: Global,
    e: &Box<Exp>,
    own: &[u32],
    fields: &[List<u32>],
    bodies: &mut Vec<Body>,
) -> Result<Box<flat::Exp>, Mem>
    requires own { length own.now < 2 ^ 32 }
    requires short { (k : ℕ) → (xs : List ℕ) → slice_get fields.now k ≡ Some xs → length xs < 2 ^ 32 }
    requires stand { Stands captured fields.now (tree e.now.value) (length bodies.old.items) }
    requires few { length bodies.old.items + procedures (tree e.now.value) < 2 ^ 32 }
    ensures { IfOk result (λ q. Closes (tree e.now.value) own.now bodies.old.items bodies.new.items (view.tree q.value)) }
{
    let e = close_expression(alloc, e, own, fields, bodies)?;
    Ok(Box::new(alloc, e)?)
}

/// Each of some expressions, one after another.
#[cycle(closing)]
#[inline(never)]
fn close_each(
    alloc: Global,
    es: &List<Exp>,
    own: &[u32],
    fields: &[List<u32>],
    bodies: &mut Vec<Body>,
) -> Result<List<flat::Exp>, Mem>
    requires own { length own.now < 2 ^ 32 }
    requires short { (k : ℕ) → (xs : List ℕ) → slice_get fields.now k ≡ Some xs → length xs < 2 ^ 32 }
    requires stand { EachStands captured fields.now (trees_of es.now) (length bodies.old.items) }
    requires few { length bodies.old.items + procedures_each (trees_of es.now) < 2 ^ 32 }
    ensures { IfOk result (λ qs. ClosesEach (trees_of es.now) own.now bodies.old.items bodies.new.items (view.trees_of qs)) }
{
    let mut all = List::from_vec(Vec::with_capacity(alloc, es.len())?);
    for e in es.as_slice() {
        all.push(close_expression(alloc, e, own, fields, bodies)?)?;
    }
    Ok(all)
}

/// The record of a procedure in a body whose record has these fields.
#[cycle(closing)]
#[inline(never)]
fn close_lambda(
    alloc: Global,
    l: &Lambda,
    own: &[u32],
    fields: &[List<u32>],
    bodies: &mut Vec<Body>,
) -> Result<Made, Mem>
    requires own { length own.now < 2 ^ 32 }
    requires short { (k : ℕ) → (xs : List ℕ) → slice_get fields.now k ≡ Some xs → length xs < 2 ^ 32 }
    requires here { slice_get fields.now (length bodies.old.items) ≡ Some (fields_of l.now.first l.now.formals (tree l.now.body)) }
    requires stand { Stands captured fields.now (tree l.now.body) (suc (length bodies.old.items)) }
    requires few { length bodies.old.items + suc (procedures (tree l.now.body)) < 2 ^ 32 }
    ensures { IfOk result (λ m. ClosesLambda (function l.now) own.now bodies.old.items bodies.new.items (view.made m)) }
{
    let label = bodies.len();
    let inside = fields[label].as_slice();
    bodies.push(unmade_body(alloc))?;
    let code = close_expression(alloc, &l.body, inside, fields, bodies)?;
    let body = made_body(alloc, l, inside.len() as u32, code)?;
    put_body(bodies, label, body);
    Ok(Made {
        label: label as u32,
        fields: place_each(alloc, own, inside)?,
    })
}

// The body of a procedure whose record has this many fields.
#[inline(never)]
fn made_body(alloc: Global, l: &Lambda, fields: u32, code: flat::Exp) -> Result<Body, Mem>
    ensures { IfOk result (λ b. view.body b ≡ body_with (function l.now) fields (view.tree code)) }
{
    Ok(Body {
        name: List::from_slice(alloc, l.name.as_slice())?,
        first: l.first,
        formals: l.formals,
        rest: l.rest,
        fields,
        code,
    })
}

// Puts a body in the place of another.
#[inline(never)]
fn put_body(bodies: &mut Vec<Body>, label: usize, body: Body)
    requires { label < length bodies.old.items }
    ensures { bodies.new.items ≡ slice_set bodies.old.items label body }
{
    bodies[label] = body;
}

// What stands in the place of a body until its code is made.
#[inline(never)]
fn unmade_body(alloc: Global) -> Body {
    Body {
        name: List::new(alloc),
        first: 0,
        formals: 0,
        rest: false,
        fields: 0,
        code: flat::Exp::Constant(Const::Unspecified),
    }
}

/// Each of some lambdas, one after another.
#[cycle(closing)]
#[inline(never)]
pub(crate) fn close_lambdas(
    alloc: Global,
    ls: &List<Lambda>,
    own: &[u32],
    fields: &[List<u32>],
    bodies: &mut Vec<Body>,
) -> Result<List<Made>, Mem>
    requires own { length own.now < 2 ^ 32 }
    requires short { (k : ℕ) → (xs : List ℕ) → slice_get fields.now k ≡ Some xs → length xs < 2 ^ 32 }
    requires stand { LambdasStand captured fields.now (lambdas_of ls.now) (length bodies.old.items) }
    requires few { length bodies.old.items + procedures_lambdas (lambdas_of ls.now) < 2 ^ 32 }
    ensures { IfOk result (λ ms. ClosesLambdas (lambdas_of ls.now) own.now bodies.old.items bodies.new.items (map view.made ms)) }
{
    let mut all = List::from_vec(Vec::with_capacity(alloc, ls.len())?);
    for l in ls.as_slice() {
        all.push(close_lambda(alloc, l, own, fields, bodies)?)?;
    }
    Ok(all)
}

/// The top-level forms, and before each of them how many bodies there are.
pub(crate) fn close_forms(
    alloc: Global,
    es: &List<Exp>,
    fields: &[List<u32>],
    bodies: &mut Vec<Body>,
    before: &mut List<u32>,
) -> Result<List<flat::Exp>, Mem>
    requires short { (k : ℕ) → (xs : List ℕ) → slice_get fields.now k ≡ Some xs → length xs < 2 ^ 32 }
    requires stand { EachStands captured fields.now (trees_of es.now) (length bodies.old.items) }
    requires few { length bodies.old.items + procedures_each (trees_of es.now) < 2 ^ 32 }
    requires none { before.old ≡ [] }
    ensures closes { IfOk result (λ qs. ClosesEach (trees_of es.now) [] bodies.old.items bodies.new.items (view.trees_of qs)) }
    ensures starts { OnOk result (before.new ≡ starts (trees_of es.now) (length bodies.old.items)) }
{
    let mut all = List::from_vec(Vec::with_capacity(alloc, es.len())?);
    for e in es.as_slice() {
        before.push(bodies.len() as u32)?;
        all.push(close_expression(alloc, e, &[], fields, bodies)?)?;
    }
    Ok(all)
}
