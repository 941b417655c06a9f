//! The nodes that are made of numbered parts.

ghost use Rattle.std.specs.Prelude.{◌≡◌, ◌+◌, ◌<◌, ◌^◌, ◌++◌, ◌∷◌, [], suc, length, map, true, IfOk, OnOk};
ghost use Rattle.sch_word.specs.values.Values.{is_constant};
ghost use Rattle.sch_lang.specs.Tree as tree;
ghost use Rattle.sch_lang.specs.View.{expression, expressions_of, function, lambdas_of};
ghost use Rattle.sch_names.specs.ScopeView.{one_name};
ghost use Rattle.sch_link_tables.specs.Numbered.{body_name, procedures_of, grouped};
ghost use Rattle.sch_link_tables.specs.Sites.{unless_group};

use crate::tables::Output;
use sch_lang::{Exp, Lambda};
use sch_names::Name;
use sch_word::{Bytes, Const, List, Mem, Primitive};
use std::alloc::Global;

/// The number of one more site, which has `width` parts.
pub fn new_site(out: &mut Output, width: usize) -> Result<u32, Mem>
    requires few { length out.old.sites < 2 ^ 32 }
    requires narrow { width < 2 ^ 32 }
    ensures number { IfOk result (λ n. n ≡ length out.old.sites) }
    ensures sites { OnOk result (out.new.sites ≡ out.old.sites ++ width ∷ []) }
    ensures literals { OnOk result (out.new.literals ≡ out.old.literals) }
{
    let site = out.sites.len() as u32;
    out.sites.push(width as u32)?;
    Ok(site)
}

/// The number of the site of a call with this number of operands. Its operator is a part more.
pub fn call_site(out: &mut Output, operands: usize) -> Result<u32, Mem>
    requires few { length out.old.sites < 2 ^ 32 }
    requires narrow { operands + 1 < 2 ^ 32 }
    ensures number { IfOk result (λ n. n ≡ length out.old.sites) }
    ensures sites { OnOk result (out.new.sites ≡ out.old.sites ++ suc operands ∷ []) }
    ensures literals { OnOk result (out.new.literals ≡ out.old.literals) }
{
    new_site(out, operands + 1)
}

/// The same as `new_site`, but for a group of procedures, which is no site.
pub fn site_unless(group: bool, out: &mut Output, width: usize) -> Result<u32, Mem>
    requires few { length out.old.sites < 2 ^ 32 }
    requires narrow { width < 2 ^ 32 }
    ensures number { IfOk result (λ n. n ≡ length out.old.sites) }
    ensures sites { OnOk result (out.new.sites ≡ out.old.sites ++ unless_group group width) }
    ensures literals { OnOk result (out.new.literals ≡ out.old.literals) }
{
    if group {
        return Ok(out.sites.len() as u32);
    }
    new_site(out, width)
}

/// The expression of a constant. Its number is in range and its character is a byte by their types.
pub fn constant(c: Const) -> Exp
    ensures made { expression result ≡ tree.constant c }
    ensures in_range { is_constant c ≡ true }
{
    match c {
        Const::Fixnum(n) => {
            let _value = n.get();
        }
        _ => {}
    }
    Exp::Constant(c)
}

pub fn branch(alloc: Global, a: Exp, b: Exp, c: Exp) -> Result<Exp, Mem>
    ensures { IfOk result (λ q. expression q ≡ tree.branch (expression a) (expression b) (expression c)) }
{
    let a = Box::new(alloc, a)?;
    let b = Box::new(alloc, b)?;
    let c = Box::new(alloc, c)?;
    Ok(Exp::If(a, b, c))
}

pub fn bind(alloc: Global, site: u32, inits: List<Exp>, body: Exp) -> Result<Exp, Mem>
    ensures { IfOk result (λ q. expression q ≡ tree.bind site (expressions_of inits) (expression body)) }
{
    let body = Box::new(alloc, body)?;
    Ok(Exp::Let(site, inits, body))
}

pub fn call(alloc: Global, site: u32, operator: Exp, operands: List<Exp>) -> Result<Exp, Mem>
    ensures { IfOk result (λ q. expression q ≡ tree.call site (expression operator) (expressions_of operands)) }
{
    let operator = Box::new(alloc, operator)?;
    Ok(Exp::Call(site, operator, operands))
}

pub fn operation(site: u32, p: Primitive, operands: List<Exp>) -> Exp
    ensures { expression result ≡ tree.operation site p (expressions_of operands) }
{
    Exp::Prim(site, p, operands)
}

/// The name of a procedure's body in a listing.
fn body_name(alloc: Global, v: Name<'_>) -> Result<Bytes, Mem>
    ensures { IfOk result (λ name. name ≡ body_name (one_name v.entry)) }
{
    match v {
        Some(x) => Ok(List::from_slice(alloc, x)?),
        None => Ok(List::from_slice(alloc, b"lambda")?),
    }
}

/// A procedure that is the init of a variable of this name.
pub fn procedure(
    alloc: Global,
    v: Name<'_>,
    formals: usize,
    rest: bool,
    body: Exp,
) -> Result<Exp, Mem>
    requires few { formals < 2 ^ 32 }
    ensures { IfOk result (λ q. expression q ≡ tree.lambda (body_name (one_name v.entry)) formals rest (expression body)) }
{
    let name = body_name(alloc, v)?;
    let l = Box::new(
        alloc,
        Lambda {
            name,
            formals: formals as u32,
            rest,
            body,
        },
    )?;
    Ok(Exp::Lambda(l))
}

/// The procedure that an expression is.
fn procedure_of(alloc: Global, e: Exp) -> Lambda
    ensures { (es : tree.Expressions) → procedures_of (tree.and_expression (expression e) es)
        ≡ tree.and_lambda result.name result.formals result.rest (expression result.body) (procedures_of es) }
{
    match e {
        Exp::Lambda(l) => Box::into_inner(l),
        other => Lambda {
            name: List::new(alloc),
            formals: 0,
            rest: false,
            body: other,
        },
    }
}

/// The procedures that expressions are.
fn procedures_of(alloc: Global, es: List<Exp>) -> Result<List<Lambda>, Mem>
    ensures { IfOk result (λ ls. lambdas_of ls ≡ procedures_of (expressions_of es)) }
{
    let mut left = es.reversed();
    let mut all = List::new(alloc);
    while let Some(e) = left.pop() {
        let l = procedure_of(alloc, e);
        all.push(l)?;
    }
    Ok(all)
}

/// A group of procedures, or a `letrec` at a site.
pub fn grouped(
    alloc: Global,
    group: bool,
    site: u32,
    inits: List<Exp>,
    body: Exp,
) -> Result<Exp, Mem>
    ensures { IfOk result (λ q. expression q ≡ grouped group site (expressions_of inits) (expression body)) }
{
    let body = Box::new(alloc, body)?;
    if group {
        let lambdas = procedures_of(alloc, inits)?;
        return Ok(Exp::Fix(lambdas, body));
    }
    Ok(Exp::Rec(site, inits, body))
}
