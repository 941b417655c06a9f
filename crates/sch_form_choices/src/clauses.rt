//! The rows of `cond`.

ghost use Rattle.std.specs.Prelude.{◌≡◌, IfOk, MatchOption, Some, None};
ghost use Rattle.sch_read.specs.Grammar.{none, cons};
ghost use Rattle.sch_read.specs.Views.{tree_of, data_of};
ghost use Rattle.sch_form_choices.specs.Choices as table;
ghost use Rattle.sch_sketch.specs.SketchView.{sketch_of};

use sch_names::{Keyword, Scope};
use sch_read::Datum;
use sch_sketch::{
    Position, Row, Sketch, alone, bad, bind_fresh, choice, either_of, local, place_of, plain_call,
    text, two, unspecified, word,
};
use sch_word::Mem;
use std::alloc::Global;

/// Whether a datum is the word `else`.
pub(crate) fn is_else(scope: &Scope, d: &Datum) -> bool
    ensures { result ≡ table.is_else scope.now (tree_of d.now) }
{
    match word(scope, d) {
        Some(Keyword::Else) => true,
        _ => false,
    }
}

fn is_arrow(scope: &Scope, d: &Datum) -> bool
    ensures { result ≡ table.is_arrow scope.now (tree_of d.now) }
{
    match word(scope, d) {
        Some(Keyword::Arrow) => true,
        _ => false,
    }
}

pub(crate) fn is_some(items: &[Datum]) -> bool
    ensures { result ≡ table.is_some_data (data_of items.now) }
{
    match Datum::split(items) {
        Some(_) => true,
        None => false,
    }
}

/// Whether a datum is a clause of a `cond`.
fn is_clause(scope: &Scope, d: &Datum, last: bool) -> bool
    ensures { result ≡ table.is_clause scope.now (tree_of d.now) last }
{
    let Some(items) = d.items() else {
        return false;
    };
    let Some((a, es)) = Datum::split(items) else {
        return false;
    };
    if is_else(scope, a) {
        return is_some(es) && last;
    }
    true
}

fn are_clauses(scope: &Scope, items: &[Datum]) -> bool
    ensures { result ≡ table.are_clauses scope.now (data_of items.now) }
{
    for i in 0..items.len() {
        if !is_clause(scope, &items[i], i + 1 == items.len()) {
            return false;
        }
    }
    true
}

/// A `cond`: its clauses are looked at once for their shape.
pub fn row_cond<'a>(scope: &Scope, at: u32, items: &'a [Datum]) -> Sketch<'a>
    ensures { sketch_of result ≡ table.row_cond scope.now at (data_of items.now) }
{
    let Some(_) = Datum::split(items) else {
        return bad(at);
    };
    if are_clauses(scope, items) {
        alone(Row::Clauses, at, items)
    } else {
        bad(at)
    }
}

/// The clauses that remain.
fn remaining<'a>(at: u32, items: &'a [Datum]) -> Sketch<'a>
    ensures { sketch_of result ≡ table.remaining at (data_of items.now) }
{
    alone(Row::Clauses, place_of(at, items), items)
}

/// `(a e ..)` -> `(if a (begin e ..) rest)`.
fn plain_clause<'a>(
    alloc: Global,
    at: u32,
    a: &'a Datum,
    es: &'a [Datum],
    items: &'a [Datum],
) -> Result<Sketch<'a>, Mem>
    ensures { IfOk result (λ k. sketch_of k ≡ table.plain_clause at (tree_of a.now) (data_of es.now) (data_of items.now)) }
{
    let chosen = alone(Row::Form(Keyword::Begin), at, es);
    let made = choice(alloc, at, text(a), chosen, remaining(at, items))?;
    Ok(made)
}

/// What follows a test as `=> f`.
fn receiver<'a>(scope: &Scope, es: &'a [Datum]) -> Option<&'a Datum>
    ensures { MatchOption result (table.receiver scope.now (data_of es.now) ≡ None)
        (λ f. table.receiver scope.now (data_of es.now) ≡ Some (tree_of f.now)) }
{
    let Some((b, others)) = Datum::split(es) else {
        return None;
    };
    let Some((f, more)) = Datum::split(others) else {
        return None;
    };
    let None = Datum::split(more) else {
        return None;
    };
    if is_arrow(scope, b) { Some(f) } else { None }
}

/// `(a => f)` -> `(let (t a) (if t (f t) rest))`.
fn receiving<'a>(
    alloc: Global,
    at: u32,
    a: &'a Datum,
    f: &'a Datum,
    items: &'a [Datum],
) -> Result<Sketch<'a>, Mem>
    ensures { IfOk result (λ k. sketch_of k ≡ table.receiving at (tree_of a.now) (tree_of f.now) (data_of items.now)) }
{
    let call = two(alloc, plain_call(alloc), at, text(f), local(at, 0))?;
    let inner = choice(alloc, at, local(at, 0), call, remaining(at, items))?;
    let made = bind_fresh(alloc, at, text(a), inner)?;
    Ok(made)
}

/// The clauses from one on.
pub fn row_clauses<'a>(
    alloc: Global,
    scope: &Scope,
    position: Position,
    at: u32,
    items: &'a [Datum],
) -> Result<Sketch<'a>, Mem>
    ensures { IfOk result (λ k. sketch_of k ≡ table.row_clauses scope.now position at (data_of items.now)) }
{
    let Some((c, others)) = Datum::split(items) else {
        return Ok(unspecified(at));
    };
    let Some(parts) = c.items() else {
        return Ok(bad(at));
    };
    let Some((a, es)) = Datum::split(parts) else {
        return Ok(bad(at));
    };
    if is_else(scope, a) {
        return Ok(alone(Row::Form(Keyword::Begin), at, es));
    }
    if let Some(f) = receiver(scope, es) {
        let made = receiving(alloc, at, a, f, others)?;
        return Ok(made);
    }
    let made = if is_some(es) {
        plain_clause(alloc, at, a, es, others)?
    } else {
        either_of(alloc, position, at, text(a), remaining(at, others))?
    };
    Ok(made)
}
