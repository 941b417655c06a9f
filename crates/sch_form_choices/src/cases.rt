//! The rows of `case`.

ghost use Rattle.std.specs.Prelude.{◌≡◌, IfOk};
ghost use Rattle.sch_read.specs.Grammar.{none, cons};
ghost use Rattle.sch_read.specs.Views.{tree_of, data_of};
ghost use Rattle.sch_form_choices.specs.Cases as table;
ghost use Rattle.sch_sketch.specs.SketchView.{sketch_of};

use crate::clauses::is_else;
use sch_names::{Keyword, Scope};
use sch_read::Datum;
use sch_sketch::{
    Kind, Row, Sketch, alone, bad, bind_fresh, choice, local, place_of, quoted, text, truth, two,
    unspecified,
};
use sch_word::{Mem, Primitive};
use std::alloc::Global;

/// Whether a datum is a clause of a `case`.
fn is_case(scope: &Scope, d: &Datum, last: bool) -> bool
    ensures { result ≡ table.is_case scope.now (tree_of d.now) last }
{
    let Some(items) = d.items() else {
        return false;
    };
    let Some((a, es)) = Datum::split(items) else {
        return false;
    };
    let Some(_) = Datum::split(es) else {
        return false;
    };
    if let Some(_) = a.items() {
        return true;
    }
    is_else(scope, a) && last
}

fn are_cases(scope: &Scope, items: &[Datum]) -> bool
    ensures { result ≡ table.are_cases scope.now (data_of items.now) }
{
    for i in 0..items.len() {
        if !is_case(scope, &items[i], i + 1 == items.len()) {
            return false;
        }
    }
    true
}

/// A `case`: its clauses are looked at once for their shape. `(case k c ..)` -> `(let (t k) c ..)`.
pub fn row_case<'a>(
    alloc: Global,
    scope: &Scope,
    at: u32,
    items: &'a [Datum],
) -> Result<Sketch<'a>, Mem>
    ensures { IfOk result (λ k. sketch_of k ≡ table.row_case scope.now at (data_of items.now)) }
{
    let Some((key, clauses)) = Datum::split(items) else {
        return Ok(bad(at));
    };
    let Some(_) = Datum::split(clauses) else {
        return Ok(bad(at));
    };
    if !are_cases(scope, clauses) {
        return Ok(bad(at));
    }
    let made = bind_fresh(alloc, at, text(key), alone(Row::Cases, at, clauses))?;
    Ok(made)
}

/// The clauses from one on: `((d ..) e ..)` -> `(if (or (eqv? t d) ..) (begin e ..) rest)`.
pub fn row_cases<'a>(alloc: Global, at: u32, items: &'a [Datum]) -> Result<Sketch<'a>, Mem>
    ensures { IfOk result (λ k. sketch_of k ≡ table.row_cases at (data_of items.now)) }
{
    let Some((c, others)) = Datum::split(items) else {
        return Ok(unspecified(at));
    };
    let Some(parts) = c.items() else {
        return Ok(bad(at));
    };
    let Some((a, es)) = Datum::split(parts) else {
        return Ok(bad(at));
    };
    let chosen = alone(Row::Form(Keyword::Begin), at, es);
    let Some(data) = a.items() else {
        return Ok(chosen);
    };
    let rest = alone(Row::Cases, place_of(at, others), others);
    let made = choice(alloc, at, alone(Row::Tests, at, data), chosen, rest)?;
    Ok(made)
}

/// Whether the key is a datum.
fn equals<'a>(alloc: Global, at: u32, d: &'a Datum) -> Result<Sketch<'a>, Mem>
    ensures { IfOk result (λ k. sketch_of k ≡ table.equals at (tree_of d.now)) }
{
    let datum = quoted(at, d);
    let made = two(alloc, Kind::Prim(Primitive::Eqv), at, local(at, 0), datum)?;
    Ok(made)
}

/// Whether the key is one of the data.
pub fn row_tests<'a>(alloc: Global, at: u32, items: &'a [Datum]) -> Result<Sketch<'a>, Mem>
    ensures { IfOk result (λ k. sketch_of k ≡ table.row_tests at (data_of items.now)) }
{
    let Some((d, others)) = Datum::split(items) else {
        return Ok(truth(at, false));
    };
    let test = equals(alloc, at, d)?;
    let Some((next, _)) = Datum::split(others) else {
        return Ok(test);
    };
    let rest = alone(Row::Tests, next.offset(), others);
    let made = choice(alloc, at, test, truth(at, true), rest)?;
    Ok(made)
}
