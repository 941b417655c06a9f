//! Bodies and procedures.

ghost use Rattle.std.specs.Prelude.{◌≡◌, [], ◌∷◌, ◌++◌, ◌-◌, length, drop, is_some, IfOk, OnOk};
ghost use Rattle.sch_read.specs.Grammar.{none, cons};
ghost use Rattle.sch_read.specs.Views.{tree_of, data_of};
ghost use Rattle.sch_names.specs.Scope.{onto};
ghost use Rattle.sch_names.specs.ScopeView.{given_names};
ghost use Rattle.sch_sketch.specs.Sketch as words;
ghost use Rattle.sch_sketch.specs.SketchView.{sketch_of, ahead};
ghost use Rattle.sch_sketch.specs.Formals.{formals, are_formals};
ghost use Rattle.sch_sketch.specs.Optional.{AreGiven, tree_in};
ghost use Rattle.sch_form_bodies.specs.Bodies as table;

use sch_names::{Keyword, Scope};
use sch_read::Datum;
use sch_sketch::{
    Bindings, Kind, Row, Sketch, add_head, alone, bad, distinct_formals, group, is_body,
    is_definition, one, parts_of,
};
use sch_word::{List, Mem};
use std::alloc::Global;

/// A body that begins with definitions.
fn defining_body<'a>(
    alloc: Global,
    scope: &mut Scope,
    at: u32,
    items: &'a [Datum],
) -> Result<Sketch<'a>, Mem>
    ensures made { IfOk result (λ k. sketch_of k ≡ table.defining_body scope.old at (data_of items.now)) }
    ensures scope { OnOk result (scope.new ≡ scope.old) }
{
    let mut names = List::new(alloc);
    let mut parts = List::new(alloc);
    let es = add_head(alloc, scope, items, &mut names, &mut parts)?;
    let last = alone(Row::Form(Keyword::Begin), at, es);
    let bound = Bindings {
        names,
        inits: parts,
    };
    let made = group(alloc, scope, at, bound, last)?;
    Ok(made)
}

/// A body.
pub fn row_body<'a>(
    alloc: Global,
    scope: &mut Scope,
    at: u32,
    items: &'a [Datum],
) -> Result<Sketch<'a>, Mem>
    ensures made { IfOk result (λ k. sketch_of k ≡ table.row_body scope.old at (data_of items.now)) }
    ensures scope { OnOk result (scope.new ≡ scope.old) }
{
    let Some((e, _)) = Datum::split(items) else {
        return Ok(bad(at));
    };
    if is_definition(alloc, scope, e)? {
        let made = defining_body(alloc, scope, at, items)?;
        return Ok(made);
    }
    Ok(alone(Row::Form(Keyword::Begin), at, items))
}

/// The formals of a procedure, as they stand in the text, with the one after a dot.
#[derive(Clone, Copy)]
struct Formals<'a> {
    items: &'a [Datum],
    tail: Option<&'a Datum>,
}

/// A procedure with these formals.
fn procedure<'a>(
    alloc: Global,
    scope: &mut Scope,
    at: u32,
    given: Formals<'a>,
    body: &'a [Datum],
) -> Result<Sketch<'a>, Mem>
    ensures made { IfOk result (λ k. sketch_of k
        ≡ table.procedure scope.old at (data_of given.entry.items.now) (tree_in given.entry.tail) (data_of body.now)) }
    ensures scope { OnOk result (scope.new ≡ scope.old) }
{
    let Formals { items, tail } = given;
    let rest = tail.is_some();
    let Some(names) = distinct_formals(alloc, items, tail)? else {
        return Ok(bad(at));
    };
    if !is_body(alloc, scope, names.as_slice(), body)? {
        return Ok(bad(at));
    }
    let made = one(
        alloc,
        Kind::Lambda(names, rest),
        at,
        alone(Row::Body, at, body),
    )?;
    Ok(made)
}

/// A `lambda`.
pub fn row_lambda<'a>(
    alloc: Global,
    scope: &mut Scope,
    at: u32,
    items: &'a [Datum],
) -> Result<Sketch<'a>, Mem>
    ensures made { IfOk result (λ k. sketch_of k ≡ table.row_lambda scope.old at (data_of items.now)) }
    ensures scope { OnOk result (scope.new ≡ scope.old) }
{
    let Some((first, body)) = Datum::split(items) else {
        return Ok(bad(at));
    };
    let (items, tail) = parts_of(first);
    let made = procedure(alloc, scope, at, Formals { items, tail }, body)?;
    Ok(made)
}

/// What follows `define` in `(define (v . F) e ..)`.
pub fn row_method<'a>(
    alloc: Global,
    scope: &mut Scope,
    at: u32,
    items: &'a [Datum],
) -> Result<Sketch<'a>, Mem>
    ensures made { IfOk result (λ k. sketch_of k ≡ table.row_method scope.old at (data_of items.now)) }
    ensures scope { OnOk result (scope.new ≡ scope.old) }
{
    let Some((first, body)) = Datum::split(items) else {
        return Ok(bad(at));
    };
    let (parts, tail) = parts_of(first);
    let Some((v, items)) = Datum::split(parts) else {
        return Ok(bad(at));
    };
    let Some(_) = v.name() else {
        return Ok(bad(at));
    };
    let made = procedure(alloc, scope, at, Formals { items, tail }, body)?;
    Ok(made)
}
