//! Definitions (R5RS 5.2): which data are some, and the names and inits that they bind.

ghost use Rattle.std.specs.Prelude.{◌≡◌, ◌<◌, ◌+◌, ◌&&◌, [], ◌∷◌, ◌++◌, option_map, None, Some, MatchOption, IfOk, OnOk};
ghost use Rattle.sch_read.specs.Grammar.{none, cons};
ghost use Rattle.sch_read.specs.Valid.{weight, weights};
ghost use Rattle.sch_read.specs.Views.{tree_of, data_of};
ghost use Rattle.sch_names.specs.ScopeView.{given_names, one_name};
ghost use Rattle.sch_names.specs.Words.{keyword_of};
ghost use Rattle.sch_sketch.specs.Sketch as words;
ghost use Rattle.sch_sketch.specs.Sketch.{and_sketch};
ghost use Rattle.sch_sketch.specs.SketchView.{sketch_of, ahead};
ghost use Rattle.sch_sketch.specs.Definitions as table;
ghost use Rattle.sch_sketch.specs.Optional.{tree_in};

use crate::formals::{distinct_formals, parts_of};
use crate::sketch::{Row, Sketch};
use crate::small::{alone, bad, text};
use sch_names::{Keyword, Name, Scope, keyword_of};
use sch_read::Datum;
use sch_word::{List, Mem, ToVisit};
use std::alloc::Global;
use std::slice;

/// Whether a part of a body may be a definition: it is one where the parts of a `begin`, which are put before what is left
/// to visit, all are.
fn may_define<'a>(scope: &Scope, d: &'a Datum, left: &mut ToVisit<'a, Datum>) -> Result<bool, Mem>
    ensures defines { IfOk result (λ may. (may && table.are_definitions scope.now (data_of left.new))
        ≡ (table.is_definition scope.now (tree_of d.now) && table.are_definitions scope.now (data_of left.old))) }
    ensures less { OnOk result (weights (data_of left.new) < weight (tree_of d.now) + weights (data_of left.old)) }
{
    let Some(items) = d.items() else {
        return Ok(false);
    };
    let Some((operator, others)) = Datum::split(items) else {
        return Ok(false);
    };
    let Some(x) = operator.name() else {
        return Ok(false);
    };
    if let Some(_) = scope.find(x) {
        return Ok(false);
    }
    match keyword_of(x) {
        Some(Keyword::Define) => Ok(true),
        Some(Keyword::Begin) => {
            left.enter(others)?;
            Ok(true)
        }
        _ => Ok(false),
    }
}

/// Whether all data are definitions.
pub fn are_definitions(alloc: Global, scope: &Scope, items: &[Datum]) -> Result<bool, Mem>
    ensures { IfOk result (λ are. are ≡ table.are_definitions scope.now (data_of items.now)) }
{
    let mut left = ToVisit::new(alloc, items);
    'each: while let Some(d) = left.next() {
        if !may_define(scope, d, &mut left)? {
            return Ok(false);
        }
    }
    Ok(true)
}

/// Whether a part of a body is a definition.
pub fn is_definition(alloc: Global, scope: &Scope, d: &Datum) -> Result<bool, Mem>
    ensures { IfOk result (λ is. is ≡ table.is_definition scope.now (tree_of d.now)) }
{
    let is = are_definitions(alloc, scope, slice::from_ref(d))?;
    Ok(is)
}

/// The name of a procedure that is defined with these formals.
fn defined_procedure<'a>(
    alloc: Global,
    items: &'a [Datum],
    tail: Option<&'a Datum>,
) -> Result<Name<'a>, Mem>
    ensures { IfOk result (λ v. one_name v ≡ table.defined_procedure (data_of items.now) (tree_in tail.entry)) }
{
    let Some((f, names)) = Datum::split(items) else {
        return Ok(None);
    };
    let Some(v) = f.name() else {
        return Ok(None);
    };
    let Some(_) = distinct_formals(alloc, names, tail)? else {
        return Ok(None);
    };
    Ok(Some(v))
}

/// The name that a definition defines, by what follows its word. A badly shaped one has none.
pub fn defined_name<'a>(alloc: Global, items: &'a [Datum]) -> Result<Name<'a>, Mem>
    ensures { IfOk result (λ v. one_name v ≡ table.defined_name (data_of items.now)) }
{
    let Some((first, others)) = Datum::split(items) else {
        return Ok(None);
    };
    let Some((_, more)) = Datum::split(others) else {
        return Ok(None);
    };
    if let Some(v) = first.name() {
        return match Datum::split(more) {
            None => Ok(Some(v)),
            Some(_) => Ok(None),
        };
    }
    let (names, tail) = parts_of(first);
    let v = defined_procedure(alloc, names, tail)?;
    Ok(v)
}

/// What a definition defines its name as.
pub fn defined_sketch<'a>(at: u32, items: &'a [Datum]) -> Sketch<'a>
    ensures { sketch_of result ≡ table.defined_sketch at (data_of items.now) }
{
    let Some((first, others)) = Datum::split(items) else {
        return bad(at);
    };
    let Some(_) = first.atom() else {
        return alone(Row::Method, at, items);
    };
    let Some(_) = first.name() else {
        return bad(at);
    };
    let Some((e, more)) = Datum::split(others) else {
        return bad(at);
    };
    match Datum::split(more) {
        None => text(e),
        Some(_) => bad(at),
    }
}

/// Adds one definition.
fn add_one<'a>(
    alloc: Global,
    at: u32,
    items: &'a [Datum],
    names: &mut List<Name<'a>>,
    parts: &mut List<Sketch<'a>>,
) -> Result<(), Mem>
    ensures names { OnOk result (given_names names.new ≡ given_names names.old ++ table.defined_name (data_of items.now) ∷ []) }
    ensures parts { OnOk result ((ks : words.Sketches) → ahead parts.new ks
        ≡ ahead parts.old (and_sketch (table.defined_sketch at (data_of items.now)) ks)) }
{
    let v = defined_name(alloc, items)?;
    names.push(v)?;
    parts.push(defined_sketch(at, items))?;
    Ok(())
}

fn is_define(x: &[u8]) -> bool
    ensures { result ≡ table.is_define_word (keyword_of x.now) }
{
    match keyword_of(x) {
        Some(Keyword::Define) => true,
        _ => false,
    }
}

/// Adds the definition that a datum is, or puts the parts of a `begin` before what is left to visit.
fn add_next<'a>(
    alloc: Global,
    d: &'a Datum,
    left: &mut ToVisit<'a, Datum>,
    names: &mut List<Name<'a>>,
    parts: &mut List<Sketch<'a>>,
) -> Result<(), Mem>
    ensures names { OnOk result (given_names names.new ++ table.names_of_each (data_of left.new)
        ≡ given_names names.old ++ (table.names_in (tree_of d.now) ++ table.names_of_each (data_of left.old))) }
    ensures parts { OnOk result ((ks : words.Sketches) → ahead parts.new (table.inits_of_each (data_of left.new) ks)
        ≡ ahead parts.old (table.inits_in (tree_of d.now) (table.inits_of_each (data_of left.old) ks))) }
    ensures less { OnOk result (weights (data_of left.new) < weight (tree_of d.now) + weights (data_of left.old)) }
{
    let Some(items) = d.items() else {
        return Ok(());
    };
    let Some((operator, others)) = Datum::split(items) else {
        return Ok(());
    };
    let Some(w) = operator.name() else {
        return Ok(());
    };
    if is_define(w) {
        add_one(alloc, d.offset(), others, names, parts)?;
        return Ok(());
    }
    left.enter(others)?;
    Ok(())
}

/// Adds the definitions of a datum that is one.
pub fn add_definition<'a>(
    alloc: Global,
    d: &'a Datum,
    names: &mut List<Name<'a>>,
    parts: &mut List<Sketch<'a>>,
) -> Result<(), Mem>
    ensures names { OnOk result (given_names names.new ≡ given_names names.old ++ table.names_in (tree_of d.now)) }
    ensures parts { OnOk result ((ks : words.Sketches) → ahead parts.new ks ≡ ahead parts.old (table.inits_in (tree_of d.now) ks)) }
{
    let mut left = ToVisit::new(alloc, slice::from_ref(d));
    'each: while let Some(next) = left.next() {
        add_next(alloc, next, &mut left, names, parts)?;
    }
    Ok(())
}
