//! The definitions at the head of a body, and whether data are a body (R5RS 5.2.2).

ghost use Rattle.std.specs.Prelude.{◌≡◌, ◌++◌, ◌-◌, length, drop, true, false, IfOk, IsTrue, OnOk};
ghost use Rattle.sch_read.specs.Views.{data_of, tree_of};
ghost use Rattle.sch_names.specs.Scope as names;
ghost use Rattle.sch_names.specs.Scope.{onto};
ghost use Rattle.sch_names.specs.ScopeView.{given_names};
ghost use Rattle.sch_sketch.specs.Sketch as words;
ghost use Rattle.sch_sketch.specs.SketchView.{ahead};
ghost use Rattle.sch_sketch.specs.BodyHeads as table;
ghost use Rattle.sch_sketch.specs.Definitions as definitions;

use crate::definitions::{add_definition, are_definitions, is_definition};
use crate::distinct::are_distinct;
use crate::sketch::Sketch;
use sch_names::{Keyword, Name, Scope, keyword_of};
use sch_read::Datum;
use sch_word::{List, Mem};
use std::alloc::Global;

/// Adds the definitions at the head of a body, and gives what follows them.
pub fn add_head<'a>(
    alloc: Global,
    scope: &Scope,
    items: &'a [Datum],
    names: &mut List<Name<'a>>,
    parts: &mut List<Sketch<'a>>,
) -> Result<&'a [Datum], Mem>
    ensures names { OnOk result (given_names names.new ≡ given_names names.old ++ table.body_names scope.now (data_of items.now)) }
    ensures parts { OnOk result ((ks : words.Sketches) → ahead parts.new ks ≡ ahead parts.old (table.body_inits scope.now (data_of items.now) ks)) }
    ensures rest { IfOk result (λ es. data_of es.now ≡ table.expressions scope.now (data_of items.now)) }
{
    for i in 0..items.len() {
        if !is_definition(alloc, scope, &items[i])? {
            return Ok(&items[i..]);
        }
        add_definition(alloc, &items[i], names, parts)?;
    }
    Ok(&[])
}

/// Whether data of this scope are a body.
fn is_body_here(alloc: Global, scope: &Scope, items: &[Datum]) -> Result<bool, Mem>
    ensures { IfOk result (λ b. b ≡ table.is_body scope.now (data_of items.now)) }
{
    if are_definitions(alloc, scope, items)? {
        return Ok(false);
    }
    let mut names = List::new(alloc);
    let mut parts = List::new(alloc);
    add_head(alloc, scope, items, &mut names, &mut parts)?;
    let distinct = are_distinct(alloc, names.as_slice())?;
    Ok(distinct)
}

/// Whether a datum is no definition by its form and its head, whatever variables there are.
fn never_defines(d: &Datum) -> bool
    ensures { IsTrue result → (s : names.Scope) → definitions.is_definition s (tree_of d.now) ≡ false }
{
    let Some(items) = d.items() else {
        return true;
    };
    let Some((operator, _)) = Datum::split(items) else {
        return true;
    };
    let Some(x) = operator.name() else {
        return true;
    };
    match keyword_of(x) {
        Some(Keyword::Define) => false,
        Some(Keyword::Begin) => false,
        _ => true,
    }
}

/// Whether data are a body by the first of them, whatever variables there are.
fn begins_with_expression(items: &[Datum]) -> bool
    ensures { IsTrue result → (s : names.Scope) → table.is_body s (data_of items.now) ≡ true }
{
    let Some((first, _)) = Datum::split(items) else {
        return false;
    };
    never_defines(first)
}

/// Whether data are a body inside these variables.
///
/// Where the first is no definition, nothing is bound to find that out.
pub fn is_body(
    alloc: Global,
    scope: &mut Scope,
    names: &[Name<'_>],
    items: &[Datum],
) -> Result<bool, Mem>
    ensures is { IfOk result (λ b. b ≡ table.is_body (onto (given_names names.now) scope.old) (data_of items.now)) }
    ensures scope { OnOk result (scope.new ≡ scope.old) }
{
    if begins_with_expression(items) {
        return Ok(true);
    }
    let depth = scope.depth();
    scope.bind_all(alloc, names)?;
    let is = is_body_here(alloc, scope, items)?;
    scope.leave(depth);
    Ok(is)
}
