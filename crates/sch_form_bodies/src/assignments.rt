//! Assignments, and definitions at top level.

ghost use Rattle.std.specs.Prelude.{◌≡◌, Some, None, option_map, MatchOption, IfOk};
ghost use Rattle.sch_read.specs.Grammar.{none, cons};
ghost use Rattle.sch_read.specs.Views.{tree_of, data_of};
ghost use Rattle.sch_names.specs.NamesView.{globals_of};
ghost use Rattle.sch_names.specs.Scope.{find, is_among};
ghost use Rattle.sch_names.specs.ScopeView.{one_name};
ghost use Rattle.sch_names.specs.Words.{keyword_of};
ghost use Rattle.sch_sketch.specs.SketchView.{sketch_of};
ghost use Rattle.sch_form_bodies.specs.Assignments as table;

use sch_names::{Globals, Keyword, Name, Scope, keyword_of};
use sch_read::Datum;
use sch_sketch::{
    Kind, Sketch, Wrong, bad, defined_name, defined_sketch, one, parts_of, text, two,
};
use sch_word::Mem;
use std::alloc::Global;

/// The operands of a `set!`, as they stand in the text.
#[derive(Clone, Copy)]
struct Assigned<'a> {
    variable: &'a Datum,
    value: &'a Datum,
}

/// An assignment to a variable.
fn assignment<'a>(
    alloc: Global,
    globals: &Globals,
    scope: &Scope,
    at: u32,
    parts: Assigned<'a>,
) -> Result<Sketch<'a>, Mem>
    ensures { IfOk result (λ k. sketch_of k
        ≡ table.assigning (globals_of globals.now) scope.now at (tree_of parts.entry.variable.now) (tree_of parts.entry.value.now)) }
{
    let Assigned { variable, value } = parts;
    let Some(x) = variable.name() else {
        return Ok(bad(at));
    };
    if let Some(k) = scope.find(x) {
        let made = one(alloc, Kind::SetLocal(k), at, text(value))?;
        return Ok(made);
    }
    if let Some(_) = keyword_of(x) {
        return Ok(bad(at));
    }
    if globals.bound.contains(x) {
        let made = one(alloc, Kind::SetGlobal(x), at, text(value))?;
        return Ok(made);
    }
    let unbound = Sketch::Wrong(Wrong::Unbound(variable.offset(), x));
    let made = two(alloc, Kind::SetGlobal(x), at, unbound, text(value))?;
    Ok(made)
}

/// A `set!`.
pub fn row_set<'a>(
    alloc: Global,
    globals: &Globals,
    scope: &Scope,
    at: u32,
    items: &'a [Datum],
) -> Result<Sketch<'a>, Mem>
    ensures { IfOk result (λ k. sketch_of k ≡ table.row_set (globals_of globals.now) scope.now at (data_of items.now)) }
{
    let Some((variable, others)) = Datum::split(items) else {
        return Ok(bad(at));
    };
    let Some((value, more)) = Datum::split(others) else {
        return Ok(bad(at));
    };
    let None = Datum::split(more) else {
        return Ok(bad(at));
    };
    let made = assignment(alloc, globals, scope, at, Assigned { variable, value })?;
    Ok(made)
}

/// The name at the head of these data.
fn first_name(items: &[Datum]) -> Name<'_>
    ensures { one_name result ≡ table.first_name (data_of items.now) }
{
    let Some((d, _)) = Datum::split(items) else {
        return None;
    };
    let Some(v) = d.name() else {
        return None;
    };
    Some(v)
}

/// The name at which a definition aims, well shaped or not.
fn aimed_name(items: &[Datum]) -> Name<'_>
    ensures { one_name result ≡ table.aimed_name (data_of items.now) }
{
    let Some((d, _)) = Datum::split(items) else {
        return None;
    };
    if let Some(v) = d.name() {
        return Some(v);
    }
    let (parts, _) = parts_of(d);
    first_name(parts)
}

/// The keyword at which a definition aims.
fn aimed_keyword(items: &[Datum]) -> Option<Keyword>
    ensures { result ≡ table.keyword_at (table.aimed_name (data_of items.now)) }
{
    match aimed_name(items) {
        Some(v) => keyword_of(v),
        None => None,
    }
}

/// A definition at top level, by what follows its word.
pub fn row_define<'a>(alloc: Global, at: u32, items: &'a [Datum]) -> Result<Sketch<'a>, Mem>
    ensures { IfOk result (λ k. sketch_of k ≡ table.row_define at (data_of items.now)) }
{
    if let Some(_) = aimed_keyword(items) {
        return Ok(Sketch::Wrong(Wrong::KeywordDefined(at)));
    }
    let Some(v) = defined_name(alloc, items)? else {
        return Ok(bad(at));
    };
    let made = one(alloc, Kind::Define(v), at, defined_sketch(at, items))?;
    Ok(made)
}
