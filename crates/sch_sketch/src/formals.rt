//! The formals of procedures.

ghost use Rattle.std.specs.Prelude.{◌≡◌, ◌++◌, ◌∷◌, [], option_map, MatchOption, IfOk};
ghost use Rattle.sch_read.specs.Grammar.{none, cons};
ghost use Rattle.sch_read.specs.Parts.{IsNoSymbol};
ghost use Rattle.sch_read.specs.Views.{tree_of, data_of};
ghost use Rattle.sch_names.specs.ScopeView.{given_names};
ghost use Rattle.sch_sketch.specs.Formals as table;
ghost use Rattle.sch_sketch.specs.Optional.{AreGiven, tree_in};

use crate::distinct::are_distinct;
use sch_names::Name;
use sch_read::{Datum, Node};
use sch_word::{List, Mem};
use std::alloc::Global;

/// What stands in a list, and after its dot. Of what is no list, that alone.
pub fn parts_of(d: &Datum) -> (&[Datum], Option<&Datum>)
    ensures listed { data_of result.0.now ≡ table.listed (tree_of d.now) }
    ensures tail { tree_in result.1 ≡ table.tail_of (tree_of d.now) }
{
    match &d.node {
        Node::List(items, None) => (items.as_slice(), None),
        Node::List(items, Some(tail)) => (items.as_slice(), Some(tail)),
        _ => (&[], Some(d)),
    }
}

/// The names that symbols are, where the data are symbols.
fn symbols<'a>(alloc: Global, items: &'a [Datum]) -> Result<Option<List<Name<'a>>>, Mem>
    ensures { IfOk result (AreGiven (table.are_symbols (data_of items.now)) (table.symbols (data_of items.now))) }
{
    let mut names = List::new(alloc);
    for d in items {
        let Some(x) = d.name() else {
            return Ok(None);
        };
        names.push(Some(x))?;
    }
    Ok(Some(names))
}

/// The names of formals, where they are names.
fn formal_names<'a>(
    alloc: Global,
    items: &'a [Datum],
    tail: Option<&'a Datum>,
) -> Result<Option<List<Name<'a>>>, Mem>
    ensures { IfOk result (AreGiven (table.are_names (data_of items.now) (tree_in tail.entry)) (table.formals (data_of items.now) (tree_in tail.entry))) }
{
    let Some(mut names) = symbols(alloc, items)? else {
        return Ok(None);
    };
    let Some(f) = tail else {
        return Ok(Some(names));
    };
    let Some(x) = f.name() else {
        return Ok(None);
    };
    names.push(Some(x))?;
    Ok(Some(names))
}

/// The names of formals, where they are names and no name stands twice.
pub fn distinct_formals<'a>(
    alloc: Global,
    items: &'a [Datum],
    tail: Option<&'a Datum>,
) -> Result<Option<List<Name<'a>>>, Mem>
    ensures { IfOk result (AreGiven (table.are_formals (data_of items.now) (tree_in tail.entry)) (table.formals (data_of items.now) (tree_in tail.entry))) }
{
    let Some(names) = formal_names(alloc, items, tail)? else {
        return Ok(None);
    };
    if !are_distinct(alloc, names.as_slice())? {
        return Ok(None);
    }
    Ok(Some(names))
}
