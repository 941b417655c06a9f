//! Data, made of what was read.

ghost use Rattle.std.specs.Prelude.{◌≡◌, ◌++◌, IfOk, reverse};
ghost use Rattle.sch_read.specs.Grammar.{atom, list, dotted, vector, quoted, with_tail, symbol};
ghost use Rattle.sch_read.specs.Views.{atom_of, tree_of, data_of};

use crate::datum::{Atom, Datum, Node};
use sch_word::{List, Mem};
use std::alloc::Global;

pub(crate) fn plain(at: u32, value: Atom) -> Datum
    ensures { tree_of result ≡ atom at (atom_of value) }
{
    let node = Node::Atom(value);
    Datum { at, node }
}

pub(crate) fn listed(at: u32, items: List<Datum>) -> Datum
    ensures { tree_of result ≡ list at (data_of items) }
{
    let node = Node::List(items, None);
    Datum { at, node }
}

pub(crate) fn dotted(at: u32, items: List<Datum>, last: Box<Datum>) -> Datum
    ensures { tree_of result ≡ dotted at (data_of items) (tree_of last.value) }
{
    let node = Node::List(items, Some(last));
    Datum { at, node }
}

pub(crate) fn elements(at: u32, items: List<Datum>) -> Datum
    ensures { tree_of result ≡ vector at (data_of items) }
{
    let node = Node::Vector(items);
    Datum { at, node }
}

/// `(quote d)`, which `'d` means.
pub(crate) fn quote(alloc: Global, at: u32, d: Datum) -> Result<Datum, Mem>
    ensures { IfOk result (λ q. tree_of q ≡ quoted at (tree_of d)) }
{
    let name = List::from_slice(alloc, b"quote")?;
    let mut items = List::from_vec(Vec::with_capacity(alloc, 2)?);
    items.push(plain(at, Atom::Symbol(name)))?;
    items.push(d)?;
    Ok(listed(at, items))
}

/// A list with a datum after its dot.
#[tactic(auto, using(crate::proofs::DataLists::data_of_append))]
pub(crate) fn tailed(alloc: Global, at: u32, items: List<Datum>, last: Datum) -> Result<Datum, Mem>
    ensures { IfOk result (λ d. tree_of d ≡ with_tail at (data_of items) (tree_of last)) }
{
    let (place, node) = last.into_parts();
    let mut items = items;
    match node {
        Node::List(more, tail) => {
            items.append(more)?;
            match tail {
                None => Ok(listed(at, items)),
                Some(tip) => Ok(dotted(at, items, tip)),
            }
        }
        node => {
            let tail = Box::new(alloc, Datum { at: place, node })?;
            Ok(dotted(at, items, tail))
        }
    }
}

/// The data of `before`, the last first, behind those of `onto`.
pub(crate) fn append_reversed(before: List<Datum>, onto: List<Datum>) -> Result<List<Datum>, Mem>
    ensures { IfOk result (λ items. items ≡ onto ++ reverse before) }
{
    let mut before = before;
    let mut onto = onto;
    'each: while let Some(d) = before.pop() {
        onto.push(d)?;
    }
    Ok(onto)
}
