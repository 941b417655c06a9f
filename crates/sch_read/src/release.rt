//! The end of data, however deep: a loop that takes no memory.

ghost use Rattle.std.specs.Prelude.{◌≡◌, ◌+◌, ◌<◌, [], length, IfNone, IsSome};
ghost use Rattle.sch_read.specs.ReleaseEffort.{weight_next, weight_last};
ghost use Rattle.sch_word.specs.values.Effort.{effort};
ghost use Rattle.sch_read.specs.Valid.{weight, weights};
ghost use Rattle.sch_read.specs.Views.{tree_of, data_of};

use crate::datum::{Datum, Node};
use sch_word::List;
use std::mem;

/// Lets go of a node and all below it.
pub(crate) fn release(node: Node) {
    match node {
        Node::List(items, last) => release_all(items.into_vec(), last),
        Node::Vector(items) => release_all(items.into_vec(), None),
        Node::Atom(_) => {}
    }
}

fn release_all(items: Vec<Datum>, last: Option<Box<Datum>>) {
    let (mut next, mut rest) = taken(items, last);
    'each: while let Some(d) = next {
        let (after, left) = opened(d, rest);
        next = after;
        rest = left;
    }
    rest.destroy_empty();
}

// One of several data, the one after the dot first, and the others.
#[tactic(auto, using(crate::proofs::ReleaseEffort::weights_push))]
fn taken(items: Vec<Datum>, last: Option<Box<Datum>>) -> (Option<Datum>, Vec<Datum>)
    ensures all { weight_next result.0 + weights (data_of result.1.items) ≡ weights (data_of items.items) + weight_last last }
    ensures none { IfNone result.0 (result.1.items ≡ []) }
{
    let mut items = items;
    match last {
        Some(d) => (Some(Box::into_inner(d)), items),
        None => match items.pop() {
            Some(d) => (Some(d), items),
            None => (None, items),
        },
    }
}

// Takes a datum apart. Its parts join the rest, and one of all is next.
fn opened(d: Datum, rest: Vec<Datum>) -> (Option<Datum>, Vec<Datum>)
    ensures less { effort (weight_next result.0) (weights (data_of result.1.items))
        < effort (weight (tree_of d)) (weights (data_of rest.items)) }
    ensures none { IfNone result.0 (result.1.items ≡ []) }
{
    let (_, node) = d.into_parts();
    match node {
        Node::List(items, last) => joined(rest, items.into_vec(), last),
        Node::Vector(items) => joined(rest, items.into_vec(), None),
        Node::Atom(_) => taken(rest, None),
    }
}

// The rest and a datum's parts together.
fn joined(
    rest: Vec<Datum>,
    items: Vec<Datum>,
    last: Option<Box<Datum>>,
) -> (Option<Datum>, Vec<Datum>)
    ensures less { effort (weight_next result.0) (weights (data_of result.1.items))
        < effort (1 + weights (data_of items.items) + weight_last last) (weights (data_of rest.items)) }
    ensures none { IfNone result.0 (result.1.items ≡ []) }
{
    if items.is_empty() {
        items.destroy_empty();
        taken(rest, last)
    } else if rest.is_empty() {
        rest.destroy_empty();
        taken(items, last)
    } else {
        swapped(rest, items, last)
    }
}

// The rest becomes a datum that stands in the place of the first part, and that part is next. So the
// parts, which are untouched below, come to an end before the rest is taken up again.
fn swapped(
    rest: Vec<Datum>,
    items: Vec<Datum>,
    last: Option<Box<Datum>>,
) -> (Option<Datum>, Vec<Datum>)
    requires { 0 < length items.items }
    ensures less { effort (weight_next result.0) (weights (data_of result.1.items))
        < effort (1 + weights (data_of items.items) + weight_last last) (weights (data_of rest.items)) }
    ensures some { IsSome result.0 }
{
    let mut items = items;
    let node = Node::List(List::from_vec(rest), last);
    let first = mem::replace(&mut items[0], Datum { at: 0, node });
    (Some(first), items)
}
