//! Data in the order in which each comes before its parts. What is still to visit lies in memory, so levels take no
//! part of the machine's stack.

ghost use Rattle.std.specs.Prelude.{◌≡◌, ◌∷◌, ◌++◌, IfOk, OnOk};
ghost use Rattle.sch_word.specs.trees.InOrder.{AreInOrder};
ghost use Rattle.sch_read.specs.DatumParts.{parts, trees_of, lent_trees};
ghost use Rattle.sch_read.specs.Views.{tree_of};

use crate::datum::{Datum, Node};
use sch_word::{List, Mem, ToVisit};
use std::alloc::Global;
use std::slice;

/// Puts a datum before what is left to visit.
fn enter_datum<'a>(d: &'a Datum, left: &mut ToVisit<'a, Datum>) -> Result<(), Mem>
    ensures { OnOk result (trees_of left.new ≡ tree_of d.now ∷ trees_of left.old) }
{
    left.enter(slice::from_ref(d))
}

/// Puts the parts of a datum before what is left to visit.
pub fn enter_parts<'a>(d: &'a Datum, left: &mut ToVisit<'a, Datum>) -> Result<(), Mem>
    ensures { OnOk result (trees_of left.new ≡ parts (tree_of d.now) ++ trees_of left.old) }
{
    match &d.node {
        Node::Atom(_) => Ok(()),
        Node::List(parts, None) => left.enter(parts.as_slice()),
        Node::List(parts, Some(last)) => {
            enter_datum(last, left)?;
            left.enter(parts.as_slice())?;
            Ok(())
        }
        Node::Vector(parts) => left.enter(parts.as_slice()),
    }
}

/// These data and all in them, each before its parts.
pub fn data_in_order<'a>(alloc: Global, items: &'a [Datum]) -> Result<List<&'a Datum>, Mem>
    ensures { IfOk result (λ order. AreInOrder parts (lent_trees order) (trees_of items.now)) }
{
    let mut left = ToVisit::new(alloc, items);
    let mut order = List::new(alloc);
    'each: while let Some(d) = left.next() {
        order.push(d)?;
        enter_parts(d, &mut left)?;
    }
    Ok(order)
}
