//! The literals that data are.

ghost use Rattle.std.specs.Prelude.{◌≡◌, ◌<◌, ◌^◌, ◌++◌, length, IfOk, OnOk};
ghost use Rattle.sch_word.specs.values.LiteralView.{literal, literals_of};
ghost use Rattle.sch_word.specs.values.MadeView.{made};
ghost use Rattle.sch_read.specs.Views.{tree_of, atom_of};
ghost use Rattle.sch_names.specs.NamesView.{names_of};
ghost use Rattle.sch_link_tables.specs.Quoted.{literal_of_atom, literal_of, list_of, literals_of_parts, ArePartsReady};

use crate::tables::number_in;
use sch_names::Names;
use sch_read::{Atom, Datum, Node, data_in_order};
use sch_word::{Const, List, Lit, MadeLiterals, Mem};
use std::alloc::Global;
use std::slice;

/// The literal of an atom.
fn quote_atom(alloc: Global, symbols: &Names, a: &Atom) -> Result<Lit, Mem>
    requires few { length (names_of symbols.now) < 2 ^ 32 }
    ensures { IfOk result (λ l. literal l ≡ literal_of_atom (names_of symbols.now) (atom_of a.now)) }
{
    match a {
        Atom::Boolean(b) => Ok(Lit::Constant(Const::Boolean(*b))),
        Atom::Integer(n) => Ok(Lit::Constant(Const::Fixnum(*n))),
        Atom::Character(c) => Ok(Lit::Constant(Const::Character(*c))),
        Atom::Text(bytes) => Ok(Lit::Text(List::from_slice(alloc, bytes.as_slice())?)),
        Atom::Symbol(x) => {
            let n = number_in(symbols, x.as_slice());
            Ok(Lit::Constant(Const::Symbol(n)))
        }
    }
}

/// The literal of a list without a dot.
fn list_of(alloc: Global, items: List<Lit>) -> Result<Lit, Mem>
    ensures { IfOk result (λ l. literal l ≡ list_of (literals_of items)) }
{
    if items.len() == 0 {
        return Ok(Lit::Constant(Const::Nil));
    }
    let end = Box::new(alloc, Lit::Constant(Const::Nil))?;
    Ok(Lit::List(items, end))
}

/// The literal of a datum, of the literals of its parts. Those are taken away from the front.
fn quote_node(
    alloc: Global,
    symbols: &Names,
    d: &Datum,
    literals: &mut MadeLiterals,
) -> Result<Lit, Mem>
    requires few { length (names_of symbols.now) < 2 ^ 32 }
    requires ready { ArePartsReady (names_of symbols.now) (tree_of d.now) (made literals.old) }
    ensures same { IfOk result (λ l. literal l ≡ literal_of (names_of symbols.now) (tree_of d.now)) }
    ensures taken { OnOk result (made literals.old ≡ literals_of_parts (names_of symbols.now) (tree_of d.now) ++ made literals.new) }
{
    match &d.node {
        Node::Atom(a) => quote_atom(alloc, symbols, a),
        Node::List(items, None) => {
            let items = literals.take(items.len())?;
            list_of(alloc, items)
        }
        Node::List(items, Some(_)) => {
            let items = literals.take(items.len())?;
            let end = Box::new(alloc, literals.pop())?;
            Ok(Lit::List(items, end))
        }
        Node::Vector(items) => {
            let items = literals.take(items.len())?;
            Ok(Lit::Vector(items))
        }
    }
}

/// The literal of a datum. What is made before it lies in memory, so levels take no part of the machine's stack.
pub fn quote(alloc: Global, symbols: &Names, d: &Datum) -> Result<Lit, Mem>
    requires few { length (names_of symbols.now) < 2 ^ 32 }
    ensures { IfOk result (λ l. literal l ≡ literal_of (names_of symbols.now) (tree_of d.now)) }
{
    let mut order = data_in_order(alloc, slice::from_ref(d))?;
    let mut literals = MadeLiterals::new(alloc);
    'each: while let Some(node) = order.pop() {
        let l = quote_node(alloc, symbols, node, &mut literals)?;
        literals.push(l)?;
    }
    Ok(literals.pop())
}
