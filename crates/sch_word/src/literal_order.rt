//! Literals in the order in which each comes before its parts. What is still to visit lies in memory, so levels take no
//! part of the machine's stack.

ghost use Rattle.std.specs.Prelude.{◌≡◌, ◌++◌, IfOk, OnOk};
ghost use Rattle.sch_word.specs.trees.InOrder.{AreInOrder};
ghost use Rattle.sch_word.specs.values.LiteralParts.{parts, plain, lent};
ghost use Rattle.sch_word.specs.values.LiteralView.{literal};

use crate::list::List;
use crate::literal::Lit;
use crate::mem::Mem;
use crate::to_visit::ToVisit;
use std::alloc::Global;
use std::slice;

/// Puts the parts of a literal before what is left to visit.
fn enter_parts<'a>(l: &'a Lit, left: &mut ToVisit<'a, Lit>) -> Result<(), Mem>
    ensures { OnOk result (plain left.new ≡ parts (literal l.now) ++ plain left.old) }
{
    match l {
        Lit::Constant(_) => Ok(()),
        Lit::Text(_) => Ok(()),
        Lit::List(items, tail) => {
            let end: &'a Lit = tail;
            left.enter(slice::from_ref(end))?;
            left.enter(items.as_slice())?;
            Ok(())
        }
        Lit::Vector(items) => {
            left.enter(items.as_slice())?;
            Ok(())
        }
    }
}

/// These literals and all in them, each before its parts.
pub fn literals_in_order<'a>(alloc: Global, literals: &'a [Lit]) -> Result<List<&'a Lit>, Mem>
    ensures { IfOk result (λ order. AreInOrder parts (lent order) (plain literals.now)) }
{
    let mut left = ToVisit::new(alloc, literals);
    let mut order = List::new(alloc);
    'each: while let Some(l) = left.next() {
        order.push(l)?;
        enter_parts(l, &mut left)?;
    }
    Ok(order)
}
