//! What stands ready when a program starts, the same in every language, and copies of it.

ghost use Rattle.std.specs.Prelude.{◌≡◌, ◌++◌, IfOk, OnOk};
ghost use Rattle.sch_word.specs.values.LiteralParts.{parts, AreReady};
ghost use Rattle.sch_word.specs.values.LiteralView.{literal, literals_of};
ghost use Rattle.sch_word.specs.values.MadeView.{made};
ghost use Rattle.sch_word.specs.values.StaticsView.{statics, statics_of};

use crate::list::{Bytes, List};
use crate::literal::Lit;
use crate::literal_order::literals_in_order;
use crate::made_literals::MadeLiterals;
use crate::mem::Mem;
use std::alloc::Global;

/// The names of a program's symbols, its literals, and its globals, each with the library's procedure
/// of that number or unset.
#[derive(Drop)]
pub struct Statics {
    pub symbols: List<Bytes>,
    pub literals: List<Lit>,
    pub globals: List<Option<u32>>,
}

impl Statics {
    /// Copies of these.
    pub fn from_parts(
        alloc: Global,
        symbols: &List<Bytes>,
        literals: &List<Lit>,
        globals: &List<Option<u32>>,
    ) -> Result<Statics, Mem>
        ensures { IfOk result (λ made. statics made ≡ statics_of symbols.now literals.now globals.now) }
    {
        let symbols = copy_names(alloc, symbols)?;
        let literals = copy_literals(alloc, literals)?;
        let globals = List::from_slice(alloc, globals.as_slice())?;
        Ok(Statics {
            symbols,
            literals,
            globals,
        })
    }

    /// A copy of these.
    pub fn copy(&self, alloc: Global) -> Result<Statics, Mem>
        ensures { IfOk result (λ made. statics made ≡ statics self.now) }
    {
        Statics::from_parts(alloc, &self.symbols, &self.literals, &self.globals)
    }
}

fn copy_names(alloc: Global, names: &List<Bytes>) -> Result<List<Bytes>, Mem>
    ensures { IfOk result (λ made. made ≡ names.now) }
{
    let mut all = List::new(alloc);
    for name in names.as_slice() {
        all.push(List::from_slice(alloc, name.as_slice())?)?;
    }
    Ok(all)
}

// A copy of a literal, of the copies of its parts. Those are taken away from the front of the copies.
fn copy_literal(alloc: Global, l: &Lit, copies: &mut MadeLiterals) -> Result<Lit, Mem>
    requires { AreReady (literal l.now) (made copies.old) }
    ensures same { IfOk result (λ copy. literal copy ≡ literal l.now) }
    ensures taken { OnOk result (made copies.old ≡ parts (literal l.now) ++ made copies.new) }
{
    match l {
        Lit::Constant(c) => Ok(Lit::Constant(*c)),
        Lit::Text(bytes) => {
            let bytes = List::from_slice(alloc, bytes.as_slice())?;
            Ok(Lit::Text(bytes))
        }
        Lit::List(items, _) => {
            let items = copies.take(items.len())?;
            let tail = Box::new(alloc, copies.pop())?;
            Ok(Lit::List(items, tail))
        }
        Lit::Vector(items) => {
            let items = copies.take(items.len())?;
            Ok(Lit::Vector(items))
        }
    }
}

fn copy_literals(alloc: Global, ls: &List<Lit>) -> Result<List<Lit>, Mem>
    ensures { IfOk result (λ copies. literals_of copies ≡ literals_of ls.now) }
{
    let mut order = literals_in_order(alloc, ls.as_slice())?;
    let mut copies = MadeLiterals::new(alloc);
    'each: while let Some(l) = order.pop() {
        let copy = copy_literal(alloc, l, &mut copies)?;
        copies.push(copy)?;
    }
    copies.take(ls.len())
}
