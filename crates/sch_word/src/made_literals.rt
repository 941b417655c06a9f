//! Literals that are made from the last one to the first, each when its parts are made.

ghost use Rattle.std.specs.Prelude.{◌≡◌, ◌≤◌, ◌<◌, [], ◌∷◌, length, take, drop, IfOk, OnOk};
ghost use Rattle.sch_word.specs.values.LiteralParts.{plain};
ghost use Rattle.sch_word.specs.values.LiteralView.{literal};
ghost use Rattle.sch_word.specs.values.MadeView.{made};

use crate::list::List;
use crate::literal::Lit;
use crate::mem::Mem;
use std::alloc::Global;

/// The literals that are made and stand in no other, the first one last.
#[derive(Drop)]
pub struct MadeLiterals {
    items: Vec<Lit>,
}

impl MadeLiterals {
    /// None.
    pub fn new(alloc: Global) -> MadeLiterals
        ensures { made result ≡ [] }
    {
        MadeLiterals {
            items: Vec::new(alloc),
        }
    }

    /// Puts a literal before the others.
    pub fn push(&mut self, l: Lit) -> Result<(), Mem>
        ensures { OnOk result (made self.new ≡ literal l ∷ made self.old) }
    {
        self.items.push(l)?;
        Ok(())
    }

    /// Takes the first one away.
    pub fn pop(&mut self) -> Lit
        requires { 0 < length (made self.old) }
        ensures { made self.old ≡ literal result ∷ made self.new }
    {
        match self.items.pop() {
            Some(l) => l,
            None => unreachable!(),
        }
    }

    /// Takes the first ones away, `count` in number.
    pub fn take(&mut self, count: usize) -> Result<List<Lit>, Mem>
        requires { count ≤ length (made self.old) }
        ensures taken { IfOk result (λ ls. plain ls ≡ take count (made self.old)) }
        ensures left { OnOk result (made self.new ≡ drop count (made self.old)) }
    {
        let at = self.items.len() - count;
        let mut taken = self.items.split_off(at)?;
        taken.reverse();
        Ok(List::from_vec(taken))
    }
}
