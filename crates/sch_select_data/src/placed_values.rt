//! The words of literals, made from the last one to the first.

ghost use Rattle.std.specs.Prelude.{◌≡◌, ◌≤◌, ◌<◌, [], ◌∷◌, length, take, drop, reverse, IfOk, OnOk};
ghost use Rattle.sch_select_data.specs.PlacedView.{in_turn};

use sch_word::{List, Mem};
use std::alloc::Global;

/// The words of the literals that are put and stand in no other, the first one last.
#[derive(Drop)]
pub struct PlacedValues {
    items: Vec<u64>,
}

impl PlacedValues {
    /// None.
    pub fn new(alloc: Global) -> PlacedValues
        ensures { in_turn result ≡ [] }
    {
        PlacedValues {
            items: Vec::new(alloc),
        }
    }

    /// Puts a word before the others.
    pub fn push(&mut self, value: u64) -> Result<(), Mem>
        ensures { OnOk result (in_turn self.new ≡ value ∷ in_turn self.old) }
    {
        self.items.push(value)?;
        Ok(())
    }

    /// Takes the first one away.
    pub fn pop(&mut self) -> u64
        requires { 0 < length (in_turn self.old) }
        ensures { in_turn self.old ≡ result ∷ in_turn self.new }
    {
        match self.items.pop() {
            Some(value) => value,
            None => unreachable!(),
        }
    }

    /// Takes the first ones away, `count` in number, and gives them with the last one first.
    pub fn take(&mut self, count: usize) -> Result<List<u64>, Mem>
        requires { count ≤ length (in_turn self.old) }
        ensures taken { IfOk result (λ values. reverse values ≡ take count (in_turn self.old)) }
        ensures left { OnOk result (in_turn self.new ≡ drop count (in_turn self.old)) }
    {
        let at = self.items.len() - count;
        let taken = self.items.split_off(at)?;
        Ok(List::from_vec(taken))
    }

    /// The words with the last one first.
    pub fn into_list(self) -> List<u64>
        ensures { reverse result ≡ in_turn self }
    {
        let PlacedValues { items } = self;
        List::from_vec(items)
    }
}
