//! What a walk has still to visit. It lies in memory, so levels of a tree take no part of the machine's stack.

ghost use Rattle.std.specs.Prelude.{◌≡◌, [], ◌∷◌, ◌++◌, OnOk, MatchOption};

use crate::mem::Mem;
use std::alloc::Global;
use std::marker::Model;

/// Items in the order in which a walk comes to them, as contracts see them.
#[derive(Drop)]
pub struct ToVisit<'a, T> {
    items: &'a [T],
    behind: Vec<&'a [T]>,
}

impl<'a, T> Model for ToVisit<'a, T> {
    ghost use Rattle.std.specs.Coded.{coded_list};
    ghost use Rattle.std.specs.Prelude.{◌++◌};
    ghost use Rattle.std.specs.Prelude as prelude;
    ghost use Rattle.sch_word.specs.ToVisit.{items_of};

    ghost Value = { prelude.List T };

    ghost coded = { coded_list T.code };

    ghost view = { λ left. left.items.now ++ items_of left.behind.items };
}

impl<'a, T> ToVisit<'a, T> {
    /// These items alone.
    pub fn new(alloc: Global, items: &'a [T]) -> ToVisit<'a, T>
        ensures { result ≡ items.now }
    {
        ToVisit {
            items,
            behind: Vec::new(alloc),
        }
    }

    /// Takes the next item away, if there is one.
    pub fn next(&mut self) -> Option<&'a T>
        ensures { MatchOption result (self.old ≡ []) (λ item. self.old ≡ item.now ∷ self.new) }
    {
        'each: while self.items.is_empty() {
            match self.behind.pop() {
                Some(items) => self.items = items,
                None => return None,
            }
        }
        match self.items.split_first() {
            Some((item, rest)) => {
                self.items = rest;
                Some(item)
            }
            None => None,
        }
    }

    /// Puts items before those that are left.
    pub fn enter(&mut self, items: &'a [T]) -> Result<(), Mem>
        ensures { OnOk result (self.new ≡ items.now ++ self.old) }
    {
        self.behind.push(self.items)?;
        self.items = items;
        Ok(())
    }
}
