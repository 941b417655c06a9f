//! Lists of items.

ghost use Rattle.std.specs.Prelude.{◌≡◌, [], ◌∷◌, ◌++◌, ◌<◌, ◌^◌, OnErr, OnOk, length};
ghost use Rattle.sch_asm.specs.ItemParts.{items_in_parts};

use crate::item::Item;
use sch_word::Mem;
use std::alloc::Global;
use std::marker::Model;
use std::mem;

/// For how many items a part has room.
const PART_ROOM: usize = 4096;

/// A growing list of items, kept in parts: where the last one has too little room for what comes, the next one begins. So a list
/// that grows by a few items at a time asks for no long piece of memory, however long it is. Contracts see the items.
#[derive(Drop)]
pub struct ItemList {
    alloc: Global,
    earlier: Vec<Vec<Item>>,
    last: Vec<Item>,
}

impl Model for ItemList {
    ghost use Rattle.std.specs.Prelude as prelude;
    ghost use Rattle.sch_asm.specs.ItemParts as parts;
    ghost use Rattle.sch_asm.specs.declared.item.Item as item;

    ghost Value = { prelude.List item.Item };

    ghost view = { λ list. parts.items_in_parts list.earlier.items list.last.items };
}

impl ItemList {
    /// The empty list. It takes no memory.
    pub fn new(alloc: Global) -> ItemList
        ensures { result ≡ [] }
    {
        ItemList {
            alloc,
            earlier: Vec::new(alloc),
            last: Vec::new(alloc),
        }
    }

    // Begins a part behind the last one.
    #[inline(never)]
    fn begin_part(&mut self) -> Result<(), Mem>
        ensures { self.new ≡ self.old }
    {
        let next = Vec::with_capacity(self.alloc, PART_ROOM)?;
        self.earlier.reserve(1)?;
        let done = mem::replace(&mut self.last, next);
        self.earlier.push_reserved(done);
        Ok(())
    }

    // `push` and `extend_from_slice` are inlined: selection calls them for each item, and a call would take longer than what they do.

    /// Adds an item at the end. Where memory runs out the list stays as it was.
    #[inline(always)]
    pub fn push(&mut self, item: Item) -> Result<(), Mem>
        ensures ok { OnOk result (self.new ≡ self.old ++ item ∷ []) }
        ensures err { OnErr result (self.new ≡ self.old) }
    {
        if self.last.len() >= PART_ROOM {
            self.begin_part()?;
        }
        self.last.push(item)?;
        Ok(())
    }

    /// Adds copies of `more` at the end. Where memory runs out the list stays as it was.
    #[inline(always)]
    pub fn extend_from_slice(&mut self, more: &[Item]) -> Result<(), Mem>
        ensures ok { OnOk result (self.new ≡ self.old ++ more.now) }
        ensures err { OnErr result (self.new ≡ self.old) }
    {
        if self.last.len() + more.len() > PART_ROOM {
            self.begin_part()?;
        }
        self.last.extend_from_slice(more)?;
        Ok(())
    }

    /// How many items there are, if that is a number of 64 bits.
    pub fn len(&self) -> usize
        ensures { length self.now < 2 ^ 64 → result ≡ length self.now }
    {
        let mut count = self.last.len();
        for part in self.earlier.iter() {
            count = count.saturating_add(part.len());
        }
        count
    }

    /// Lends the parts, the last one apart.
    pub fn parts(&self) -> (&[Vec<Item>], &[Item])
        ensures { items_in_parts result.0.now result.1.now ≡ self.now }
    {
        (self.earlier.as_slice(), self.last.as_slice())
    }

    /// The list of these parts.
    pub(crate) fn from_parts(alloc: Global, earlier: Vec<Vec<Item>>, last: Vec<Item>) -> ItemList
        ensures { result ≡ items_in_parts earlier.items last.items }
    {
        ItemList {
            alloc,
            earlier,
            last,
        }
    }

    /// The parts, which are not copied.
    pub(crate) fn into_parts(self) -> (Global, Vec<Vec<Item>>, Vec<Item>)
        ensures { items_in_parts result.1.items result.2.items ≡ self }
    {
        let ItemList {
            alloc,
            earlier,
            last,
        } = self;
        (alloc, earlier, last)
    }
}
