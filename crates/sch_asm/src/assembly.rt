//! Items and data before they have addresses.

ghost use Rattle.std.specs.Prelude.{false, IsTrue};
ghost use Rattle.sch_asm.specs.Items.{AreItems, AreKnown, IsEachOnce, labels_in, marks_arrive};
ghost use Rattle.sch_asm.specs.Propositions.{AreItems-prop};

use crate::item_list::ItemList;
use sch_word::List;

/// A word of the data.
#[derive(Clone, Copy)]
pub enum Word {
    Fixed(u64),
    /// The address of a label.
    Address(u32),
}

/// The items of a text and its data: words, and then zeros. The first 64 words are the run-time routines'
/// own. Labels are best numbered one after the other, since tables have a place for each number up to the
/// greatest label that stands.
#[derive(Drop)]
pub struct Asm {
    pub items: ItemList,
    pub words: List<Word>,
    pub zeros: u64,
    // Each instruction is valid, and each number of a register, a condition and a data word is one.
    ghost sound: { AreItems items } by { AreItems-prop items },
    // No label stands twice.
    ghost once: { IsEachOnce (labels_in items) },
    // Each label that is used is a routine's or stands in the items.
    ghost known: { AreKnown items words },
    // Each mark has its instruction behind it, and no label between.
    ghost marked: { IsTrue (marks_arrive false items) },
}
