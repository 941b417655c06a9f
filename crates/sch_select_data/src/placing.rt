//! The words of literals. A literal's objects lie in front of those of what stands behind it, and a pair or a
//! vector has the words of what it holds: so the words are made from the last one to the first, each when its parts
//! are there. What is made lies in memory, so levels take no part of the machine's stack.

ghost use Rattle.std.specs.Prelude.{◌≡◌, ◌+◌, ◌*◌, ◌/◌, ◌^◌, ◌≤◌, ◌<◌, length, map, reverse, IfOk, OnOk};
ghost use Rattle.sch_word.specs.values.LiteralParts.{parts, plain};
ghost use Rattle.sch_word.specs.values.LiteralView.{literal, literals_of};
ghost use Rattle.sch_word.specs.values.Literals.{literals_size, literal_values, objects_of_each};
ghost use Rattle.sch_asm.specs.declared.assembly.Word.TheVariants.{Fixed};
ghost use Rattle.sch_select_data.specs.ObjectParts.{parts_at};
ghost use Rattle.sch_select_data.specs.ObjectWords.{value_word, objects_words};
ghost use Rattle.sch_select_data.specs.PlacedView.{in_turn, ArePut, IsObjectPut, IsPut};
ghost use Rattle.sch_select_data.specs.PlacedWords.{own_units, units_in_each};

use crate::contents::{
    as_words, constant_word, put_pairs, put_reversed, string_words, vector_words,
};
use crate::placed_values::PlacedValues;
use crate::units::units_of_nodes;
use sch_asm::Word;
use sch_select_memory::word;
use sch_word::{List, Lit, Mem, literals_in_order};
use std::alloc::Global;

/// The words of the objects that literals are, and those of the literals.
#[derive(Drop)]
pub struct StaticObjects {
    pub objects: List<Word>,
    pub values: List<Word>,
}

// What is put for literals: the words of their objects, the last one first; the words of those that stand in no
// other; and the unit from which the objects lie on.
#[derive(Drop)]
struct Placed {
    words: List<u64>,
    values: PlacedValues,
    unit: u64,
}

impl Placed {
    // Puts an object before the others, and its word with a tag.
    fn put_object(&mut self, contents: List<u64>, tag: u64) -> Result<(), Mem>
        requires room { length contents / 2 ≤ self.old.unit }
        requires small { self.old.unit ≤ 2 ^ 27 }
        requires low { tag < 8 }
        ensures { OnOk result (IsObjectPut contents tag self.old self.new) }
    {
        self.unit -= contents.len() as u64 / 2;
        put_reversed(&mut self.words, contents)?;
        self.values.push(16 * self.unit + tag)
    }

    // Puts a literal, whose parts are put.
    fn put(&mut self, alloc: Global, l: &Lit) -> Result<(), Mem>
        requires parts { length (parts (literal l.now)) ≤ length (in_turn self.old.values) }
        requires room { own_units (literal l.now) ≤ self.old.unit }
        requires small { self.old.unit ≤ 2 ^ 27 }
        ensures { OnOk result (IsPut (literal l.now) self.old self.new) }
    {
        match l {
            Lit::Constant(c) => self.values.push(constant_word(*c)),
            Lit::Text(text) => {
                let contents = string_words(alloc, text.as_slice())?;
                self.put_object(contents, word::STRING as u64)
            }
            Lit::List(items, _) => {
                let values = self.values.take(items.len())?;
                let last = self.values.pop();
                let value = put_pairs(&mut self.words, &values, self.unit, last)?;
                self.unit -= items.len() as u64;
                self.values.push(value)
            }
            Lit::Vector(items) => {
                let values = self.values.take(items.len())?;
                let contents = vector_words(alloc, values)?;
                self.put_object(contents, word::VECTOR as u64)
            }
        }
    }
}

// Puts literals, whose objects lie from a unit on.
fn put_literals(alloc: Global, literals: &List<Lit>, first_unit: u64) -> Result<Placed, Mem>
    requires small { 16 * first_unit + 32 * literals_size (literals_of literals.now) ≤ 2 ^ 31 }
    ensures { IfOk result (λ placed. ArePut (plain literals.now) (first_unit + units_in_each (literals_of literals.now)) placed) }
{
    let mut order = literals_in_order(alloc, literals.as_slice())?;
    let mut placed = Placed {
        words: List::new(alloc),
        values: PlacedValues::new(alloc),
        unit: first_unit + units_of_nodes(order.as_slice()),
    };
    'each: while let Some(l) = order.pop() {
        placed.put(alloc, l)?;
    }
    Ok(placed)
}

/// The words of literals and of the objects that they are, whose parts lie from a unit of 16 bytes on. The
/// time that it takes is linear in the size of the literals.
pub fn literal_words(
    alloc: Global,
    literals: &List<Lit>,
    first_unit: u64,
) -> Result<StaticObjects, Mem>
    requires small { 16 * first_unit + 32 * literals_size (literals_of literals.now) ≤ 2 ^ 31 }
    ensures objects { IfOk result (λ made. made.objects ≡ objects_words (parts_at first_unit (objects_of_each (literals_of literals.now) 0)) (objects_of_each (literals_of literals.now) 0)) }
    ensures values { IfOk result (λ made. made.values
        ≡ map Fixed (map (value_word (parts_at first_unit (objects_of_each (literals_of literals.now) 0))) (literal_values (literals_of literals.now) 0))) }
{
    let Placed { words, values, .. } = put_literals(alloc, literals, first_unit)?;
    Ok(StaticObjects {
        objects: as_words(alloc, words)?,
        values: as_words(alloc, values.into_list())?,
    })
}
