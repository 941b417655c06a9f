//! The words of constants and of single objects.

ghost use Rattle.std.specs.Prelude.{◌≡◌, ◌+◌, ◌-◌, ◌*◌, ◌^◌, ◌≤◌, ◌<◌, ◌++◌, drop, length, map, reverse, slice_index, IfOk, OnOk};
ghost use Rattle.std.specs.Int.{w64, from_le_bytes};
ghost use Rattle.sch_word.specs.values.Values.{constant_value};
ghost use Rattle.sch_asm.specs.declared.assembly.Word.TheVariants.{Fixed};
ghost use Rattle.sch_select_data.specs.ObjectWords.{value_word, in_units, vector_contents, string_contents};
ghost use Rattle.sch_select_data.specs.PlacedWords.{no_parts, list_word, linked_words};

use sch_asm::Word;
use sch_select_memory::{constant_number, word};
use sch_word::{Const, List, Mem};
use std::alloc::Global;

/// The word of a constant.
pub fn constant_word(c: Const) -> u64
    ensures { result ≡ value_word no_parts (constant_value c) }
{
    constant_number(c).cast_unsigned()
}

// A byte of a text, or 0 behind its end.
fn byte_at(text: &[u8], at: usize) -> u8
    ensures { result ≡ slice_index text.now at }
{
    match text.get(at) {
        Some(byte) => *byte,
        None => 0,
    }
}

/// Eight bytes of a text, the lowest first, with zeros behind its end.
pub fn word_at(text: &[u8], at: usize) -> u64
    requires { at ≤ 2 ^ 31 }
    ensures { result ≡ from_le_bytes w64 (drop at text.now) }
{
    u64::from_le_bytes([
        byte_at(text, at),
        byte_at(text, at + 1),
        byte_at(text, at + 2),
        byte_at(text, at + 3),
        byte_at(text, at + 4),
        byte_at(text, at + 5),
        byte_at(text, at + 6),
        byte_at(text, at + 7),
    ])
}

// Puts a word 0 behind words of which one more makes whole units.
fn fill_units(words: &mut List<u64>) -> Result<(), Mem>
    ensures { OnOk result (words.new ≡ in_units words.old) }
{
    if words.len() % 2 == 1 {
        return words.push(0);
    }
    Ok(())
}

/// The words of a string.
pub fn string_words(alloc: Global, text: &[u8]) -> Result<List<u64>, Mem>
    requires { length text.now ≤ 2 ^ 31 }
    ensures { IfOk result (λ words. words ≡ string_contents text.now) }
{
    let mut words = List::new(alloc);
    words.push(8 * text.len() as u64)?;
    for k in 0..(text.len() + 7) / 8 {
        words.push(word_at(text, 8 * k))?;
    }
    fill_units(&mut words)?;
    Ok(words)
}

/// The words of a vector, from those of its elements with the last one first.
pub fn vector_words(alloc: Global, elements: List<u64>) -> Result<List<u64>, Mem>
    requires { length elements ≤ 2 ^ 31 }
    ensures { IfOk result (λ words. words ≡ vector_contents (reverse elements)) }
{
    let mut words = List::new(alloc);
    words.push(8 * elements.len() as u64)?;
    words.append(elements.reversed())?;
    fill_units(&mut words)?;
    Ok(words)
}

/// Puts words behind others, the last one first.
pub fn put_reversed(words: &mut List<u64>, more: List<u64>) -> Result<(), Mem>
    ensures { OnOk result (words.new ≡ words.old ++ reverse more) }
{
    words.append(more.reversed())
}

/// Numbers as words of data, from the last one to the first.
pub fn as_words(alloc: Global, numbers: List<u64>) -> Result<List<Word>, Mem>
    ensures { IfOk result (λ words. words ≡ map Fixed (reverse numbers)) }
{
    let numbers = numbers.reversed();
    let mut words = List::new(alloc);
    for n in numbers.as_slice() {
        words.push(Word::Fixed(*n))?;
    }
    Ok(words)
}

/// Puts the words of the pairs of a list behind others, the last one first, from those of its elements in
/// that order, and gives the word of the list. The last pair ends at the unit `end`.
pub fn put_pairs(words: &mut List<u64>, values: &List<u64>, end: u64, last: u64) -> Result<u64, Mem>
    requires room { length values.now ≤ end }
    requires small { end ≤ 2 ^ 27 }
    ensures value { IfOk result (λ value. value ≡ list_word (end - length values.now) (reverse values.now) last) }
    ensures words { OnOk result (words.new ≡ words.old ++ reverse (linked_words (end - length values.now) (reverse values.now) last)) }
{
    let mut unit = end;
    let mut rest = last;
    for value in values.as_slice() {
        words.push(rest)?;
        words.push(*value)?;
        unit -= 1;
        rest = 16 * unit + word::PAIR as u64;
    }
    Ok(rest)
}
