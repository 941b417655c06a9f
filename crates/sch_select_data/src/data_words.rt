//! The data of a program: where they lie, and their words.

ghost use Rattle.std.specs.Prelude.{◌≡◌, ◌+◌, ◌*◌, ◌/◌, ◌^◌, ◌≤◌, ◌++◌, IfOk, IsTrue, OnOk, length, map, replicate};
ghost use Rattle.std.specs.List.{list_all};
ghost use Rattle.sch_word.specs.runs.Runs.{names_size, statics_size, max_statics};
ghost use Rattle.sch_word.specs.trees.Shape.{max_library};
ghost use Rattle.sch_word.specs.values.LiteralView.{literals_of};
ghost use Rattle.sch_word.specs.values.Literals.{count_literals, literals_size};
ghost use Rattle.sch_word.specs.values.StaticsView.{statics};
ghost use Rattle.sch_asm.specs.declared.assembly.Word.TheVariants.{Fixed};
ghost use Rattle.sch_asm.specs.declared.routine.TheConstants.{OWN_WORDS};
ghost use Rattle.sch_select_data.specs.ObjectWords.{text_words};
ghost use Rattle.sch_select_data.specs.PlacedWords.{placed_values, placed_each};
ghost use Rattle.sch_select_data.specs.Data.{closure_words, closures_unit, data_words, global_word, global_words, objects_unit, static_count};
ghost use Rattle.sch_select_data.specs.Data.{word_list};
ghost use Rattle.sch_select_memory.specs.StaticBytes.{static_bytes};
ghost use Rattle.sch_select_data.specs.NameWords.{each_name, name_addresses, name_count, name_words, symbol_words, symbols_count};
ghost use Rattle.sch_select_memory.specs.Addresses.{names_address};
ghost use Rattle.sch_select_memory.specs.Reach.{is_reached_label};

use crate::contents::word_at;
use crate::placing::StaticObjects;
use sch_asm::{OWN_WORDS, Word};
use sch_frames::FrameProgram;
use sch_select_memory::addresses::{LITERALS_ADDRESS, body_label};
use sch_select_memory::word::{PROCEDURE, UNSET};
use sch_word::{Bytes, List, Mem, Statics};
use std::alloc::Global;

/// How many words the literals, the globals and the names of symbols take; where the names and the closures begin;
/// and at which unit of 16 bytes the objects of literals do.
#[derive(Clone, Copy)]
pub struct Places {
    count: u64,
    names: u64,
    pub closures: u64,
    pub unit: u64,
}

/// How many words a name takes.
fn name_count(name: &[u8]) -> u64
    requires { length name.now ≤ 2 ^ 31 }
    ensures { result ≡ name_count name.now }
{
    1 + (name.len() as u64 + 7) / 8
}

/// How many words the names of symbols take, with their addresses.
#[tactic(auto, using(crate::proofs::StaticSizes::symbols_bound))]
fn symbols_count(symbols: &[Bytes]) -> u64
    requires few { names_size symbols.now ≤ max_statics }
    ensures { result ≡ symbols_count symbols.now }
{
    let mut count = symbols.len() as u64;
    for name in symbols {
        count += name_count(name.as_slice());
    }
    count
}

/// Where what is static lies, in front of the closures of this many procedures of the library and behind them.
pub fn lay_out(s: &Statics, library: u64) -> Places
    requires few { statics_size (statics s.now) ≤ max_statics }
    requires library { library ≤ max_library }
    ensures count { result.count ≡ static_count (statics s.now) }
    ensures names { result.names ≡ names_address (length s.now.literals) (length s.now.globals) }
    ensures closures { result.closures ≡ 16 * closures_unit (static_count (statics s.now)) }
    ensures unit { result.unit ≡ objects_unit (static_count (statics s.now)) library }
    ensures low { 16 * result.unit + 32 * literals_size (literals_of s.now.literals) ≤ 2 ^ 31 }
{
    let front = s.literals.len() as u64 + s.globals.len() as u64;
    let count = front + symbols_count(s.symbols.as_slice());
    let closures = (LITERALS_ADDRESS + 8 * count + 15) / 16;
    Places {
        count,
        names: LITERALS_ADDRESS + 8 * front,
        closures: 16 * closures,
        unit: closures + library,
    }
}

/// The words in front of the address of names: those of the routines, and the static bytes.
fn static_words() -> [Word; 36]
    ensures { result ≡ word_list static_bytes }
{
    [
        Word::Fixed(0x706050403020100),
        Word::Fixed(0xF0E0D0C0B0A0908),
        Word::Fixed(0x1716151413121110),
        Word::Fixed(0x1F1E1D1C1B1A1918),
        Word::Fixed(0x2726252423222120),
        Word::Fixed(0x2F2E2D2C2B2A2928),
        Word::Fixed(0x3736353433323130),
        Word::Fixed(0x3F3E3D3C3B3A3938),
        Word::Fixed(0x4746454443424140),
        Word::Fixed(0x4F4E4D4C4B4A4948),
        Word::Fixed(0x5756555453525150),
        Word::Fixed(0x5F5E5D5C5B5A5958),
        Word::Fixed(0x6766656463626160),
        Word::Fixed(0x6F6E6D6C6B6A6968),
        Word::Fixed(0x7776757473727170),
        Word::Fixed(0x7F7E7D7C7B7A7978),
        Word::Fixed(0x8786858483828180),
        Word::Fixed(0x8F8E8D8C8B8A8988),
        Word::Fixed(0x9796959493929190),
        Word::Fixed(0x9F9E9D9C9B9A9998),
        Word::Fixed(0xA7A6A5A4A3A2A1A0),
        Word::Fixed(0xAFAEADACABAAA9A8),
        Word::Fixed(0xB7B6B5B4B3B2B1B0),
        Word::Fixed(0xBFBEBDBCBBBAB9B8),
        Word::Fixed(0xC7C6C5C4C3C2C1C0),
        Word::Fixed(0xCFCECDCCCBCAC9C8),
        Word::Fixed(0xD7D6D5D4D3D2D1D0),
        Word::Fixed(0xDFDEDDDCDBDAD9D8),
        Word::Fixed(0xE7E6E5E4E3E2E1E0),
        Word::Fixed(0xEFEEEDECEBEAE9E8),
        Word::Fixed(0xF7F6F5F4F3F2F1F0),
        Word::Fixed(0xFFFEFDFCFBFAF9F8),
        Word::Fixed(0x3C23292866237423),
        Word::Fixed(0x6669636570736E75),
        Word::Fixed(0x72703C233E646569),
        Word::Fixed(0x3E6572756465636F),
    ]
}

/// Words that are all the same.
fn same_words(alloc: Global, word: Word, count: usize) -> Result<List<Word>, Mem>
    ensures { IfOk result (λ words. words ≡ replicate count word) }
{
    Ok(List::from_vec(vec![in alloc; word; count]?))
}

/// The words in front of the address of names.
fn first_words(alloc: Global) -> Result<List<Word>, Mem>
    ensures { IfOk result (λ words. words ≡ replicate OWN_WORDS (Fixed 0) ++ word_list static_bytes) }
{
    let mut words = same_words(alloc, Word::Fixed(0), OWN_WORDS)?;
    words.extend_from_slice(&static_words())?;
    Ok(words)
}

/// The word of a global when a program starts.
fn global_word(closures: u64, g: Option<u32>) -> Word
    requires few { closures ≤ 2 ^ 31 }
    ensures { result ≡ global_word closures g }
{
    match g {
        None => Word::Fixed(UNSET as u64),
        Some(n) => Word::Fixed(closures + 16 * n as u64 + PROCEDURE as u64),
    }
}

/// The words of the globals.
fn push_globals(words: &mut List<Word>, closures: u64, globals: &[Option<u32>]) -> Result<(), Mem>
    requires few { closures ≤ 2 ^ 31 }
    ensures { OnOk result (words.new ≡ words.old ++ global_words closures globals.now) }
{
    for g in globals {
        words.push(global_word(closures, *g))?;
    }
    Ok(())
}

/// The addresses of names that stand one behind the other from an address on.
fn push_addresses(words: &mut List<Word>, first: u64, names: &[Bytes]) -> Result<(), Mem>
    requires few { names_size names.now ≤ max_statics }
    requires low { first ≤ 2 ^ 31 }
    ensures { OnOk result (words.new ≡ words.old ++ map Fixed (name_addresses first names.now)) }
{
    let mut at = first;
    for name in names {
        words.push(Word::Fixed(at))?;
        at += 8 * name_count(name.as_slice());
    }
    Ok(())
}

/// The bytes of a name, eight to a word.
fn push_text(words: &mut List<Word>, text: &[u8]) -> Result<(), Mem>
    requires { length text.now ≤ 2 ^ 31 }
    ensures { OnOk result (words.new ≡ words.old ++ map Fixed (text_words ((length text.now + 7) / 8) text.now)) }
{
    for k in 0..(text.len() + 7) / 8 {
        words.push(Word::Fixed(word_at(text, 8 * k)))?;
    }
    Ok(())
}

/// The words of a name: its length, and its bytes.
fn push_name(words: &mut List<Word>, name: &[u8]) -> Result<(), Mem>
    requires { length name.now ≤ 2 ^ 31 }
    ensures { OnOk result (words.new ≡ words.old ++ map Fixed (name_words name.now)) }
{
    words.push(Word::Fixed(8 * name.len() as u64))?;
    push_text(words, name)
}

/// The words of names, one behind the other.
fn push_names(words: &mut List<Word>, names: &[Bytes]) -> Result<(), Mem>
    requires few { names_size names.now ≤ max_statics }
    ensures { OnOk result (words.new ≡ words.old ++ map Fixed (each_name names.now)) }
{
    for name in names {
        push_name(words, name.as_slice())?;
    }
    Ok(())
}

/// The words of the names of symbols from an address on, with their addresses.
fn push_symbols(words: &mut List<Word>, first: u64, symbols: &[Bytes]) -> Result<(), Mem>
    requires few { names_size symbols.now ≤ max_statics }
    requires low { first + 8 * length symbols.now ≤ 2 ^ 31 }
    ensures { OnOk result (words.new ≡ words.old ++ map Fixed (symbol_words first symbols.now)) }
{
    push_addresses(words, first + 8 * symbols.len() as u64, symbols)?;
    push_names(words, symbols)
}

/// The records of the library's procedures.
fn push_closures(words: &mut List<Word>, library: &[u32]) -> Result<(), Mem>
    requires { IsTrue (list_all is_reached_label library.now) }
    ensures { OnOk result (words.new ≡ words.old ++ closure_words library.now) }
{
    for label in library {
        words.push(Word::Address(body_label(*label)))?;
        words.push(Word::Fixed(0))?;
    }
    Ok(())
}

/// The data of a program that lies so, with the words of its literals and of their objects.
pub fn words_of(
    alloc: Global,
    p: &FrameProgram,
    places: Places,
    literals: StaticObjects,
) -> Result<List<Word>, Mem>
    requires few { names_size p.now.statics.symbols ≤ max_statics }
    requires low { places.closures ≤ 2 ^ 31 }
    requires names { places.names + 8 * length p.now.statics.symbols ≤ places.closures }
    requires count { places.count ≡ static_count (statics p.now.statics) }
    requires values { literals.values ≡ map Fixed (placed_values (literals_of p.now.statics.literals) places.unit) }
    requires objects { literals.objects ≡ map Fixed (placed_each (literals_of p.now.statics.literals) places.unit) }
    requires library { IsTrue (list_all is_reached_label p.now.library) }
    ensures { IfOk result (λ words. words ≡ data_words places.names places.closures places.unit (statics p.now.statics) p.now.library) }
{
    let mut words = first_words(alloc)?;
    words.push(Word::Fixed(places.names))?;
    words.append(literals.values)?;
    push_globals(&mut words, places.closures, p.statics.globals.as_slice())?;
    push_symbols(&mut words, places.names, p.statics.symbols.as_slice())?;
    words.append(same_words(alloc, Word::Fixed(0), (1 - places.count % 2) as usize)?)?;
    push_closures(&mut words, p.library.as_slice())?;
    words.append(literals.objects)?;
    Ok(words)
}
