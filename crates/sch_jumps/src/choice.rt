//! Which jumps of a text are long: `long_jumps`.

ghost use Rattle.std.specs.Prelude.{◌≡◌, ◌+◌, ◌^◌, ◌<◌, EachIndex, IfOk, false, length, replicate, slice_index};
ghost use Rattle.sch_jumps.specs.Sizes.{ArePieces, growths, jump_count};
ghost use Rattle.sch_jumps.specs.Least.{AllReach, IsExact, IsLeast, text_size};
ghost use Rattle.sch_jumps.specs.Places.{Once, Own};
ghost use Rattle.sch_jumps.specs.Spans.{LabelsBelow, label_bound, set_of, table, table', the_highs, the_longs, the_lows, the_rooms};

use crate::layout::place_labels;
use crate::piece::Piece;
use crate::search::{SpanTables, settle};
use crate::spans::{Spans, enter_labels, label_bound, spans_of};
use crate::windows::{firsts, lasts};
use sch_word::Mem;
use std::alloc::Global;

/// A text with the forms of its jumps.
#[derive(Drop)]
pub struct Forms {
    /// Whether each jump is long.
    pub longs: Vec<bool>,
    /// Where each label stands, if the text ends below 2^30.
    pub places: Vec<u32>,
    /// The address behind the text.
    pub end: u64,
}

/// Chooses the forms of a text's jumps and places its labels, from an address on. The end is exact, however large.
pub fn choose(alloc: Global, pieces: &[Piece], from: u32) -> Result<Forms, Mem>
    requires sound { ArePieces pieces.now }
    requires few { from < 2 ^ 30 }
    ensures least { IfOk result (λ p. IsLeast pieces.now (set_of p.longs.items)) }
    ensures exact { IfOk result (λ p. IsExact pieces.now (set_of p.longs.items)) }
    ensures each { IfOk result (λ p. length p.longs.items ≡ jump_count pieces.now) }
    ensures end { IfOk result (λ p. p.end ≡ from + text_size pieces.now) }
    ensures reach { IfOk result (λ p. p.end < 2 ^ 30 → AllReach (set_of p.longs.items) (slice_index p.places.items) 0 from pieces.now) }
    ensures own { IfOk result (λ p. p.end < 2 ^ 30 → Once pieces.now → Own (set_of p.longs.items) (slice_index p.places.items) 0 from pieces.now) }
    ensures known { IfOk result (λ p. LabelsBelow (length p.places.items) pieces.now) }
    ensures low { IfOk result (λ p. p.end < 2 ^ 30 → EachIndex p.places.items (λ l. slice_index p.places.items l < 2 ^ 30)) }
{
    let bound = label_bound(pieces);
    let longs = long_within(alloc, pieces, bound)?;
    let mut places = at_start(alloc, from, bound)?;
    let end = place_labels(pieces, &longs, from as u64, &mut places);
    Ok(Forms { longs, places, end })
}

// A table in which each label stands at the start of the text.
fn at_start(alloc: Global, from: u32, count: usize) -> Result<Vec<u32>, Mem>
    ensures { IfOk result (λ v. v.items ≡ replicate count from) }
{
    Ok(vec![in alloc; from; count]?)
}

/// Says of each jump of a text whether it is long. The long ones are the least set for which every short jump reaches
/// its label. Time and memory are linear in the pieces and the greatest label.
pub fn long_jumps(alloc: Global, pieces: &[Piece]) -> Result<Vec<bool>, Mem>
    requires sound { ArePieces pieces.now }
    ensures least { IfOk result (λ longs. IsLeast pieces.now (set_of longs.items)) }
    ensures exact { IfOk result (λ longs. IsExact pieces.now (set_of longs.items)) }
    ensures each { IfOk result (λ longs. length longs.items ≡ jump_count pieces.now) }
{
    long_within(alloc, pieces, label_bound(pieces))
}

// The same, by one more than the greatest label.
fn long_within(alloc: Global, pieces: &[Piece], bound: usize) -> Result<Vec<bool>, Mem>
    requires sound { ArePieces pieces.now }
    requires bound { bound ≡ label_bound 0 pieces.now }
    ensures least { IfOk result (λ longs. IsLeast pieces.now (set_of longs.items)) }
    ensures exact { IfOk result (λ longs. IsExact pieces.now (set_of longs.items)) }
    ensures each { IfOk result (λ longs. length longs.items ≡ jump_count pieces.now) }
{
    let Spans {
        lows,
        highs,
        growths,
        mut rooms,
        mut longs,
    } = spans(alloc, pieces, bound)?;
    let firsts = firsts(alloc, &highs, &longs)?;
    let lasts = lasts(alloc, &lows, &longs)?;
    let mut done = none_done(alloc, longs.len())?;
    let tables = SpanTables {
        lows: &lows,
        highs: &highs,
        firsts: &firsts,
        lasts: &lasts,
    };
    settle(tables, &growths, &mut rooms, &mut longs, &mut done);
    Ok(longs)
}

// The spans of the jumps of a text.
fn spans(alloc: Global, pieces: &[Piece], bound: usize) -> Result<Spans, Mem>
    requires sound { ArePieces pieces.now }
    requires bound { bound ≡ label_bound 0 pieces.now }
    ensures lows { IfOk result (λ s. s.lows.items ≡ the_lows (table pieces.now) (table' pieces.now) 0 0 pieces.now) }
    ensures highs { IfOk result (λ s. s.highs.items ≡ the_highs (table pieces.now) (table' pieces.now) 0 0 pieces.now) }
    ensures growths { IfOk result (λ s. s.growths.items ≡ growths pieces.now) }
    ensures rooms { IfOk result (λ s. s.rooms.items ≡ the_rooms (table pieces.now) (table' pieces.now) 0 0 pieces.now) }
    ensures longs { IfOk result (λ s. s.longs.items ≡ the_longs (table pieces.now) (table' pieces.now) 0 0 pieces.now) }
{
    let mut befores = no_jumps(alloc, bound)?;
    let mut places = no_bytes(alloc, bound)?;
    let jumps = enter_labels(pieces, &mut befores, &mut places);
    spans_of(alloc, pieces, jumps, &befores, &places)
}

fn no_jumps(alloc: Global, count: usize) -> Result<Vec<usize>, Mem>
    ensures { IfOk result (λ v. v.items ≡ replicate count 0) }
{
    Ok(vec![in alloc; 0usize; count]?)
}

fn no_bytes(alloc: Global, count: usize) -> Result<Vec<u64>, Mem>
    ensures { IfOk result (λ v. v.items ≡ replicate count 0) }
{
    Ok(vec![in alloc; 0u64; count]?)
}

fn none_done(alloc: Global, count: usize) -> Result<Vec<bool>, Mem>
    ensures { IfOk result (λ v. v.items ≡ replicate count false) }
{
    Ok(vec![in alloc; false; count]?)
}
