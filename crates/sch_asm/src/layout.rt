//! Where items and labels stand.

ghost use Rattle.std.specs.Prelude.{◌≡◌, ◌+◌, ◌*◌, ◌^◌, ◌<◌, ◌++◌, EachIndex, IfOk, OnOk, length, slice_index};
ghost use Rattle.sch_jumps.specs.Spans.{set_of};
ghost use Rattle.sch_asm.specs.Items.{AreItems};
ghost use Rattle.sch_asm.specs.Layout.{IsSized};
ghost use Rattle.sch_asm.specs.Pieces.{piece_of, skeleton};

use crate::item::Item;
use crate::item_list::ItemList;
use sch_jumps::Piece;
use sch_word::Mem;
use std::alloc::Global;

/// The address of each label of a text, which of its jumps are long, and how many bytes it has.
#[derive(Drop)]
pub struct Layout {
    pub places: Vec<u32>,
    pub longs: Vec<bool>,
    pub bytes: u64,
    ghost low: { EachIndex places.items (λ l. slice_index places.items l < 2 ^ 30) },
}

impl Layout {
    /// Where a label stands.
    pub fn place(&self, label: u32) -> u32
        requires known { label < length self.now.places.items }
        ensures place { result ≡ slice_index self.now.places.items label }
        ensures small { result < 2 ^ 30 }
    {
        self.places[label as usize]
    }

    /// Whether the jump of this number is long. Behind the last there is none.
    pub fn is_long(&self, jump: usize) -> bool
        ensures { result ≡ set_of self.now.longs.items jump }
    {
        jump < self.longs.len() && self.longs[jump]
    }
}

/// What of an item the size of its text depends on.
fn piece_of(item: &Item) -> Piece
    requires sized { IsSized item.now }
    ensures { result ≡ piece_of item.now }
{
    match item {
        Item::Label(label) => Piece::Label(*label),
        Item::Mark(_) => Piece::Bytes(0),
        Item::Plain(insn) => Piece::Bytes(insn.length() as u8),
        Item::Jump(label) => Piece::Jump(5, *label),
        Item::JumpIf(_, label) => Piece::Jump(6, *label),
        Item::LoadLabel(_, _) | Item::LoadWord(_, _) | Item::StoreWord(_, _) => Piece::Bytes(7),
    }
}

/// The pieces of items, and behind them those of routines.
pub fn pieces_of(alloc: Global, items: &ItemList, routines: &ItemList) -> Result<Vec<Piece>, Mem>
    requires items { AreItems items.now }
    requires routines { AreItems routines.now }
    ensures { IfOk result (λ pieces. pieces.items ≡ skeleton items.now ++ skeleton routines.now) }
{
    let count = items.len().saturating_add(routines.len());
    let mut pieces = Vec::with_capacity(alloc, count)?;
    append_all(items, &mut pieces)?;
    append_all(routines, &mut pieces)?;
    Ok(pieces)
}

// Adds the pieces of a list of items, one part after the other.
fn append_all(items: &ItemList, pieces: &mut Vec<Piece>) -> Result<(), Mem>
    requires sound { AreItems items.now }
    ensures { OnOk result (pieces.new.items ≡ pieces.old.items ++ skeleton items.now) }
{
    let (earlier, last) = items.parts();
    for part in earlier {
        append_pieces(part.as_slice(), pieces)?;
    }
    append_pieces(last, pieces)
}

// Adds the pieces of items.
fn append_pieces(items: &[Item], pieces: &mut Vec<Piece>) -> Result<(), Mem>
    requires sound { AreItems items.now }
    ensures { OnOk result (pieces.new.items ≡ pieces.old.items ++ skeleton items.now) }
{
    pieces.reserve(items.len())?;
    for item in items {
        pieces.push_reserved(piece_of(item));
    }
    Ok(())
}
