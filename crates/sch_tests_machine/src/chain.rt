//! Jumps that lengthen one another, one after the other.

ghost use Rattle.std.specs.Prelude.{◌≤◌, OnOk};
ghost use Rattle.sch_jumps.specs.Sizes.{ArePieces};

use sch_jumps::{Piece, long_jumps};
use sch_word::{List, Mem};
use std::alloc::Global;
use std::test::Fail;

// How many jumps there are before the last.
const LINKS: u32 = 100_000;

// So many bytes behind 120 others.
#[tactic(auto, using(crate::proofs::JoinedPieces::are_pieces_behind))]
fn bytes_behind_120(pieces: &mut List<Piece>, count: u8) -> Result<(), Mem>
    requires few { count ≤ 15 }
    requires sound { ArePieces pieces.old }
    ensures sound { OnOk result (ArePieces pieces.new) }
{
    for _ in 0..8 {
        pieces.push(Piece::Bytes(15))?;
    }
    pieces.push(Piece::Bytes(count))
}

// Jumps that have five bytes where they are long, each over 125 bytes and the next jump.
#[tactic(auto, using(crate::proofs::JoinedPieces::are_pieces_behind))]
fn links(pieces: &mut List<Piece>) -> Result<(), Mem>
    requires sound { ArePieces pieces.old }
    ensures sound { OnOk result (ArePieces pieces.new) }
{
    pieces.push(Piece::Jump(5, 0))?;
    for label in 1..LINKS {
        bytes_behind_120(pieces, 5)?;
        pieces.push(Piece::Jump(5, label))?;
        pieces.push(Piece::Label(label - 1))?;
    }
    bytes_behind_120(pieces, 5)
}

fn count_true(all: &[bool]) -> usize {
    let mut count = 0usize;
    for one in all {
        if *one {
            count = count.saturating_add(1);
        }
    }
    count
}

// They, and then one that goes over so many bytes and 120.
#[tactic(auto, using(crate::proofs::JoinedPieces::are_pieces_behind))]
fn push_chain(pieces: &mut List<Piece>, count: u8) -> Result<(), Mem>
    requires few { count ≤ 15 }
    requires sound { ArePieces pieces.old }
    ensures sound { OnOk result (ArePieces pieces.new) }
{
    links(pieces)?;
    pieces.push(Piece::Jump(5, LINKS))?;
    pieces.push(Piece::Label(LINKS - 1))?;
    bytes_behind_120(pieces, count)?;
    pieces.push(Piece::Label(LINKS))
}

// How many of these jumps are long.
fn long_ones(alloc: Global, count: u8) -> Result<usize, Mem>
    requires few { count ≤ 15 }
{
    let mut pieces = List::new(alloc);
    push_chain(&mut pieces, count)?;
    let longs = long_jumps(alloc, pieces.as_slice())?;
    Ok(count_true(longs.as_slice()))
}

/// A jump over 128 bytes makes all before it long; one over 127 leaves all of them short.
#[test]
fn one_long_jump_lengthens_all_before_it(rt: HostRuntime) -> Result<(), Fail> {
    assert!(rt; long_ones(rt.alloc(), 7)? == 0);
    assert!(rt; long_ones(rt.alloc(), 8)? == LINKS as usize + 1);
    Ok(())
}
