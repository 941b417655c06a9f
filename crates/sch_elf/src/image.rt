//! Images.

ghost use Rattle.sch_elf.specs.Layout.{IsImageLayout};

use sch_word::{Bytes, List};

/// A range of a program's memory: its first bytes, and then zeros.
#[derive(Drop)]
pub struct Segment {
    pub address: u64,
    pub read: bool,
    pub write: bool,
    pub execute: bool,
    pub bytes: Bytes,
    /// How many zeros follow the bytes.
    pub zeros: u64,
}

/// What a program starts with: the address that is entered first, and its memory. It has at most 8
/// segments, which do not overlap, end at 2^47 at most, and have together at most 3 GiB.
#[derive(Drop)]
pub struct Image {
    pub entry: u64,
    pub segments: List<Segment>,
    ghost laid_out: { IsImageLayout segments },
}
