//! The image of a compiled program.

ghost use Rattle.std.specs.Prelude.{◌≡◌, ◌≤◌, ◌+◌, [], ◌∷◌, length, IfOk};
ghost use Rattle.sch_word.specs.runs.ProgramLayout.{max_data_size, max_text_size, text_address};
ghost use Rattle.sch_elf.specs.Program.{data_segment, text_segment, IsProgramImage};

use crate::image::{Image, Segment};
use sch_word::{Bytes, DATA_ADDRESS, List, Mem, TEXT_ADDRESS};
use std::alloc::Global;

/// The text of a compiled program, which can be read and executed.
fn text_segment(text: Bytes) -> Segment
    ensures { result ≡ text_segment text }
{
    Segment {
        address: TEXT_ADDRESS,
        read: true,
        write: false,
        execute: true,
        bytes: text,
        zeros: 0,
    }
}

/// The data of a compiled program, which can be read and written: bytes, and zeros after them.
fn data_segment(bytes: Bytes, zeros: u64) -> Segment
    ensures { result ≡ data_segment bytes zeros }
{
    Segment {
        address: DATA_ADDRESS,
        read: true,
        write: true,
        execute: false,
        bytes,
        zeros,
    }
}

/// The image of a compiled program: its text, which can be read and executed and is entered at its
/// first byte, and its data, which can be read and written: bytes, and zeros after them.
pub fn program_image(alloc: Global, text: Bytes, bytes: Bytes, zeros: u64) -> Result<Image, Mem>
    requires text { length text ≤ max_text_size }
    requires bytes { length bytes + zeros ≤ max_data_size }
    ensures entry { IfOk result (λ image. image.entry ≡ text_address) }
    ensures segments { IfOk result (λ image. image.segments ≡ text_segment text ∷ data_segment bytes zeros ∷ []) }
    ensures layout { IfOk result (IsProgramImage text bytes zeros) }
{
    let text = text_segment(text);
    let data = data_segment(bytes, zeros);
    let mut segments = List::new(alloc);
    segments.push(text)?;
    segments.push(data)?;
    Ok(Image {
        entry: TEXT_ADDRESS,
        segments,
    })
}
