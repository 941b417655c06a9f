//! Lines, piece by piece.

ghost use Rattle.std.specs.Prelude.{◌≡◌, ◌++◌, OnOk};
ghost use Rattle.sch_generator.specs.Pieces.{piece_text, pieces_text};

use itoa::Buffer;
use sch_word::{Bytes, Mem};

/// A part of a line.
#[derive(Clone, Copy)]
pub(crate) enum Piece<'a> {
    /// Bytes as they are.
    Text(&'a [u8]),
    /// A number, in decimal.
    Number(u32),
}

fn write_piece(out: &mut Bytes, piece: Piece) -> Result<(), Mem>
    ensures { OnOk result (out.new ≡ out.old ++ piece_text piece.entry) }
{
    match piece {
        Piece::Text(text) => out.extend_from_slice(text),
        Piece::Number(number) => {
            let mut buffer = Buffer::new();
            out.extend_from_slice(buffer.format(number).as_bytes())
        }
    }
}

/// Writes the pieces one after the other.
pub(crate) fn write_pieces(out: &mut Bytes, pieces: &[Piece]) -> Result<(), Mem>
    ensures { OnOk result (out.new ≡ out.old ++ pieces_text pieces.now) }
{
    for piece in pieces {
        write_piece(out, *piece)?;
    }
    Ok(())
}
