//! Why a file is not read.

ghost use Rattle.std.specs.Prelude.{◌≡◌};
ghost use Rattle.sch_elf.specs.declared.error.ImageError.TheVariants.{Memory};

use sch_word::Mem;
use thiserror::Error;

/// Why the bytes of a file stand for no image. The tests are made in this order.
#[derive(Clone, Copy, Debug, Error)]
pub enum ImageError {
    /// There are fewer than 64 bytes.
    #[error("short")]
    Short,
    /// The first seven bytes are not those of ELF-64 with the lowest byte first.
    #[error("not ELF")]
    NotElf,
    /// It is no executable for x86-64, or its version is not 1, or it has flags, or its header sizes are
    /// not those of ELF-64, or it has no program headers or more than 16.
    #[error("wrong machine")]
    NotThisMachine,
    /// The program header of this number is not sound; those before it are.
    #[error("segment {0}")]
    BadSegment(u16),
    /// The segments have together more than 3 GiB.
    #[error("too large")]
    TooLarge,
    /// There was no memory for the image.
    #[error("out of memory")]
    Memory,
}

impl From<Mem> for ImageError {
    ghost from_gives = { λ _ error. error ≡ Memory };

    fn from(_cause: Mem) -> ImageError {
        ImageError::Memory
    }
}
