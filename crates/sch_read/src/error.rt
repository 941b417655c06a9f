//! Why a text is refused.

ghost use Rattle.std.specs.Prelude.{◌≡◌, ⊤};
ghost use Rattle.sch_read.specs.Fault.{Flawed};
ghost use Rattle.sch_read.specs.Parser.StackView.{Fails};
ghost use Rattle.sch_read.specs.Lexer.TokenView.{flaw_of};
ghost use Rattle.sch_read.specs.declared.error.ReadError.TheVariants.{Memory};

use crate::token::Flaw;
use sch_word::Mem;
use thiserror::Error;

/// Why a text has no data, with the place: the number of bytes before it.
#[derive(Clone, Copy, Debug, Error)]
pub enum ReadError {
    #[error("byte {0}: unclosed")]
    Unclosed(u32),
    #[error("byte {0}: stray close")]
    StrayClose(u32),
    #[error("byte {0}: bad token")]
    BadToken(u32),
    #[error("byte {0}: bad number")]
    BadNumber(u32),
    #[error("byte {0}: bad string")]
    BadString(u32),
    #[error("byte {0}: limit nesting")]
    DeepNesting(u32),
    #[error("byte {0}: limit literal")]
    LiteralRange(u32),
    /// Out of memory.
    #[error("out of memory")]
    Memory,
}

impl From<Mem> for ReadError {
    ghost from_gives = { λ _ e. e ≡ Memory };

    fn from(_cause: Mem) -> ReadError {
        ReadError::Memory
    }
}

/// What is wrong with the token at that place.
pub(crate) fn flawed(at: u32, flaw: Flaw) -> ReadError
    ensures { Fails {X = ⊤} result (Err (Flawed at (flaw_of flaw))) }
{
    match flaw {
        Flaw::Token => ReadError::BadToken(at),
        Flaw::Number => ReadError::BadNumber(at),
        Flaw::String => ReadError::BadString(at),
    }
}
