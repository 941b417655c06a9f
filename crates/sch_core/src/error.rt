//! Why data have no program.

ghost use Rattle.std.specs.Prelude.{◌≡◌};
ghost use Rattle.sch_core.specs.Answer.{IsErrorFor};
ghost use Rattle.sch_core.specs.declared.error.CoreError.TheVariants.{Memory};

use sch_sketch::Fault;
use sch_word::{Bytes, Mem};
use thiserror::Error;

/// What a program has too much of.
#[derive(Clone, Copy, Debug, Error)]
pub enum Kind {
    /// Operands of a call, formals, or bindings of one form: 200.
    #[error("operands")]
    Operands,
    /// Levels of expressions: 2,000.
    #[error("core")]
    Core,
    /// Variables of a body: 1,000.
    #[error("variables")]
    Variables,
    /// Free variables of a procedure: 1,000.
    #[error("free")]
    Free,
}

/// Why data have no program, with the place: the number of bytes before it.
#[derive(Debug, Drop, Error)]
pub enum CoreError {
    #[error("byte {0}: bad form")]
    BadForm(u32),
    /// The name is nowhere bound.
    #[error("byte {0}: unbound")]
    Unbound(u32, Bytes),
    #[error("byte {0}: keyword defined")]
    KeywordDefined(u32),
    #[error("byte {1}: limit {0}")]
    Limit(Kind, u32),
    /// Out of memory.
    #[error("out of memory")]
    Memory,
}

impl From<Mem> for CoreError {
    ghost from_gives = { λ _ e. e ≡ Memory };

    fn from(_cause: Mem) -> CoreError {
        CoreError::Memory
    }
}

/// The error of a fault.
pub(crate) fn error_of(f: Fault) -> CoreError
    ensures { IsErrorFor result f }
{
    match f {
        Fault::KeywordDefined(at) => CoreError::KeywordDefined(at),
        Fault::BadForm(at) => CoreError::BadForm(at),
        Fault::Unbound(at, name) => CoreError::Unbound(at, name),
        Fault::Operands(at) => CoreError::Limit(Kind::Operands, at),
        Fault::Core(at) => CoreError::Limit(Kind::Core, at),
    }
}
