//! Why items are not resolved.

ghost use Rattle.std.specs.Prelude.{◌≡◌};
ghost use Rattle.sch_asm.specs.declared.error.AsmError.TheVariants.{Memory};

use sch_word::Mem;
use thiserror::Error;

/// Why items are not resolved.
#[derive(Clone, Copy, Debug, Error)]
pub enum AsmError {
    /// The text would have this number of bytes, more than 16,777,216.
    #[error("text of {0} bytes")]
    TextTooLarge(u64),
    #[error("out of memory")]
    Memory,
}

impl From<Mem> for AsmError {
    ghost from_gives = { λ _ error. error ≡ Memory };

    fn from(_cause: Mem) -> AsmError {
        AsmError::Memory
    }
}
