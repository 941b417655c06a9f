//! Why a run is not counted.

ghost use Rattle.std.specs.Prelude.{◌≡◌};
ghost use Rattle.sch_count.specs.declared.error.CountError.TheVariants.{Memory};

use sch_step::Stuck;
use sch_word::Mem;
use std::fmt;
use std::fmt::{Debug, Display, Formatter};
use thiserror::Error;

/// Why a run is not counted.
#[derive(Clone, Copy, Error)]
pub enum CountError {
    /// All steps were done, and the machine runs on.
    #[error("steps spent")]
    Spent,
    #[error("stuck")]
    Stuck(Stuck),
    #[error("out of memory")]
    Memory,
}

impl From<Mem> for CountError {
    ghost from_gives = { λ _ error. error ≡ Memory };

    fn from(_cause: Mem) -> CountError {
        CountError::Memory
    }
}

/// The same text as that of `Display`.
impl Debug for CountError {
    fn fmt<W: fmt::Write>(&self, f: &mut Formatter<W>) -> fmt::Result {
        Display::fmt(self, f)
    }
}
