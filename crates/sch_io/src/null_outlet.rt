//! An outlet that keeps nothing.

ghost use Rattle.std.specs.Prelude.{[], Some, None};

use crate::outlet::Outlet;
use sch_word::Answer;

/// An outlet that takes every piece whole. It never fails, holds no answers ready, and does not tell
/// what it took.
#[derive(Drop)]
pub struct NullOutlet;

impl NullOutlet {
    /// It takes no memory.
    pub fn new() -> NullOutlet {
        NullOutlet
    }
}

impl Outlet for NullOutlet {
    ghost bytes = { λ _. None };

    ghost left = { λ _. Some [] };

    ghost faults = { λ _. 0 };

    fn write(&mut self, piece: &[u8]) -> Answer {
        Answer::Took(piece.len())
    }
}
