//! Where the variables of a body live, and how its calls come by their arguments.

ghost use Rattle.std.specs.Prelude.{◌≡◌, ◌≤◌, false, length, IfOk};
ghost use Rattle.sch_word.specs.trees.Shape.{max_operands};
ghost use Rattle.sch_word.specs.values.Places.{is_slot};

use crate::moves::Move;
use sch_control::Application;
use sch_word::{List, Mem, Place};
use std::alloc::Global;

/// A plan of places and moves, which is read at one variable or call after the other.
pub trait VariablePlaces {
    ghost use Rattle.sch_layout.specs.BodyLayout.{Plan};
    ghost use Rattle.sch_writer.specs.View.{moves_of};

    /// The plan that it is.
    ghost plan: { Self → Plan };

    /// Where a variable lives.
    fn place(&self, x: u32) -> Place
        ensures { result ≡ (plan self.now).place x };

    /// Where a variable that lives in a register is saved.
    fn home(&self, x: u32) -> Place
        requires { is_slot ((plan self.now).place x) ≡ false }
        ensures { result ≡ (plan self.now).home x };

    /// From which slot on a place is one of the frame that a call opens.
    fn limit(&self) -> u32
        ensures { result ≡ (plan self.now).limit };

    /// The moves that bring the operator and the operands of a call, or of a tail call, to where it takes them.
    fn moves(&self, alloc: Global, tail: bool, a: &Application<u32>) -> Result<List<Move>, Mem>
        requires { length a.now.operands ≤ max_operands }
        ensures { IfOk result (λ moves. moves_of moves ≡ (plan self.now).moves tail a.now) };
}
