//! Outlets.

ghost use Rattle.std.specs.Prelude.{◌≡◌, ◌≤◌, ◌++◌, List, ℕ, Option, length};
ghost use Rattle.sch_io.specs.Answers.{AnswersNext, IsRefusal, IsWithin, taken};
ghost use Rattle.sch_io.specs.Counters.{Rose};
ghost use Rattle.sch_io.specs.Told.{Tells};

use sch_word::Answer;

/// An outlet takes bytes by pieces, as a kernel does for the file that a process writes. It may tell
/// what it took, and which answers it holds ready; one that has ceased to tell does not tell again.
pub trait Outlet {
    ghost use Rattle.sch_word.specs.declared.answer.Answer.{Answer};

    /// All that was taken, where the outlet tells it.
    ghost bytes: { Self → Option (List ℕ) };

    /// The answers that it holds ready, where it tells them. Past the last it takes whole pieces.
    ghost left: { Self → Option (List Answer) };

    /// How often the outlet has failed.
    ghost faults: { Self → ℕ };

    /// Offers a piece, and answers how many of its first bytes were taken. It takes no memory.
    fn write(&mut self, piece: &[u8]) -> Answer
        ensures within { IsWithin result (length piece.now) }
        ensures bytes { Tells (bytes self.old) (bytes self.new) (λ before after. after ≡ before ++ taken result piece.now) }
        ensures left { Tells (left self.old) (left self.new) (AnswersNext (length piece.now) result) }

        ensures faults { faults self.old ≤ faults self.new }
        ensures refused_only_where_faults_rose { IsRefusal result (length piece.now) → Rose (faults self.old) (faults self.new) };
}
