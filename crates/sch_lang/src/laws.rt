//! Laws of the core language, as contracts of functions that do nothing.

ghost use Rattle.std.specs.Prelude.{IsTrue};
ghost use Rattle.sch_lang.specs.Laws.{FailsByAnswer, GoesOnWhenSpent, MoreEntries, NeedsOwnOrders};
ghost use Rattle.sch_lang.specs.ProgramView.{source};
ghost use Rattle.sch_lang.specs.Valid.{is_valid};

use crate::program::Program;

/// Every program is valid as a whole.
pub fn program_is_valid(p: &Program)
    ensures { IsTrue (is_valid (source p.now)) }
{}

/// A run depends on an order table at the program's own sites alone.
pub fn run_needs_own_orders(p: &Program)
    ensures { NeedsOwnOrders (source p.now) }
{}

/// More procedure entries change nothing of a run that has ended, and let any other go further.
pub fn more_entries_change_no_end(p: &Program)
    ensures { MoreEntries (source p.now) }
{}

/// A run goes on only where it has taken all the procedure entries that it was given, so what ends it is
/// never the nesting that bounds the evaluator.
pub fn run_goes_on_when_spent(p: &Program)
    ensures { GoesOnWhenSpent (source p.now) }
{}

/// A run stops with a failed output, which is status 74, only where one of the kernel's answers takes
/// nothing.
pub fn run_fails_by_answer(p: &Program)
    ensures { FailsByAnswer (source p.now) }
{}
