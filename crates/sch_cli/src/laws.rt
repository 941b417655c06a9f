//! Laws of the statuses, as contracts of functions that do nothing.

ghost use Rattle.std.specs.Prelude.{List, ℕ};
ghost use Rattle.sch_cli.specs.Laws.{HasOneVerdict};

/// Of the causes of the statuses 0 and 4 to 7 a source has one at each depth, with one line, and one only. A source
/// that is compiled has that of 0.
pub fn a_source_has_one_status()
    ensures { (text : List ℕ) (depth : ℕ) → HasOneVerdict text depth }
{}
