//! Faults of texts.

ghost use Rattle.std.specs.Prelude.{◌≡◌};

use sch_word::Bytes;

/// Why a list of data has no program, with the place.
#[derive(Drop)]
pub enum Fault {
    /// A definition of a keyword at top level.
    KeywordDefined(u32),
    BadForm(u32),
    /// The name is nowhere bound.
    Unbound(u32, Bytes),
    /// More than 200 operands, formals or bindings of one form.
    Operands(u32),
    /// More than 2,000 levels of expressions.
    Core(u32),
}
