//! Laws of the expansion, as contracts of functions that do nothing.

ghost use Rattle.std.specs.Prelude.{◌≡◌, ◌≢◌, ◌⊎◌, List};
ghost use Rattle.sch_lang.specs.Tree.{Source};
ghost use Rattle.sch_link_tables.specs.Programs.{Definition};
ghost use Rattle.sch_read.specs.Grammar.{Data};
ghost use Rattle.sch_core.specs.declared.error.CoreError.{CoreError as TheError};
ghost use Rattle.sch_core.specs.Answer.{IsErrorIn};
ghost use Rattle.sch_core.specs.ExpansionLaws.{AtMostOne, NoFault, FaultOrDraft};
ghost use Rattle.sch_core.specs.Programs.{IsProgramOf};
ghost use Rattle.sch_core.specs.TextLaws.{AssignsTheNamesFound};

use crate::error::CoreError;

/// At most one expression stands for a datum at a level, in a scope and in a position.
pub fn expansion_is_unique()
    ensures { AtMostOne }
{}

/// A datum has either a fault or an expression that stands for it, and never both.
pub fn fault_or_expansion()
    ensures excluded { NoFault }
    ensures given { FaultOrDraft }
{}

/// With a library, data have a program, or an error says why they have none, and never both. Out of memory says nothing
/// of data.
pub fn data_have_a_program_or_an_error()
    ensures one { (ds : List Definition) (items : Data) →
        ((p : Source) × IsProgramOf ds items p) ⊎ ((e : TheError) × (e ≢ CoreError.Memory) × IsErrorIn ds items e) }
    ensures never_both { (ds : List Definition) (items : Data) (p : Source) (e : TheError) →
        IsProgramOf ds items p → IsErrorIn ds items e → e ≡ CoreError.Memory }
{}

/// With a library, data have one error at most, but for out of memory.
pub fn data_have_one_error()
    ensures { (ds : List Definition) (items : Data) (e e' : TheError) →
        e ≢ CoreError.Memory → e' ≢ CoreError.Memory → IsErrorIn ds items e → IsErrorIn ds items e' → e ≡ e' }
{}

/// With a library, data have one program at most.
pub fn data_have_one_program()
    ensures { (ds : List Definition) (items : Data) (p q : Source) → IsProgramOf ds items p → IsProgramOf ds items q → p ≡ q }
{}

/// What the forms of a text assign is found in its first reading, in which it assigns nothing yet: where a text has
/// drafts, these assign the names found, and no others.
pub fn text_assigns_the_names_found()
    ensures { AssignsTheNamesFound }
{}
