//! The program of a text.

ghost use Rattle.std.specs.Prelude.{◌≡◌, ◌≤◌, ◌+◌, ◌*◌, length, IfOk, IfErr, MatchResult};
ghost use Rattle.sch_read.specs.Views.{data_of};
ghost use Rattle.sch_core.specs.Answer.{IsErrorIn};
ghost use Rattle.sch_core.specs.Programs.{IsProgramOf};
ghost use Rattle.sch_toplevel.specs.Forms.{form_places};
ghost use Rattle.sch_lang.specs.Measures.{nodes_and_bound};
ghost use Rattle.sch_lang.specs.ProgramView.{source};
ghost use Rattle.sch_lang.specs.Tree.{Source, count};
ghost use Rattle.sch_link_program.specs.Definitions.{definitions_of};
ghost use Rattle.sch_link_program.specs.Size.{size_of_definitions};
ghost use Rattle.sch_read.specs.Valid.{max_weight, weights};

use crate::error::{CoreError, error_of};
use crate::libraries::{Library, seen_names};
use crate::limits::first_excess;
use crate::quotable::know_data;
use sch_lang::Program;
use sch_link_program::assemble;
use sch_read::Datum;
use sch_toplevel::{Text, read_text};
use std::alloc::Global;

/// The program of a text that uses a library, or why it has none: the least place, and there the first cause.
pub fn core(alloc: Global, library: &Library<'_>, items: &[Datum]) -> Result<Program, CoreError>
    requires light { weights (data_of items.now) ≤ max_weight }
    ensures found { IfOk result (λ p. IsProgramOf (definitions_of library.now.definitions) (data_of items.now) (source p)) }
    ensures size { IfOk result (λ p. nodes_and_bound (source p)
        ≤ 16 * weights (data_of items.now) + size_of_definitions (definitions_of library.now.definitions)) }
    // Each form has a place.
    ensures places { IfOk result (λ p. length (form_places (data_of items.now)) ≡ count (source p).forms) }
    ensures only { (p : Source) → IsProgramOf (definitions_of library.now.definitions) (data_of items.now) p →
        MatchResult result (λ q. source q ≡ p) (λ e. e ≡ CoreError.Memory) }
    ensures fault { IfErr result (IsErrorIn (definitions_of library.now.definitions) (data_of items.now)) }
{
    know_data(alloc, items)?;
    let definitions = library.definitions.as_slice();
    let seen = seen_names(alloc, definitions)?;
    let Text {
        own,
        drafts,
        places,
        fault,
    } = read_text(alloc, seen.as_slice(), items)?;
    if let Some(f) = fault {
        return Err(error_of(f));
    }
    let parts = assemble(alloc, definitions, &own, drafts.as_slice())?;
    if let Some((kind, at)) = first_excess(alloc, places.as_slice(), parts.forms.as_slice())? {
        return Err(CoreError::Limit(kind, at));
    }
    Ok(parts.into_program())
}
