//! The definitions of a library's text.

ghost use Rattle.std.specs.Prelude.{◌≡◌, ◌≤◌, ◌<◌, ◌^◌, ◌*◌, true, Some, map, IfOk, IfErr, MatchResult, List as Listed};
ghost use Rattle.sch_word.specs.trees.Shape.{max_operands};
ghost use Rattle.sch_names.specs.ScopeView.{given_names};
ghost use Rattle.sch_link_tables.specs.Programs as words;
ghost use Rattle.sch_link_tables.specs.Programs.{names_of_each, procedure_of};
ghost use Rattle.sch_link_tables.specs.Room.{has_near_variables};
ghost use Rattle.sch_link_program.specs.Definitions.{definition_of, definitions_of};
ghost use Rattle.sch_link_program.specs.Size.{size_of_definitions, have_few_formals, have_near_bodies};
ghost use Rattle.sch_read.specs.Valid.{max_weight, weights};
ghost use Rattle.sch_read.specs.Views.{data_of};
ghost use Rattle.sch_sketch.specs.DraftMeasures.{size};
ghost use Rattle.sch_sketch.specs.DraftView.{draft_of};
ghost use Rattle.sch_core.specs.LibraryDefinitions.{AreNamedProcedures};
ghost use Rattle.sch_core.specs.SoundDrafts.{IsProcedure};
ghost use Rattle.sch_core.specs.Libraries.{IsLibraryOf, IsLibraryError};
ghost use Rattle.sch_core.specs.Excess.{definition_excess, first_definition_excess};
ghost use Rattle.sch_toplevel.specs.Items.{item_places};

use crate::error::{CoreError, Kind, error_of};
use crate::libraries::Library;
use crate::limits::excess;
use crate::quotable::know_data;
use crate::small::is_small;
use sch_link_drafts::{Numbers, number};
use sch_link_program::Definition;
use sch_link_tables::Output;
use sch_names::{Name, Names};
use sch_read::Datum;
use sch_sketch::Draft;
use sch_toplevel::{Items, read_items};
use sch_word::{List, Mem};
use std::alloc::Global;

/// The definition of this name whose procedure is this draft.
fn definition<'a>(name: &'a [u8], draft: Draft<'a>) -> Definition<'a>
    requires procedure { IsProcedure (draft_of draft) }
    ensures named { result.name.now ≡ name.now }
    ensures made { draft_of draft.entry ≡ procedure_of (definition_of result) }
{
    match draft {
        Draft::Lambda(formals, rest, body) => Definition {
            name,
            formals,
            rest,
            body: Box::into_inner(body),
        },
        _ => unreachable!(),
    }
}

/// The definitions of these names whose procedures are these drafts, in their order.
fn definitions<'a>(
    alloc: Global,
    names: &[Name<'a>],
    drafts: List<Draft<'a>>,
) -> Result<List<Definition<'a>>, Mem>
    requires whole { AreNamedProcedures (given_names names.now) (map draft_of drafts) }
    ensures named { IfOk result (λ ds. given_names names.now ≡ map Some (names_of_each (definitions_of ds))) }
    ensures made { IfOk result (λ ds. map draft_of drafts.entry ≡ map procedure_of (definitions_of ds)) }
{
    let mut left = drafts.reversed();
    let mut all = List::new(alloc);
    for name in names {
        let Some(name) = *name else {
            unreachable!();
        };
        let Some(draft) = left.pop() else {
            unreachable!();
        };
        all.push(definition(name, draft))?;
    }
    Ok(all)
}

/// What the procedure of a definition has too much of. A small one has too much of nothing; any other is numbered to be
/// counted, where the numbers of globals, symbols, sites and literals are all one.
fn definition_excess(alloc: Global, d: &Definition<'_>) -> Result<Option<Kind>, Mem>
    requires formals { d.now.formals ≤ max_operands }
    requires few { size (draft_of d.now.body) < 2 ^ 32 }
    requires variables { has_near_variables (draft_of d.now.body) ≡ true }
    ensures { IfOk result (λ kind. kind ≡ definition_excess (definition_of d.now)) }
{
    if is_small(d) {
        return Ok(None);
    }
    let none = Names::new(alloc);
    let numbers = Numbers {
        own: &none,
        globals: &none,
        symbols: &none,
    };
    let mut out = Output::new(alloc);
    let body = number(alloc, &numbers, None, &d.body, &mut out)?;
    excess(alloc, d.formals as u32, &body)
}

/// The first definition that has too much of something, and the place of its item.
fn first_definition_excess(
    alloc: Global,
    items: &[Datum],
    definitions: &[Definition<'_>],
) -> Result<Option<(Kind, u32)>, Mem>
    requires formals { have_few_formals (definitions_of definitions.now) ≡ true }
    requires small { size_of_definitions (definitions_of definitions.now) < 2 ^ 32 }
    requires variables { have_near_bodies (definitions_of definitions.now) ≡ true }
    ensures { IfOk result (λ found. found ≡ first_definition_excess (item_places (data_of items.now)) (definitions_of definitions.now)) }
{
    let n = items.len().min(definitions.len());
    for i in 0..n {
        if let Some(kind) = definition_excess(alloc, &definitions[i])? {
            return Ok(Some((kind, items[i].offset())));
        }
    }
    Ok(None)
}

/// The definitions of a library's text, or why it is none: the least place, and there the first cause. Each item
/// defines a procedure, which names itself and earlier ones alone.
pub fn library<'a>(alloc: Global, items: &'a [Datum]) -> Result<Library<'a>, CoreError>
    requires light { weights (data_of items.now) ≤ max_weight }
    ensures found { IfOk result (λ l. IsLibraryOf (data_of items.now) (definitions_of l.definitions)) }
    // A driver can bound the program of a text that uses the library.
    ensures size { IfOk result (λ l. size_of_definitions (definitions_of l.definitions) ≤ 16 * weights (data_of items.now)) }
    ensures only { (ds : Listed words.Definition) → IsLibraryOf (data_of items.now) ds →
        MatchResult result (λ l. definitions_of l.definitions ≡ ds) (λ e. e ≡ CoreError.Memory) }
    ensures fault { IfErr result (IsLibraryError (data_of items.now)) }
{
    know_data(alloc, items)?;
    let Items {
        names,
        drafts,
        fault,
    } = read_items(alloc, items)?;
    if let Some(f) = fault {
        return Err(error_of(f));
    }
    let definitions = definitions(alloc, names.as_slice(), drafts)?;
    if let Some((kind, at)) = first_definition_excess(alloc, items, definitions.as_slice())? {
        return Err(CoreError::Limit(kind, at));
    }
    Ok(Library { definitions })
}
