//! Reads and expands a text with a library.

ghost use Rattle.std.specs.Prelude.{◌≤◌, ◌*◌, ℕ, length, IfOk, IfErr};
ghost use Rattle.sch_lang.specs.Measures.{nodes_and_bound};
ghost use Rattle.sch_lang.specs.ProgramView.{source};
ghost use Rattle.sch_read.specs.Text.{Spells};
ghost use Rattle.sch_read.specs.Valid.{max_weight, weights};
ghost use Rattle.sch_read.specs.Views.{data_of};
ghost use Rattle.sch_link_program.specs.Definitions.{definitions_of};
ghost use Rattle.sch_link_program.specs.Size.{size_of_definitions};
ghost use Rattle.sch_core.specs.Libraries.{IsLibraryOf};
ghost use Rattle.sch_core.specs.Programs.{IsProgramOf};
ghost use Rattle.sch_driver.specs.Causes.{IsErrorOf, Means, max_source_size};
ghost use Rattle.sch_driver.specs.PartErrors.{FailsToRead, FailsToDefine, FailsToExpand};

use crate::error::{CompileError, Part, of_expanding, of_reading};
use sch_core::{Library, core, library};
use sch_lang::Program;
use sch_read::{Datum, read_all};
use sch_word::List;
use std::alloc::Global;

/// The data of a part.
fn read_part(alloc: Global, part: Part, text: &[u8]) -> Result<List<Datum>, CompileError>
    requires short { length text.now ≤ max_source_size }
    ensures found { IfOk result (λ items. Spells text.now (data_of items)) }
    ensures light { IfOk result (λ items. weights (data_of items) ≤ max_weight) }
    ensures refused { IfErr result (FailsToRead part text.now) }
{
    match read_all(alloc, text) {
        Ok(items) => Ok(items),
        Err(cause) => Err(of_reading(part, cause)),
    }
}

/// The library whose items these are.
fn expand_library<'a>(alloc: Global, items: &'a [Datum]) -> Result<Library<'a>, CompileError>
    requires light { weights (data_of items.now) ≤ max_weight }
    ensures found { IfOk result (λ l. IsLibraryOf (data_of items.now) (definitions_of l.definitions)) }
    ensures size { IfOk result (λ l. size_of_definitions (definitions_of l.definitions) ≤ 16 * max_weight) }
    ensures refused { IfErr result (FailsToDefine (data_of items.now)) }
{
    match library(alloc, items) {
        Ok(l) => Ok(l),
        Err(cause) => Err(of_expanding(Part::Library, cause)),
    }
}

/// The core program of a text with a library.
fn expand(alloc: Global, library: &Library<'_>, items: &[Datum]) -> Result<Program, CompileError>
    requires light { weights (data_of items.now) ≤ max_weight }
    requires small { size_of_definitions (definitions_of library.now.definitions) ≤ 16 * max_weight }
    ensures found { IfOk result (λ p. IsProgramOf (definitions_of library.now.definitions) (data_of items.now) (source p)) }
    ensures size { IfOk result (λ p. nodes_and_bound (source p) ≤ 32 * max_weight) }
    ensures refused { IfErr result (FailsToExpand (definitions_of library.now.definitions) (data_of items.now)) }
{
    match core(alloc, library, items) {
        Ok(p) => Ok(p),
        Err(cause) => Err(of_expanding(Part::User, cause)),
    }
}

/// The core program of a text with a library's text.
pub(crate) fn read_program(
    alloc: Global,
    library: &[u8],
    text: &[u8],
) -> Result<Program, CompileError>
    requires small { length library.now ≤ max_source_size }
    requires short { length text.now ≤ max_source_size }
    ensures means { IfOk result (λ p. Means library.now text.now (source p)) }
    ensures size { IfOk result (λ p. nodes_and_bound (source p) ≤ 32 * max_weight) }
    ensures refused { IfErr result (λ e. (depth : ℕ) → IsErrorOf library.now text.now depth e) }
{
    let definitions = read_part(alloc, Part::Library, library)?;
    let known = expand_library(alloc, definitions.as_slice())?;
    let items = read_part(alloc, Part::User, text)?;
    let program = expand(alloc, &known, items.as_slice())?;
    Ok(program)
}
