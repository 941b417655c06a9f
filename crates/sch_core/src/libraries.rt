//! Libraries.

ghost use Rattle.std.specs.Prelude.{◌≡◌, [], IfOk};
ghost use Rattle.sch_link_program.specs.Definitions.{definitions_of};
ghost use Rattle.sch_link_tables.specs.Programs.{seen};
ghost use Rattle.sch_core.specs.LibraryDefinitions.{IsSoundLibrary};
ghost use Rattle.sch_toplevel.specs.Views.{given};

use sch_link_program::{Definition, is_hidden};
use sch_word::{List, Mem};
use std::alloc::Global;

/// The definitions of a library, in the order of its text. Each is a procedure of a valid program, and names
/// only itself and earlier ones.
#[derive(Drop)]
pub struct Library<'a> {
    pub definitions: List<Definition<'a>>,
    ghost sound: { ∥ IsSoundLibrary (definitions_of definitions) ∥₁ },
}

impl<'a> Library<'a> {
    /// The library without a definition.
    pub fn empty(alloc: Global) -> Library<'a>
        ensures { definitions_of result.definitions ≡ [] }
    {
        Library {
            definitions: List::new(alloc),
        }
    }
}

/// The names that a text sees of a library.
pub(crate) fn seen_names<'a>(
    alloc: Global,
    definitions: &[Definition<'a>],
) -> Result<List<&'a [u8]>, Mem>
    ensures { IfOk result (λ names. given names ≡ seen (definitions_of definitions.now)) }
{
    let mut names = List::new(alloc);
    for d in definitions {
        if !is_hidden(d.name) {
            names.push(d.name)?;
        }
    }
    Ok(names)
}
