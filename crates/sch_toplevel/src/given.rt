//! Names that are given.

ghost use Rattle.std.specs.Prelude.{◌≡◌, map, OnOk};
ghost use Rattle.sch_names.specs.NamesView.{names_of};
ghost use Rattle.sch_link_tables.specs.Named.{firsts};
ghost use Rattle.sch_toplevel.specs.Views.{given};

use sch_names::Names;
use sch_word::Mem;
use std::alloc::Global;

/// Adds names.
pub(crate) fn add_names(alloc: Global, xs: &[&[u8]], names: &mut Names) -> Result<(), Mem>
    ensures { OnOk result (names_of names.new ≡ firsts (names_of names.old) (given xs.now)) }
{
    for x in xs {
        names.insert(alloc, x)?;
    }
    Ok(())
}
