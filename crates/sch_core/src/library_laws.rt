//! Laws of libraries, as contracts of functions that do nothing.

ghost use Rattle.std.specs.Prelude.{◌≡◌, ◌≢◌, ◌⊎◌, List};
ghost use Rattle.sch_link_tables.specs.Programs.{Definition};
ghost use Rattle.sch_read.specs.Grammar.{Data};
ghost use Rattle.sch_core.specs.declared.error.CoreError.{CoreError as TheError};
ghost use Rattle.sch_core.specs.Libraries.{IsLibraryOf, IsLibraryError};

use crate::error::CoreError;

/// Items stand for a library, or an error says why they stand for none, and never both. Out of memory says nothing of
/// items.
pub fn items_have_a_library_or_an_error()
    ensures one { (items : Data) →
        ((ds : List Definition) × IsLibraryOf items ds) ⊎ ((e : TheError) × (e ≢ CoreError.Memory) × IsLibraryError items e) }
    ensures never_both { (items : Data) (ds : List Definition) (e : TheError) →
        IsLibraryOf items ds → IsLibraryError items e → e ≡ CoreError.Memory }
{}

/// Items have one error at most, but for out of memory.
pub fn items_have_one_error()
    ensures { (items : Data) (e e' : TheError) →
        e ≢ CoreError.Memory → e' ≢ CoreError.Memory → IsLibraryError items e → IsLibraryError items e' → e ≡ e' }
{}

/// Items stand for one library at most.
pub fn items_have_one_library()
    ensures { (items : Data) (ds ds' : List Definition) → IsLibraryOf items ds → IsLibraryOf items ds' → ds ≡ ds' }
{}
