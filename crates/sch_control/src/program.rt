//! Programs of the language Control.

ghost use Rattle.std.specs.Prelude.{IsTrue};
ghost use Rattle.sch_control.specs.BoundParts.{parts_bound};
ghost use Rattle.sch_control.specs.SourceView.{source_of};
ghost use Rattle.sch_control.specs.Valid.{all_known, bound_known, library_known, sites_once, statics_known};

use crate::body::Body;
use sch_word::{List, Statics};

/// A valid program of the language Control.
///
/// `library` has the labels of the library's procedures, in the order of their numbers, and the label of a
/// body is its number in `bodies`, where the top-level forms stand in their order. `sites` has the number of
/// parts of each site, with the operator for a call, and `bound` the numbers of the parts that the program
/// binds, in the order in which it binds them.
#[derive(Drop)]
pub struct ControlProgram {
    pub statics: Statics,
    pub library: List<u32>,
    pub bodies: List<Body>,
    pub sites: List<u32>,
    pub bound: List<List<u32>>,
    // Every number of a symbol, a literal, a global and a label is one that there is, constants are words, and
    // a closure has as many fields as its body has free variables.
    ghost known: { IsTrue (all_known (source_of statics library bodies sites bound)) },
    // Each site stands once, with the number of parts that is listed.
    ghost sited: { IsTrue (sites_once (source_of statics library bodies sites bound)) },
    // The parts that are bound are parts of their site, each once.
    ghost ordered: { IsTrue (bound_known (source_of statics library bodies sites bound)) },
    // The parts that are bound are variables, and they are bound in the order in which they are listed.
    ghost turns: { IsTrue (parts_bound (source_of statics library bodies sites bound)) },
    // The library's procedures have no free variables.
    ghost free: { IsTrue (library_known (source_of statics library bodies sites bound)) },
    // Symbols, literals and globals are few enough, name what there is and are in range.
    ghost ready: { IsTrue (statics_known (source_of statics library bodies sites bound)) },
}
