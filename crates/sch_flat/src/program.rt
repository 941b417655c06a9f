//! Programs of flat closures.

ghost use Rattle.std.specs.Prelude.{IsTrue};
ghost use Rattle.sch_flat.specs.SourceView.{source_of};
ghost use Rattle.sch_flat.specs.Valid.{constants_in_range, is_closed, is_formed, in_order, sited, statics_known, within_levels};

use crate::tree::{Body, Exp};
use sch_word::{List, Statics};

/// A valid program of the language of flat closures.
///
/// `sites` has the number of parts of each site, with the operator for a call.
#[derive(Drop)]
pub struct FlatProgram {
    pub statics: Statics,
    /// The labels of the library's procedures, whose records have no fields.
    pub library: List<u32>,
    /// The bodies by their labels: those of the library first, each with those inside it, then those of
    /// the forms, outer before inner, in the order of the text.
    pub bodies: List<Body>,
    pub forms: List<Exp>,
    /// For each form, how many bodies stand before those of its procedures.
    pub starts: List<u32>,
    pub sites: List<u32>,
    // No body has a free variable, and each record has as many fields as its label's body.
    ghost closed: { IsTrue (is_closed (source_of statics library bodies forms starts sites)) },
    // The nodes name what there is and are well formed, and the limits hold.
    ghost formed: { IsTrue (is_formed (source_of statics library bodies forms starts sites)) },
    // Bodies and forms are nested no deeper than three times the levels of a program's text.
    ghost nested: { IsTrue (within_levels (source_of statics library bodies forms starts sites)) },
    // The procedures of the forms stand in the order of the forms.
    ghost ordered: { IsTrue (in_order (source_of statics library bodies forms starts sites)) },
    // Each site that is listed stands once, with the number of parts that is listed.
    ghost sited: { IsTrue (sited (source_of statics library bodies forms starts sites)) },
    // Symbols, literals and globals are few enough and name what there is.
    ghost ready: { IsTrue (statics_known (source_of statics library bodies forms starts sites)) },
    // Constants are words, and names and texts are bytes.
    ghost words: { IsTrue (constants_in_range (source_of statics library bodies forms starts sites)) },
}
