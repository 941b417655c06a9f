//! Programs of the core language.

ghost use Rattle.std.specs.Prelude.{IsTrue};
ghost use Rattle.sch_lang.specs.SourceView.{source_of};
ghost use Rattle.sch_lang.specs.Valid.{constants_in_range, in_range, shaped, within_limits, sites_once, statics_known};

use crate::tree::{Exp, Lambda};
use sch_word::{Bytes, List, Lit};

/// A valid program of the core language.
///
/// A global holds at the start the procedure of the library's lambda with that number, or is unset.
/// `sites` has the number of parts of each site, with the operator for a call.
#[derive(Drop)]
pub struct Program {
    pub symbols: List<Bytes>,
    pub literals: List<Lit>,
    pub globals: List<Option<u32>>,
    pub library: List<Lambda>,
    pub forms: List<Exp>,
    pub sites: List<u32>,
    // Every number of a variable, a symbol, a literal and a global is one that there is.
    ghost numbered: { IsTrue (in_range (source_of symbols literals globals library forms sites)) },
    // Fixnums are in range, and characters and the bytes of texts and names are bytes.
    ghost words: { IsTrue (constants_in_range (source_of symbols literals globals library forms sites)) },
    // Each primitive has its count of operands, no sequence is empty, no variable of a Fix is assigned.
    ghost formed: { IsTrue (shaped (source_of symbols literals globals library forms sites)) },
    // The limits on nesting, operands, formals, bindings, variables and free variables hold.
    ghost limited: { IsTrue (within_limits (source_of symbols literals globals library forms sites)) },
    // Each site that is listed stands once, with the number of parts that is listed.
    ghost sited: { IsTrue (sites_once (source_of symbols literals globals library forms sites)) },
    // Symbols, literals and globals are few enough and name what there is.
    ghost ready: { IsTrue (statics_known (source_of symbols literals globals library forms sites)) },
}
