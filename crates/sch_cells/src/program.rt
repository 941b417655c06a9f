//! Programs of the cell language, and the two forms in which they are written.

ghost use Rattle.std.specs.Prelude.{Bool, true, false, IsTrue};
ghost use Rattle.sch_cells.specs.SourceView.{source_of};
ghost use Rattle.sch_cells.specs.Valid.{scoped, formed, constants_in_range, within_limits, sited, statics_known};

use crate::tree::{Exp, Lambda};
use sch_word::{List, Statics};
use std::marker::PhantomData;

/// Which nodes a cell program may have.
pub trait Form {
    // Whether what was an assigned variable holds a cell, and no variable is ever assigned.
    ghost boxed: { Bool };
}

/// Variables may be assigned, and no node speaks of cells.
#[derive(Drop)]
pub struct Unboxed;

/// No variable is ever assigned. What was an assigned variable holds a cell.
#[derive(Drop)]
pub struct Boxed;

impl Form for Unboxed {
    ghost boxed = { false };
}

impl Form for Boxed {
    ghost boxed = { true };
}

/// A valid program of the cell language, in one of its two forms.
///
/// `sites` has the number of parts of each site, with the operator for a call.
#[derive(Drop)]
pub struct CellProgram<K: Form> {
    pub statics: Statics,
    pub library: List<Lambda>,
    pub forms: List<Exp>,
    pub sites: List<u32>,
    /// The number of each variable is below this.
    pub variables: u32,
    pub form: PhantomData<K>,
    // Each variable has one number in the whole program and is bound where it is used.
    ghost scoped: { IsTrue (scoped (source_of statics library forms sites variables)) },
    // The nodes are those of this form, name what there is, and have the parts that they must have.
    ghost formed: { IsTrue (formed K.boxed (source_of statics library forms sites variables)) },
    // Fixnums are in range, and characters and the bytes of texts and names are bytes.
    ghost words: { IsTrue (constants_in_range (source_of statics library forms sites variables)) },
    // The limits on nesting, operands, formals, bindings, variables and free variables hold.
    ghost limited: { IsTrue (within_limits K.boxed (source_of statics library forms sites variables)) },
    // Each site that is listed stands once, with the number of parts that is listed.
    ghost sited: { IsTrue (sited (source_of statics library forms sites variables)) },
    // Symbols, literals and globals are few enough and name what there is.
    ghost ready: { IsTrue (statics_known (source_of statics library forms sites variables)) },
}
