//! Literals of a program.

ghost use Rattle.std.specs.Prelude.{◌≡◌, ◌<◌, [], IfNone};
ghost use Rattle.sch_word.specs.values.Effort.{effort};
ghost use Rattle.sch_word.specs.values.LiteralParts.{plain, sizes, size_next};
ghost use Rattle.sch_word.specs.values.LiteralView.{literal};
ghost use Rattle.sch_word.specs.values.Literals.{literal_size};

use crate::constant::Const;
use crate::list::{Bytes, List};
use crate::literal_release::{joined, release, taken};

/// A literal of a program's text: what a quotation or a string means (R5RS 4.1.2).
pub enum Lit {
    Constant(Const),
    /// A string.
    Text(Bytes),
    /// The elements of a list, and what stands behind them: the empty list in a proper one.
    List(List<Lit>, Box<Lit>),
    Vector(List<Lit>),
}

impl Lit {
    /// Takes a literal apart. Its parts join the rest, and one of all is next.
    pub(crate) fn opened(self, rest: Vec<Lit>) -> (Option<Lit>, Vec<Lit>)
        ensures less { effort (size_next result.0) (sizes (plain result.1.items))
            < effort (literal_size (literal self)) (sizes (plain rest.items)) }
        ensures none { IfNone result.0 (result.1.items ≡ []) }
    {
        match self {
            Lit::Constant(_) => taken(rest, None),
            Lit::Text(_) => taken(rest, None),
            Lit::List(items, tail) => joined(rest, items.into_vec(), Some(tail)),
            Lit::Vector(items) => joined(rest, items.into_vec(), None),
        }
    }
}

impl Drop for Lit {
    fn drop(self) {
        match self {
            Lit::Constant(_) => {}
            Lit::Text(_) => {}
            Lit::List(items, tail) => release(items.into_vec(), Some(tail)),
            Lit::Vector(items) => release(items.into_vec(), None),
        }
    }
}
