//! Expressions of the core language before their symbols, literals, globals and sites have numbers.

ghost use Rattle.std.specs.Prelude.{◌≡◌};

use sch_names::Name;
use sch_read::Datum;
use sch_word::{Const, List, Primitive};

/// An expression whose symbols, literals and globals are names and data of the text.
#[derive(Drop)]
pub enum Draft<'a> {
    Constant(Const),
    Symbol(&'a [u8]),
    /// The datum that is quoted: a string, a vector, or a list that is not empty.
    Literal(&'a Datum),
    /// The variable with this number of variables bound nearer.
    Local(usize),
    Global(&'a [u8]),
    SetLocal(usize, Box<Draft<'a>>),
    SetGlobal(&'a [u8], Box<Draft<'a>>),
    Define(&'a [u8], Box<Draft<'a>>),
    If(Box<Draft<'a>>, Box<Draft<'a>>, Box<Draft<'a>>),
    Seq(List<Draft<'a>>),
    /// The names of the variables, the last of them nearest, their inits, and the body.
    Let(List<Name<'a>>, List<Draft<'a>>, Box<Draft<'a>>),
    /// The same, and whether each init is a procedure by its form.
    Letrec(List<Name<'a>>, bool, List<Draft<'a>>, Box<Draft<'a>>),
    /// The number of formals, and whether the last of them takes a list of what is left.
    Lambda(usize, bool, Box<Draft<'a>>),
    /// The names of the variables whose inits the operands are, if they are such, the operator, and the operands.
    Call(List<Name<'a>>, Box<Draft<'a>>, List<Draft<'a>>),
    Prim(Primitive, List<Draft<'a>>),
}
