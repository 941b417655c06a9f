//! Expressions of the core language whose parts are still text.

ghost use Rattle.std.specs.Prelude.{◌≡◌};

use sch_names::{Keyword, Name};
use sch_read::Datum;
use sch_word::{Const, List, Primitive};

/// Whether the value of an expression is asked for, or only whether it is true.
#[derive(Clone, Copy, Drop)]
pub enum Position {
    Value,
    Test,
}

/// How the rest of a form is read.
#[derive(Clone, Copy, Drop)]
pub enum Row {
    /// What follows the keyword.
    Form(Keyword),
    /// A body.
    Body,
    /// What follows `define` in `(define (v . F) e ..)`: a procedure.
    Method,
    /// The bindings of a `let*` at this place, and its body.
    Nest(u32),
    /// The clauses of a `cond`.
    Clauses,
    /// The clauses of a `case`, whose key is the nearest variable.
    Cases,
    /// The data of a clause of a `case`, each compared with the nearest variable.
    Tests,
    /// Operands, each compared with the next: the nearest variables.
    Chain(Primitive),
    /// Operands that are joined from the left: how many come before the last, and how many variables are
    /// bound nearer than the first.
    Join(Primitive, usize, usize),
}

/// An expression without parts.
#[derive(Clone, Copy, Drop)]
pub enum Leaf<'a> {
    Constant(Const),
    Symbol(&'a [u8]),
    /// The datum that is quoted: a string, a vector, or a list that is not empty.
    Literal(&'a Datum),
    /// The variable with this number of variables bound nearer.
    Local(usize),
    Global(&'a [u8]),
}

/// What is wrong with a text, with its place.
#[derive(Clone, Copy, Drop)]
pub enum Wrong<'a> {
    KeywordDefined(u32),
    BadForm(u32),
    /// The name is nowhere bound.
    Unbound(u32, &'a [u8]),
}

/// What is made of parts.
#[derive(Drop)]
pub enum Kind<'a> {
    If,
    Seq,
    /// The names of the variables, one for each part but the last.
    Let(List<Name<'a>>),
    /// The same, and whether each init is a procedure by its form.
    Letrec(List<Name<'a>>, bool),
    /// The names of the formals, and whether the last of them takes a list of what is left. The one part
    /// is the body.
    Lambda(List<Name<'a>>, bool),
    /// The first part is the operator. The names are those of the variables whose inits the others are, if they
    /// are such.
    Call(List<Name<'a>>),
    Prim(Primitive),
    /// The variable with this number of variables bound nearer is set to the value of the last part.
    SetLocal(usize),
    SetGlobal(&'a [u8]),
    Define(&'a [u8]),
}

/// An expression whose parts are still text, with its place: the number of bytes before it.
#[derive(Drop)]
pub enum Sketch<'a> {
    /// A datum, which stands for an expression.
    Text(&'a Datum),
    /// The rest of a form.
    Rest(Row, u32, &'a [Datum], &'a [Datum]),
    Wrong(Wrong<'a>),
    Leaf(u32, Leaf<'a>),
    Node(Kind<'a>, u32, List<Sketch<'a>>),
    /// A form with this number of bindings, of which it may have 200.
    Limited(u32, usize, Box<Sketch<'a>>),
}
