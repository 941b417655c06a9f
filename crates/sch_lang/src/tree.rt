//! Expressions of the core language.

use sch_word::{Bytes, Const, List, Primitive};

/// An expression of the core language (R5RS 4.1, with `let` and `letrec` of 4.2.2).
///
/// The first number of `Let`, `Rec`, `Call` and `Prim` is the site: the place in the program whose
/// operands or inits have an order of their own. `Local(k)` is the variable with k variables bound
/// nearer; in a group the last is nearest.
#[cycle(core)]
#[derive(Drop)]
pub enum Exp {
    Constant(Const),
    /// The literal with this number, an object.
    Literal(u32),
    Local(u32),
    Global(u32),
    SetLocal(u32, Box<Exp>),
    SetGlobal(u32, Box<Exp>),
    /// A definition at top level.
    Define(u32, Box<Exp>),
    If(Box<Exp>, Box<Exp>, Box<Exp>),
    /// One expression after another, for the value of the last.
    Seq(List<Exp>),
    /// The inits, outside, and the body, in which each variable has its init's value.
    Let(u32, List<Exp>, Box<Exp>),
    /// Procedures that know one another, and the body. None of the variables is assigned.
    Fix(List<Lambda>, Box<Exp>),
    /// A `letrec` whose inits may be any expressions, and the body.
    Rec(u32, List<Exp>, Box<Exp>),
    Lambda(Box<Lambda>),
    /// The operator and the operands.
    Call(u32, Box<Exp>, List<Exp>),
    Prim(u32, Primitive, List<Exp>),
}

/// A procedure of the text (R5RS 4.1.4).
#[cycle(core)]
#[derive(Drop)]
pub struct Lambda {
    /// The name under which a listing shows the body.
    pub name: Bytes,
    /// How many variables the procedure binds, its rest variable included.
    pub formals: u32,
    /// Whether the last formal takes a list of the operands that are left over.
    pub rest: bool,
    pub body: Exp,
}
