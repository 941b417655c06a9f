//! Expressions of the cell language.

use sch_word::{Bytes, Const, List, Primitive};

/// An expression of the cell language, in which each variable has one number in the whole program.
///
/// Where a node binds variables, `first` is the number of the first of them and the others follow it, and
/// `site` is the place in the program whose operands or inits have an order of their own.
#[cycle(cells)]
#[derive(Drop)]
pub enum Exp {
    Constant(Const),
    /// The literal with this number, an object.
    Literal(u32),
    Var(u32),
    Global(u32),
    SetVar(u32, Box<Exp>),
    SetGlobal(u32, Box<Exp>),
    /// A definition at top level.
    Define(u32, Box<Exp>),
    If(Box<Exp>, Box<Exp>, Box<Exp>),
    /// One expression after another, for the value of the last.
    Seq(List<Exp>),
    /// The inits, outside, and the body, in which each variable has its init's value.
    Let {
        site: u32,
        first: u32,
        inits: List<Exp>,
        body: Box<Exp>,
    },
    /// Procedures that know one another, and the body. None of the variables is assigned.
    Fix {
        first: u32,
        lambdas: List<Lambda>,
        body: Box<Exp>,
    },
    /// A `letrec` whose inits may be any expressions, and the body.
    Rec {
        site: u32,
        first: u32,
        inits: List<Exp>,
        body: Box<Exp>,
    },
    Lambda(Box<Lambda>),
    /// Where `spread` is set, the last operand is a list of further operands.
    Call {
        site: u32,
        spread: bool,
        operator: Box<Exp>,
        operands: List<Exp>,
    },
    Prim(u32, Primitive, List<Exp>),
    /// New cells, each in a variable of its own, and the body.
    NewCells(List<NewCell>, Box<Exp>),
    /// What the cell in a variable holds.
    CellGet(u32),
    /// A value that is put into the cell in a variable.
    CellSet(u32, Box<Exp>),
}

/// A procedure of the text (R5RS 4.1.4).
#[cycle(cells)]
#[derive(Drop)]
pub struct Lambda {
    /// The name under which a listing shows the body.
    pub name: Bytes,
    /// The number of the first formal; the others follow it.
    pub first: u32,
    /// How many variables the procedure binds, its rest variable included.
    pub formals: u32,
    /// Whether the last formal takes a list of the operands that are left over.
    pub rest: bool,
    pub body: Exp,
}

/// A new cell.
#[derive(Clone, Copy)]
pub struct NewCell {
    /// The variable that has the cell.
    pub variable: u32,
    /// The variable whose value the cell holds at first; with none it is unset.
    pub content: Option<u32>,
}
