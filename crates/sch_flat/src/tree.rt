//! Expressions of flat closures, with their variables and records.

use sch_word::{Bytes, Const, List, Primitive};

/// A variable that is used in a body.
#[derive(Clone, Copy)]
pub enum Variable {
    /// One that the body binds, by its number.
    Bound(u32),
    /// A field of the record of the procedure that was entered, by its place in the record.
    Free(u32),
}

/// A procedure's record that is made: its code, and the variables whose values its fields take.
#[derive(Drop)]
pub struct Made {
    /// The place of its body in the program's list of bodies.
    pub label: u32,
    pub fields: List<Variable>,
}

/// An expression of a body. No body has a free variable: what a procedure needs of the variables round it
/// stands in the fields of its record.
///
/// Where a node binds variables, `first` is the number of the first of them and the others follow it, and
/// `site` is the place in the program whose operands or inits have an order of their own.
#[cycle(flat)]
#[derive(Drop)]
pub enum Exp {
    Constant(Const),
    /// The literal with this number, an object.
    Literal(u32),
    Var(Variable),
    Global(u32),
    SetGlobal(u32, Box<Exp>),
    /// A definition at top level.
    Define(u32, Box<Exp>),
    If(Box<Exp>, Box<Exp>, Box<Exp>),
    /// One expression after another, for the value of the last.
    Seq(List<Exp>),
    /// The inits, outside, and the body, in which each variable has its init's value.
    Let {
        site: u32,
        first: u32,
        inits: List<Exp>,
        body: Box<Exp>,
    },
    /// A new procedure.
    MakeClosure(Made),
    /// New procedures, each in a variable that the records of all of them may take, and the body.
    FixClosures {
        first: u32,
        closures: List<Made>,
        body: Box<Exp>,
    },
    /// Where `spread` is set, the last operand is a list of further operands.
    Call {
        site: u32,
        spread: bool,
        operator: Box<Exp>,
        operands: List<Exp>,
    },
    Prim(u32, Primitive, List<Exp>),
    /// New cells, each in a variable of its own, and the body.
    NewCells(List<NewCell>, Box<Exp>),
    /// What the cell in a variable holds.
    CellGet(Variable),
    /// A value that is put into the cell in a variable.
    CellSet(Variable, Box<Exp>),
}

/// A new cell.
#[derive(Clone, Copy)]
pub struct NewCell {
    /// The variable that has the cell.
    pub variable: u32,
    /// The variable whose value the cell holds at first; with none it is unset.
    pub content: Option<Variable>,
}

/// The body of a procedure of the text.
#[derive(Drop)]
pub struct Body {
    /// The name under which a listing shows it.
    pub name: Bytes,
    /// The number of the first variable that the procedure binds.
    pub first: u32,
    /// How many variables the procedure binds, its rest variable included.
    pub formals: u32,
    /// Whether the last formal takes a list of the operands that are left over.
    pub rest: bool,
    /// How many fields its record has.
    pub fields: u32,
    pub code: Exp,
}
