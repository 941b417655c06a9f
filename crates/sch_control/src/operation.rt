//! What needs no control: values, and what is done with them. `V` says where a value stands: a variable of
//! a body by its number, or a place of a frame.

use sch_word::{Const, List, Primitive};

/// A value that takes no work.
#[derive(Clone, Copy)]
pub enum Atom<V> {
    Constant(Const),
    /// The literal with this number, an object.
    Literal(u32),
    Variable(V),
}

/// A simple operand: an atom, or a primitive that reads and cannot stop, over atoms. The number is the site
/// of the primitive.
#[derive(Drop)]
pub enum Operand<V> {
    Atom(Atom<V>),
    Read(u32, Primitive, List<Atom<V>>),
}

/// What a closure captures, or a cell that is read or set: an atom, or a field of the closure that stands
/// in `V`.
#[derive(Clone, Copy)]
pub enum Source<V> {
    Atom(Atom<V>),
    Field(V, u32),
}

/// A closure that is made: the number of its body, and the values of its free variables.
#[derive(Drop)]
pub struct Closure<V> {
    pub label: u32,
    pub fields: List<Source<V>>,
}

/// A closure of a group, whose closures know one another, and where it is put.
#[derive(Drop)]
pub struct Member<V> {
    pub at: V,
    pub closure: Closure<V>,
}

/// What gives a value without a call.
#[derive(Drop)]
pub enum Operation<V> {
    Operand(Operand<V>),
    /// A primitive, at its site.
    Prim(u32, Primitive, List<Operand<V>>),
    Global(u32),
    SetGlobal(u32, Operand<V>),
    /// A field of the closure that stands in `V`.
    Field(V, u32),
    /// A new cell, charged, with a value.
    NewCell(Source<V>),
    /// A new cell, charged, that is unset.
    UnsetCell,
    CellGet(Source<V>),
    CellSet(Source<V>, Operand<V>),
    MakeClosure(Closure<V>),
}

/// A procedure call: its site, whether its last operand is a list whose elements are operands, the operator
/// and the operands.
#[derive(Drop)]
pub struct Application<V> {
    pub site: u32,
    pub spread: bool,
    pub operator: Operand<V>,
    pub operands: List<Operand<V>>,
}
