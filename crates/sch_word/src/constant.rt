//! Constants of a program.

use crate::fix::Fix;

/// A constant of a program, which stands in code as one word (R5RS 4.1.2).
#[derive(Clone, Copy)]
pub enum Const {
    Fixnum(Fix),
    /// A character is a byte.
    Character(u8),
    Boolean(bool),
    /// The empty list.
    Nil,
    /// The value of an expression whose value R5RS leaves unspecified.
    Unspecified,
    /// The symbol with this number among the symbols of the program.
    Symbol(u32),
}
