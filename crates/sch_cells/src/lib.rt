//! The cell language: its syntax, which programs are valid, and what a program does.
#![tactic(auto)]

mod counts;
mod program;
mod tree;

pub use counts::{count, count_lambdas};
pub use program::{Boxed, CellProgram, Form, Unboxed};
pub use tree::{Exp, Lambda, NewCell};
