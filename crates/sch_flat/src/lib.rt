//! The language of flat closures: its syntax, which programs are valid, and what a program does.
#![tactic(auto)]

mod program;
mod tree;

pub use program::FlatProgram;
pub use tree::{Body, Exp, Made, NewCell, Variable};
