//! From frame programs to labelled code: each body as instructions of the machine, and what follows from them for whole
//! programs.
//!
//! What is selected is covered: all that the passes make, but calls that spread their last operand.
#![tactic(auto)]

mod body_items;
mod selecting;

pub use selecting::select;
