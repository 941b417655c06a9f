//! Where the values of a run are in the machine: their words, the heap, the addresses and labels of a program's code and
//! data, and what stands before the body of a procedure with a rest variable.
#![tactic(auto)]

pub mod addresses;
mod rests;
mod value_words;

pub use rests::enter_rest;
pub use value_words::{constant_number, word};
