//! The printer: data to the bytes of a text.
#![tactic(auto)]

mod printer;

pub use printer::print;
