//! A generator of programs: from a number to the text of a program of 1,000 procedures.
#![tactic(auto)]

mod drawn_body;
mod draws;
mod generated_text;
mod pieces;

pub use generated_text::generate;
