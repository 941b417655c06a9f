//! The data that a program starts with: its literals (R5RS 4.1.2), its globals, the names of its symbols and the
//! procedures of its library; where they lie, and their words.
#![tactic(auto)]

mod contents;
mod data_words;
mod placed_values;
mod placing;
mod units;

pub use data_words::{Places, lay_out, words_of};
pub use placing::{StaticObjects, literal_words};
