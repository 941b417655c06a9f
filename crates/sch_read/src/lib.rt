//! The reader: the bytes of a text to its lexemes, and these to its data.
#![tactic(auto)]

mod datum;
mod datum_order;
mod error;
mod identifier;
mod integer_token;
mod laws;
mod letters;
mod lexeme;
mod lexer;
mod numeral;
mod parser;
mod reader;
mod release;
mod strings;
mod token;
mod trees;

pub use datum::{Atom, Datum, Node};
pub use datum_order::{data_in_order, enter_parts};
pub use error::ReadError;
pub use laws::{
    a_text_has_one_fault, a_text_spells_data_or_has_a_fault, a_text_spells_one_list_of_data,
};
pub use parser::MAX_NESTING;
pub use reader::read_all;
