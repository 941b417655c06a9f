//! From a library and a text to a program: which definitions of the library a text keeps, what its globals hold at the
//! start, and the program of the kept definitions and of the text's forms.
#![tactic(auto)]

mod definition;
mod keeping;
mod numbered_program;
mod parts;
mod program;
mod starting;

pub use definition::Definition;
pub use keeping::is_hidden;
pub use program::assemble;
