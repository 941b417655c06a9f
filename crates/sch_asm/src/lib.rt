//! From items to a text: labels, jumps to labels and marks become instructions and places in a program.
#![tactic(auto)]

mod assembly;
mod error;
mod item;
mod item_list;
mod layout;
mod narrowing;
mod resolving;
mod routine;

pub use assembly::{Asm, Word};
pub use error::AsmError;
pub use item::{Item, Mark};
pub use item_list::ItemList;
pub use narrowing::narrowed;
pub use resolving::{Resolved, resolve};
pub use routine::{FIRST_INNER_LABEL, FIRST_LABEL, LeftOver, OWN_WORDS, Routine};
