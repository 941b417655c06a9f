//! The shortest text: which of its jumps are long, and where its labels then stand.
#![tactic(auto)]

mod choice;
mod layout;
mod piece;
mod search;
mod spans;
mod windows;

pub use choice::{Forms, choose, long_jumps};
pub use piece::Piece;
