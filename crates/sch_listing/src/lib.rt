//! The listing of a compiled program, and its text.
#![tactic(auto)]

mod listing;
mod marks;
mod numbers;
mod places;
mod printing;

pub use listing::{Cycle, Listing};
pub use numbers::{address_digits, write_number_line};
pub use printing::print_listing;
