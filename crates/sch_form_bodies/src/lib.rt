//! The rows of bodies, procedures and definitions, and of assignments.
#![tactic(auto)]

mod assignments;
mod bodies;

pub use assignments::{row_define, row_set};
pub use bodies::{row_body, row_lambda, row_method};
