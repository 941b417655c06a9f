//! From data to drafts: expressions of the core language before their globals and sites have numbers.
#![tactic(auto)]

mod fault_order;
mod nodes;
mod reports;
mod table;
mod walk;

pub use walk::{Walk, read};
