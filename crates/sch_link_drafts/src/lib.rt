//! From drafts to expressions of the core language: the walk that numbers a draft.
#![tactic(auto)]

mod expressions;

pub use expressions::{Numbers, number, number_each};
