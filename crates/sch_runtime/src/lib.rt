//! The run-time routines: the items that every program carries.
#![tactic(auto)]

mod building;
mod new_list;
mod new_string;
mod new_vector;
mod put_value;

pub use building::routines;
