//! Operands, primitives, operations and calls: their items, and that the machine does what they do.
#![tactic(auto)]

mod arithmetic;
mod calls;
mod cells;
mod closures;
mod globals;
mod operands;
mod operations;
mod pairs;
mod primitives;
mod strings;
mod vectors;

pub use calls::{call, check_count, tail_call};
pub use closures::group;
pub use operations::operation;
