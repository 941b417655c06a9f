//! The core language: its syntax, which programs are valid, and what a program does.
#![tactic(auto)]

mod laws;
mod program;
mod tree;

pub use laws::{
    more_entries_change_no_end, program_is_valid, run_fails_by_answer, run_goes_on_when_spent,
    run_needs_own_orders,
};
pub use program::Program;
pub use sch_word::Lit;
pub use tree::{Exp, Lambda};
