//! The instructions of x86-64 that compiled programs use: what each one is, how it is spelled, and
//! what a machine does on it.
#![tactic(auto)]

pub mod condition;
mod insn;
mod laws;
mod state;
pub mod system_call;

pub use insn::{Arg, Insn};
pub use laws::{reading_inverts_spelling, spellings_are_a_prefix_code, traces_are_of_runs};
pub use state::{Flags, Regs, StuckCause};
