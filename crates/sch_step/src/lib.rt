//! A machine that steps: the table of instructions, run. What was fetched from text that nothing can
//! write is kept, so that a step seldom decodes; `bench/step.py` measures it.
#![tactic(auto)]

mod division;
mod ends;
mod fetched;
mod flags;
mod kernel;
mod loading;
mod machine;
mod processor;
mod rows;
mod segment;
mod stuck;

pub use ends::{RunEnd, StepEnd, Stuck};
pub use loading::load;
pub use machine::{Machine, run, step};
