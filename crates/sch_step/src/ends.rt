//! How steps and runs end.

use sch_insn::StuckCause;

/// Where a machine is stuck, and why.
#[derive(Clone, Copy)]
pub struct Stuck {
    pub at: u64,
    pub cause: StuckCause,
}

/// How a step ended.
#[derive(Clone, Copy)]
pub enum StepEnd {
    Ran,
    Exited(u8),
    Stuck(Stuck),
}

/// How a run ended.
#[derive(Clone, Copy)]
pub enum RunEnd {
    Exited(u8),
    Spent,
    Stuck(Stuck),
}
