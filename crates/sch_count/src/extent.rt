//! How far a count goes.

/// What is counted: the bodies that have a row, and how many steps are done at most.
#[derive(Clone, Copy)]
pub struct Extent {
    /// The bodies are those with a number below this.
    pub bodies: u32,
    pub steps: u64,
}
