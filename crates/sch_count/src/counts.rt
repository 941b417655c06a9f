//! What is counted.

use crate::row::Row;
use sch_word::List;

/// The numbers of each body in a run, and the status with which the machine has exited.
#[derive(Drop)]
pub struct Counts {
    /// One for each body, in their order.
    pub rows: List<Row>,
    pub status: u8,
}
