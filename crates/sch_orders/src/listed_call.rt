//! What is listed of the moves of a call.

use sch_word::{List, Place};

/// What is listed of the moves of a call.
#[derive(Drop)]
pub struct ListedCall {
    /// The site of the call.
    pub site: u32,
    /// The parts of the call by their numbers, of which the operator has 0, in the order in which they are moved first.
    pub order: List<u32>,
    /// The places whose values go round: each gets what the next one holds, and the last what the first holds.
    pub cycles: List<List<Place>>,
}
