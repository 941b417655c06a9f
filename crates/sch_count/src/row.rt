//! The numbers of a body.

/// The activations of a body. A leaf is one that ended by a return or a tail call and made no call.
#[derive(Clone, Copy)]
pub struct Row {
    pub activations: u128,
    pub leaves: u128,
    /// The saves of all its activations.
    pub saves: u128,
    /// The saves of its leaves.
    pub leaf_saves: u128,
}
