//! What a kernel answers to a write.

/// What a kernel, or a stream that stands for one, answers to one write: how many bytes it took, or
/// that it failed.
#[derive(Clone, Copy)]
pub enum Answer {
    Took(usize),
    Failed,
}
