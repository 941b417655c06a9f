//! What of a text its size depends on.

/// What of a text its size depends on: a run of bytes, a label, or a jump.
#[derive(Clone, Copy)]
pub enum Piece {
    /// So many bytes, whatever stands around them.
    Bytes(u8),
    /// A label.
    Label(u32),
    /// A jump to a label: 2 bytes, or so many if it is long.
    Jump(u8, u32),
}
