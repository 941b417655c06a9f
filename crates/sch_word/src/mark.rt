//! Marks of a body.

/// What a mark says of the instruction behind it. `Enter` has the number of its body; `Save`, `Restore`
/// and `Spill` that of a variable; `Call` and `Tail` that of a site of the program.
#[derive(Clone, Copy)]
pub enum MarkKind {
    /// The body is entered.
    Enter(u32),
    /// The variable is stored, so that a call does not lose it.
    Save(u32),
    /// The variable is loaded, after a call.
    Restore(u32),
    /// The variable is stored in the slot where it lives.
    Spill(u32),
    /// An argument is put aside.
    Temp,
    /// An argument is stored in a slot.
    Argument,
    Call(u32),
    Return,
    Tail(u32),
}
