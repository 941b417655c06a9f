//! What of a machine's state has a type: its registers, its flags, and why it has no next step.

/// The sixteen registers of a machine, by their numbers.
#[derive(Clone, Copy)]
pub struct Regs {
    pub words: [u64; 16],
}

/// The flags OF, SF, ZF and CF of a machine. None is unknown: what the processor leaves undefined,
/// or what the table does not speak of.
#[derive(Clone, Copy)]
pub struct Flags {
    pub overflow: Option<bool>,
    pub sign: Option<bool>,
    pub zero: Option<bool>,
    pub carry: Option<bool>,
}

/// Why a machine has no next step.
#[derive(Clone, Copy)]
pub enum StuckCause {
    /// No spelling stands at the machine's address in an executable segment.
    Fetch,
    /// The operand at this address does not lie in a segment with the right.
    Access(u64),
    /// A condition reads an unknown flag.
    Flag,
    /// The divisor is zero, or the quotient is no signed number of 64 bits.
    Divide,
    /// A call of the kernel that has no row; the number is that of rax.
    Kernel(u64),
}
