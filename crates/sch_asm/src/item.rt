//! The items of a text.

use sch_insn::Insn;
use sch_word::MarkKind;

/// A mark of the instruction at an address.
#[derive(Clone, Copy)]
pub struct Mark {
    pub address: u64,
    pub kind: MarkKind,
}

/// An item of a text: a label, a mark, or what stands for one instruction. Registers and conditions have
/// the numbers that they have in instructions.
#[derive(Clone, Copy)]
pub enum Item {
    /// The place of the item behind it gets this label.
    Label(u32),
    /// An instruction without a Rip operand that is no direct jump.
    Plain(Insn),
    /// `jmp` to a label.
    Jump(u32),
    /// `jcc` to a label, with this condition.
    JumpIf(u8, u32),
    /// `lea` of a label's address into a register.
    LoadLabel(u8, u32),
    /// `mov` of the data word at an address into a register, by a Rip operand.
    LoadWord(u8, u64),
    /// `mov` of a register into the data word at an address, by a Rip operand.
    StoreWord(u64, u8),
    /// A mark of the instruction behind it.
    Mark(MarkKind),
}
