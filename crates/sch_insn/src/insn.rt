//! Instructions and their operands, and how long each is.

ghost use Rattle.std.specs.Prelude.{◌≡◌, ◌≤◌, ℕ, length};
ghost use Rattle.sch_insn.specs.Spelling.{spelling, operand, sib, IsValid};

/// An operand that may be a register or a place in memory. There it is 8 bytes, under `movb` and `movzx`
/// one byte, and under `lea` the address alone: no byte is touched. Registers have numbers: rax 0,
/// rcx 1, rdx 2, rbx 3, rsp 4, rbp 5, rsi 6, rdi 7, and r8 to r15 theirs.
///
/// Source: Intel SDM, volume 2, section 2.1.5 (ModR/M and SIB bytes) and 2.2.1.6 (RIP-relative
/// addressing).
#[derive(Clone, Copy)]
pub enum Arg {
    /// A register.
    Reg(u8),
    /// The memory at a register's word. The low bits of the register's number are not 101.
    Base(u8),
    /// The memory at a register's word plus a displacement of one byte.
    Base8(u8, i8),
    /// The memory at a register's word plus a displacement of four bytes.
    Base32(u8, i32),
    /// The memory at the address of the next instruction plus a displacement.
    Rip(i32),
}

/// An instruction: one variant for each form of the table, so that each has one spelling. In a name
/// `To` stands where the operand comes first and the register second, `From` where the register
/// comes first, `Number` where the second is a sign-extended number of four bytes, and `Number8`
/// where it has one byte. The same number in one byte and in four makes two instructions, which do
/// the same.
///
/// Source: Intel SDM, volume 2, the pages of the mnemonics.
#[derive(Clone, Copy)]
pub enum Insn {
    MovTo(Arg, u8),
    MovFrom(u8, Arg),
    MovNumber(Arg, i32),
    MovWord(u8, i64),
    /// `movb`: the low byte of the register into memory.
    StoreByte(Arg, u8),
    /// `movzx`: one byte of memory, zero-extended.
    LoadByte(u8, Arg),
    Lea(u8, Arg),
    AddTo(Arg, u8),
    OrTo(Arg, u8),
    AndTo(Arg, u8),
    SubTo(Arg, u8),
    XorTo(Arg, u8),
    CmpTo(Arg, u8),
    AddFrom(u8, Arg),
    OrFrom(u8, Arg),
    AndFrom(u8, Arg),
    SubFrom(u8, Arg),
    XorFrom(u8, Arg),
    CmpFrom(u8, Arg),
    AddNumber(Arg, i32),
    OrNumber(Arg, i32),
    AndNumber(Arg, i32),
    SubNumber(Arg, i32),
    XorNumber(Arg, i32),
    CmpNumber(Arg, i32),
    AddNumber8(Arg, i8),
    OrNumber8(Arg, i8),
    AndNumber8(Arg, i8),
    SubNumber8(Arg, i8),
    XorNumber8(Arg, i8),
    CmpNumber8(Arg, i8),
    TestTo(Arg, u8),
    Imul(u8, Arg),
    Neg(Arg),
    Idiv(Arg),
    Cqo,
    /// Shifts by a count below 64.
    Shl(Arg, u8),
    Shr(Arg, u8),
    Sar(Arg, u8),
    /// Jumps by a displacement of four bytes from the address of the next instruction.
    Jump(i32),
    /// Jumps by a displacement of one byte from there.
    Jump8(i8),
    /// Jumps to the address in the operand.
    JumpTo(Arg),
    /// Jumps by a displacement of four bytes where the condition of this number holds.
    JumpIf(u8, i32),
    /// Jumps by a displacement of one byte where it holds.
    JumpIf8(u8, i8),
    Syscall,
}

impl Arg {
    /// How many bytes the operand takes, from ModRM on.
    fn length(self) -> usize
        ensures spelled { (r : ℕ) → result ≡ length (operand r self) }
        ensures short { result ≤ 6 }
    {
        match self {
            Arg::Reg(_) => 1,
            Arg::Base(b) => 1 + sib_length(b),
            Arg::Base8(b, _) => 2 + sib_length(b),
            Arg::Base32(b, _) => 5 + sib_length(b),
            Arg::Rip(_) => 5,
        }
    }
}

/// How many bytes SIB takes after ModRM with this base.
fn sib_length(base: u8) -> usize
    ensures spelled { result ≡ length (sib base) }
    ensures short { result ≤ 1 }
{
    if base % 8 == 4 { 1 } else { 0 }
}

impl Insn {
    /// The length of the instruction's spelling, in bytes.
    pub fn length(&self) -> usize
        requires valid { IsValid self.now }
        ensures spelled { result ≡ length (spelling self.now) }
    {
        match *self {
            Insn::MovWord(_, _) => 10,
            Insn::MovNumber(m, _)
            | Insn::AddNumber(m, _)
            | Insn::OrNumber(m, _)
            | Insn::AndNumber(m, _)
            | Insn::SubNumber(m, _)
            | Insn::XorNumber(m, _)
            | Insn::CmpNumber(m, _) => 6 + m.length(),
            Insn::AddNumber8(m, _)
            | Insn::OrNumber8(m, _)
            | Insn::AndNumber8(m, _)
            | Insn::SubNumber8(m, _)
            | Insn::XorNumber8(m, _)
            | Insn::CmpNumber8(m, _)
            | Insn::Shl(m, _)
            | Insn::Shr(m, _)
            | Insn::Sar(m, _)
            | Insn::LoadByte(_, m)
            | Insn::Imul(_, m) => 3 + m.length(),
            Insn::Neg(m) | Insn::Idiv(m) | Insn::JumpTo(m) => 2 + m.length(),
            Insn::MovTo(m, _)
            | Insn::MovFrom(_, m)
            | Insn::StoreByte(m, _)
            | Insn::Lea(_, m)
            | Insn::AddTo(m, _)
            | Insn::OrTo(m, _)
            | Insn::AndTo(m, _)
            | Insn::SubTo(m, _)
            | Insn::XorTo(m, _)
            | Insn::CmpTo(m, _)
            | Insn::AddFrom(_, m)
            | Insn::OrFrom(_, m)
            | Insn::AndFrom(_, m)
            | Insn::SubFrom(_, m)
            | Insn::XorFrom(_, m)
            | Insn::CmpFrom(_, m)
            | Insn::TestTo(m, _) => 2 + m.length(),
            Insn::Jump(_) => 5,
            Insn::JumpIf(_, _) => 6,
            Insn::Jump8(_) | Insn::JumpIf8(_, _) | Insn::Cqo | Insn::Syscall => 2,
        }
    }
}
