//! From an instruction to bytes: `encode`.

ghost use Rattle.std.specs.Prelude.{◌≡◌, ℕ, ◌+◌, ◌<◌, ◌≤◌, List, [], ◌∷◌, ◌++◌, length};
ghost use Rattle.sch_insn.specs.Spelling.{rex, modrm, operand, wide, sib, spelling, one_byte, four_bytes, IsArg, IsValid};
ghost use Rattle.sch_insn.specs.Kinds.{EndsInNumber};
ghost use Rattle.sch_code.specs.Kinds.{IsTo, IsFrom, IsBare};

use crate::code::Code;
use sch_insn::{Arg, Insn};

/// Writes the one spelling of an instruction and answers its length. What the buffer had before is
/// forgotten.
pub fn encode(i: &Insn, to: &mut Code) -> usize
    requires valid { IsValid i.now }
    ensures spelled { to.new ≡ spelling i.now }
    ensures length { result ≡ length (spelling i.now) }
{
    put_spelling(i, to);
    to.bytes().len()
}

/// The forms of four kinds have tables of their own. Each other form has a row here.
fn put_spelling(i: &Insn, to: &mut Code)
    requires valid { IsValid i.now }
    ensures { to.new ≡ spelling i.now }
{
    match i {
        Insn::MovTo(_, _)
        | Insn::AddTo(_, _)
        | Insn::OrTo(_, _)
        | Insn::AndTo(_, _)
        | Insn::SubTo(_, _)
        | Insn::XorTo(_, _)
        | Insn::CmpTo(_, _)
        | Insn::TestTo(_, _) => put_to(i, to),
        Insn::MovFrom(_, _)
        | Insn::Lea(_, _)
        | Insn::AddFrom(_, _)
        | Insn::OrFrom(_, _)
        | Insn::AndFrom(_, _)
        | Insn::SubFrom(_, _)
        | Insn::XorFrom(_, _)
        | Insn::CmpFrom(_, _) => put_from(i, to),
        Insn::AddNumber(_, _)
        | Insn::OrNumber(_, _)
        | Insn::AndNumber(_, _)
        | Insn::SubNumber(_, _)
        | Insn::XorNumber(_, _)
        | Insn::CmpNumber(_, _)
        | Insn::AddNumber8(_, _)
        | Insn::OrNumber8(_, _)
        | Insn::AndNumber8(_, _)
        | Insn::SubNumber8(_, _)
        | Insn::XorNumber8(_, _)
        | Insn::CmpNumber8(_, _) => put_number(i, to),
        Insn::MovWord(_, _)
        | Insn::Cqo
        | Insn::Jump(_)
        | Insn::Jump8(_)
        | Insn::JumpIf(_, _)
        | Insn::JumpIf8(_, _)
        | Insn::Syscall => put_bare(i, to),
        Insn::MovNumber(m, n) => put_wide_and_4(to, 0xC7, 0, m, *n),
        Insn::StoreByte(m, r) => put_narrow(to, 0x88, *r, m),
        Insn::LoadByte(r, m) => put_long(to, 0xB6, *r, m),
        Insn::Imul(r, m) => put_long(to, 0xAF, *r, m),
        Insn::Neg(m) => put_wide(to, 0xF7, 3, m),
        Insn::Idiv(m) => put_wide(to, 0xF7, 7, m),
        Insn::Shl(m, k) => put_shift(to, 4, m, *k),
        Insn::Shr(m, k) => put_shift(to, 5, m, *k),
        Insn::Sar(m, k) => put_shift(to, 7, m, *k),
        Insn::JumpTo(m) => put_narrow(to, 0xFF, 4, m),
    }
}

/// The forms with W and an opcode of one byte whose second operand is the register.
fn put_to(i: &Insn, to: &mut Code)
    requires kind { IsTo i.now }
    requires valid { IsValid i.now }
    ensures { to.new ≡ spelling i.now }
{
    match i {
        Insn::MovTo(m, r) => put_wide(to, 0x89, *r, m),
        Insn::AddTo(m, r) => put_wide(to, 0x01, *r, m),
        Insn::OrTo(m, r) => put_wide(to, 0x09, *r, m),
        Insn::AndTo(m, r) => put_wide(to, 0x21, *r, m),
        Insn::SubTo(m, r) => put_wide(to, 0x29, *r, m),
        Insn::XorTo(m, r) => put_wide(to, 0x31, *r, m),
        Insn::CmpTo(m, r) => put_wide(to, 0x39, *r, m),
        Insn::TestTo(m, r) => put_wide(to, 0x85, *r, m),
        _ => unreachable!(),
    }
}

/// A form whose first operand is a register and whose second is an operand in memory or a register.
fn put_from(i: &Insn, to: &mut Code)
    requires kind { IsFrom i.now }
    requires valid { IsValid i.now }
    ensures { to.new ≡ spelling i.now }
{
    match i {
        Insn::MovFrom(r, m) => put_wide(to, 0x8B, *r, m),
        Insn::Lea(r, m) => put_wide(to, 0x8D, *r, m),
        Insn::AddFrom(r, m) => put_wide(to, 0x03, *r, m),
        Insn::OrFrom(r, m) => put_wide(to, 0x0B, *r, m),
        Insn::AndFrom(r, m) => put_wide(to, 0x23, *r, m),
        Insn::SubFrom(r, m) => put_wide(to, 0x2B, *r, m),
        Insn::XorFrom(r, m) => put_wide(to, 0x33, *r, m),
        Insn::CmpFrom(r, m) => put_wide(to, 0x3B, *r, m),
        _ => unreachable!(),
    }
}

/// The forms that end in a number, of four bytes with the opcode 81 and of one byte with 83.
fn put_number(i: &Insn, to: &mut Code)
    requires kind { EndsInNumber i.now }
    requires valid { IsValid i.now }
    ensures { to.new ≡ spelling i.now }
{
    match i {
        Insn::AddNumber(m, n) => put_wide_and_4(to, 0x81, 0, m, *n),
        Insn::OrNumber(m, n) => put_wide_and_4(to, 0x81, 1, m, *n),
        Insn::AndNumber(m, n) => put_wide_and_4(to, 0x81, 4, m, *n),
        Insn::SubNumber(m, n) => put_wide_and_4(to, 0x81, 5, m, *n),
        Insn::XorNumber(m, n) => put_wide_and_4(to, 0x81, 6, m, *n),
        Insn::CmpNumber(m, n) => put_wide_and_4(to, 0x81, 7, m, *n),
        Insn::AddNumber8(m, n) => put_wide_and_1(to, 0, m, *n),
        Insn::OrNumber8(m, n) => put_wide_and_1(to, 1, m, *n),
        Insn::AndNumber8(m, n) => put_wide_and_1(to, 4, m, *n),
        Insn::SubNumber8(m, n) => put_wide_and_1(to, 5, m, *n),
        Insn::XorNumber8(m, n) => put_wide_and_1(to, 6, m, *n),
        Insn::CmpNumber8(m, n) => put_wide_and_1(to, 7, m, *n),
        _ => unreachable!(),
    }
}

/// The forms without an operand that may lie in memory.
fn put_bare(i: &Insn, to: &mut Code)
    requires kind { IsBare i.now }
    requires valid { IsValid i.now }
    ensures { to.new ≡ spelling i.now }
{
    match i {
        Insn::MovWord(r, n) => {
            put_2(to, 0x48 + *r / 8, 0xB8 + *r % 8);
            to.put_i64(*n);
        }
        Insn::Cqo => put_2(to, 0x48, 0x99),
        Insn::Jump(d) => {
            put_1(to, 0xE9);
            to.put_i32(*d);
        }
        Insn::Jump8(d) => {
            put_1(to, 0xEB);
            to.put_i8(*d);
        }
        Insn::JumpIf(c, d) => {
            put_2(to, 0x0F, 0x80 + *c);
            to.put_i32(*d);
        }
        Insn::JumpIf8(c, d) => {
            put_1(to, 0x70 + *c);
            to.put_i8(*d);
        }
        Insn::Syscall => put_2(to, 0x0F, 0x05),
        _ => unreachable!(),
    }
}

/// One byte, and nothing before it.
fn put_1(to: &mut Code, byte: u8)
    ensures { to.new ≡ byte ∷ [] }
{
    to.clear();
    to.put(byte);
}

/// Two bytes, and nothing before them.
fn put_2(to: &mut Code, first: u8, second: u8)
    ensures { to.new ≡ first ∷ second ∷ [] }
{
    put_1(to, first);
    to.put(second);
}

/// REX with W, one byte of opcode, the operand, a number of four bytes, and nothing before them.
fn put_wide_and_4(to: &mut Code, op: u8, r: u8, m: &Arg, n: i32)
    requires reg { r < 16 }
    requires arg { IsArg m.now }
    ensures { to.new ≡ wide op r m.now ++ four_bytes n }
{
    put_wide(to, op, r, m);
    to.put_i32(n);
}

/// REX with W, the opcode 83, the operand, a number of one byte, and nothing before them.
fn put_wide_and_1(to: &mut Code, r: u8, m: &Arg, n: i8)
    requires reg { r < 16 }
    requires arg { IsArg m.now }
    ensures { to.new ≡ wide 0x83 r m.now ++ one_byte n }
{
    put_wide(to, 0x83, r, m);
    to.put_i8(n);
}

/// REX with W, the opcode C1, the operand, a count, and nothing before them.
fn put_shift(to: &mut Code, r: u8, m: &Arg, k: u8)
    requires reg { r < 16 }
    requires arg { IsArg m.now }
    ensures { to.new ≡ wide 0xC1 r m.now ++ k ∷ [] }
{
    put_wide(to, 0xC1, r, m);
    to.put(k);
}

/// REX with W, one byte of opcode, the operand, and nothing before them.
fn put_wide(to: &mut Code, op: u8, r: u8, m: &Arg)
    requires reg { r < 16 }
    requires arg { IsArg m.now }
    ensures spelled { to.new ≡ wide op r m.now }
    ensures short { length to.new ≤ 8 }
{
    to.clear();
    to.put(rex_of(1, r, m));
    to.put(op);
    put_operand(to, r, m);
}

/// REX with W, an opcode of 0F and one byte, the operand, and nothing before them.
fn put_long(to: &mut Code, op: u8, r: u8, m: &Arg)
    requires reg { r < 16 }
    requires arg { IsArg m.now }
    ensures spelled { to.new ≡ rex 1 r m.now ∷ 0x0F ∷ op ∷ operand r m.now }
    ensures short { length to.new ≤ 9 }
{
    to.clear();
    to.put(rex_of(1, r, m));
    to.put(0x0F);
    to.put(op);
    put_operand(to, r, m);
}

/// REX without W, one byte of opcode, the operand, and nothing before them.
fn put_narrow(to: &mut Code, op: u8, r: u8, m: &Arg)
    requires reg { r < 16 }
    requires arg { IsArg m.now }
    ensures spelled { to.new ≡ rex 0 r m.now ∷ op ∷ operand r m.now }
    ensures short { length to.new ≤ 8 }
{
    to.clear();
    to.put(rex_of(0, r, m));
    to.put(op);
    put_operand(to, r, m);
}

/// REX, with W or without.
fn rex_of(w: u8, r: u8, m: &Arg) -> u8
    requires w { w < 2 }
    requires reg { r < 16 }
    requires arg { IsArg m.now }
    ensures { result ≡ rex w r m.now }
{
    let high = match m {
        Arg::Reg(b) | Arg::Base(b) | Arg::Base8(b, _) | Arg::Base32(b, _) => *b / 8,
        Arg::Rip(_) => 0,
    };
    0x40 + 8 * w + 4 * (r / 8) + high
}

/// ModRM and what follows it.
fn put_operand(to: &mut Code, r: u8, m: &Arg)
    requires room { length to.old ≤ 3 }
    requires reg { r < 16 }
    requires arg { IsArg m.now }
    ensures spelled { to.new ≡ to.old ++ operand r m.now }
    ensures short { length to.new ≤ length to.old + 6 }
{
    match m {
        Arg::Reg(b) => put_modrm(to, 3, r, *b),
        Arg::Base(b) => put_base(to, 0, r, *b),
        Arg::Base8(b, d) => {
            put_base(to, 1, r, *b);
            to.put_i8(*d);
        }
        Arg::Base32(b, d) => {
            put_base(to, 2, r, *b);
            to.put_i32(*d);
        }
        Arg::Rip(d) => {
            put_modrm(to, 0, r, 5);
            to.put_i32(*d);
        }
    }
}

/// ModRM and SIB of an operand in memory whose base is a register.
fn put_base(to: &mut Code, mode: u8, r: u8, b: u8)
    requires room { length to.old ≤ 3 }
    requires mode { mode < 4 }
    ensures spelled { to.new ≡ to.old ++ modrm mode r b ∷ sib b }
    ensures short { length to.new ≤ length to.old + 2 }
{
    put_modrm(to, mode, r, b);
    put_sib(to, b);
}

/// ModRM: the mode, the low bits of the register of the form, the low bits of the operand's register.
fn put_modrm(to: &mut Code, mode: u8, r: u8, b: u8)
    requires room { length to.old ≤ 3 }
    requires mode { mode < 4 }
    ensures { to.new ≡ to.old ++ modrm mode r b ∷ [] }
{
    to.put(0x40 * mode + 8 * (r % 8) + b % 8);
}

fn put_sib(to: &mut Code, b: u8)
    requires { length to.old ≤ 8 }
    ensures { to.new ≡ to.old ++ sib b }
{
    if b % 8 == 4 {
        to.put(0x24);
    }
}
