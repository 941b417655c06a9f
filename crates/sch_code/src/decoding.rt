//! From bytes to an instruction: `decode`.

ghost use Rattle.std.specs.Prelude.{◌≡◌, ◌≢◌, ◌+◌, ◌++◌, ◌<◌, ◌≤◌, ℕ, List, length, take, drop, IfSome, Some, None};
ghost use Rattle.sch_insn.specs.declared.insn.Insn.{Insn};
ghost use Rattle.sch_insn.specs.Spelling.{in_memory as in_memory_of, spelling, IsValid};
ghost use Rattle.sch_insn.specs.Decode.{number_of_1, number_of_4, number_of_8, count_of, sib_size, at_base_32_of, at_base_8_of, at_base_of, at_rip_of, arg_of, operand_of};
ghost use Rattle.sch_insn.specs.Decode.{with_number_of_4, with_number_of_1, with_count, number_form_of_4, number_form_of_1, shift_form, mov_number_of, plain_form, wide_of};
ghost use Rattle.sch_insn.specs.Decode.{narrow_of, long_of, whole_word_of, without_operand_of, full_of, rexed_of, escaped_of, jump_of};
ghost use Rattle.sch_insn.specs.Decode.{is_jump_if as is_jump_if_of, is_rex as is_rex_of, decode as decode_of};

use sch_insn::{Arg, Insn};

/// One row for each form: its opcode, what else must hold, the instruction, and what is read after the
/// operand, with its size. `$size` bytes stand before that.
macro_rules! rows {
    ($op:expr, $bytes:expr, $size:expr; {
        $($code:pat $(if $test:expr)? => $insn:expr $(, $n:ident = $read:ident + $more:literal)?;)*
    }) => {
        match $op {
            $($code $(if $test)? => {
                $(let $n = $read($bytes)?;)?
                Some(($insn, $size $(+ $more)?))
            })*
            _ => None,
        }
    };
}

/// The one instruction whose spelling the bytes begin with, and its length. None where they begin with
/// no spelling.
#[inline(always)]
pub fn decode(bytes: &[u8]) -> Option<(Insn, usize)>
    ensures valid { IfSome result (λ p. IsValid p.0) }
    ensures within { IfSome result (λ p. p.1 ≤ length bytes.now) }
    ensures spelled { IfSome result (λ p. take p.1 bytes.now ≡ spelling p.0) }
    ensures found { (i : Insn) (rest : List ℕ) → IsValid i → bytes.now ≡ spelling i ++ rest → result ≡ Some (i, length (spelling i)) }
    ensures none { result ≡ None → (i : Insn) (rest : List ℕ) → IsValid i → bytes.now ≢ spelling i ++ rest }
    // the same as an equation, for the machine, whose step reads by `decode`
    ensures read { result ≡ decode_of bytes.now }
{
    read(bytes)
}

#[inline(always)]
fn read(bytes: &[u8]) -> Option<(Insn, usize)>
    ensures { result ≡ decode_of bytes.now }
{
    if bytes.is_empty() {
        return None;
    }
    let first = bytes[0];
    if is_rex(first) {
        return rexed(first / 8 % 2, first / 4 % 2, first % 2, &bytes[1..]);
    }
    if first == 0x0F {
        return escaped(&bytes[1..]);
    }
    jump(first, &bytes[1..])
}

/// Whether a byte is REX with the bit X 0.
#[inline(always)]
fn is_rex(first: u8) -> bool
    ensures { result ≡ is_rex_of first }
{
    first / 16 == 4 && first / 2 % 2 == 0
}

/// A jump, whose opcode is the first byte.
#[inline(always)]
fn jump(op: u8, bytes: &[u8]) -> Option<(Insn, usize)>
    ensures { result ≡ jump_of op bytes.now }
{
    rows! { op, bytes, 1; {
        0xE9 => Insn::Jump(d), d = number_of_4 + 4;
        0xEB => Insn::Jump8(d), d = number_of_1 + 1;
        _ if is_jump_if(7, op) => Insn::JumpIf8(op % 16, d), d = number_of_1 + 1;
    } }
}

/// What stands after 0F.
#[tactic(auto, unfolding(sch_insn::specs::Decode::escaped_of))]
#[inline(always)]
fn escaped(bytes: &[u8]) -> Option<(Insn, usize)>
    ensures { result ≡ escaped_of bytes.now }
{
    if bytes.is_empty() {
        return None;
    }
    let op = bytes[0];
    rows! { op, &bytes[1..], 2; {
        0x05 => Insn::Syscall;
        _ if is_jump_if(8, op) => Insn::JumpIf(op % 16, d), d = number_of_4 + 4;
    } }
}

/// Whether an opcode is a jump with a condition: its high half is this one, and its low half is the
/// number of a condition.
fn is_jump_if(high: u8, op: u8) -> bool
    ensures { result ≡ is_jump_if_of high op }
{
    op / 16 == high && op % 16 != 10 && op % 16 != 11
}

/// What stands after REX with the bits W, R and B.
#[inline(always)]
fn rexed(w: u8, r: u8, b: u8, bytes: &[u8]) -> Option<(Insn, usize)>
    requires r { r < 2 }
    requires b { b < 2 }
    ensures { result ≡ rexed_of w r b bytes.now }
{
    if bytes.is_empty() {
        return None;
    }
    if w == 0 {
        return narrow(bytes[0], r, b, &bytes[1..]);
    }
    full(r, b, bytes)
}

/// What stands after REX with W.
#[inline(always)]
fn full(r: u8, b: u8, bytes: &[u8]) -> Option<(Insn, usize)>
    requires some { 0 < length bytes.now }
    requires r { r < 2 }
    requires b { b < 2 }
    ensures { result ≡ full_of r b bytes.now }
{
    let op = bytes[0];
    if op / 8 == 0xB8 / 8 {
        return whole_word(r, 8 * b + op % 8, &bytes[1..]);
    }
    if op == 0x99 {
        return without_operand(r, b);
    }
    if op == 0x0F {
        return long(r, b, &bytes[1..]);
    }
    let (reg, m, size) = operand(r, b, &bytes[1..])?;
    wide(op, reg, m, size, bytes)
}

/// The one form with W that has no operand.
fn without_operand(r: u8, b: u8) -> Option<(Insn, usize)>
    ensures { result ≡ without_operand_of r b }
{
    if r == 0 && b == 0 {
        Some((Insn::Cqo, 2))
    } else {
        None
    }
}

fn whole_word(r: u8, register: u8, bytes: &[u8]) -> Option<(Insn, usize)>
    ensures { result ≡ whole_word_of r register bytes.now }
{
    rows! { r, bytes, 2; {
        0 => Insn::MovWord(register, n), n = number_of_8 + 8;
    } }
}

/// The forms without W.
#[tactic(auto, unfolding(sch_insn::specs::Decode::narrow_of))]
fn narrow(op: u8, r: u8, b: u8, bytes: &[u8]) -> Option<(Insn, usize)>
    requires r { r < 2 }
    requires b { b < 2 }
    ensures { result ≡ narrow_of op r b bytes.now }
{
    let (reg, m, size) = operand(r, b, bytes)?;
    rows! { op, bytes, size + 2; {
        0x88 if in_memory(m) => Insn::StoreByte(m, reg);
        0xFF if reg == 4 => Insn::JumpTo(m);
    } }
}

/// The forms with W and an opcode that begins with 0F.
#[tactic(auto, unfolding(sch_insn::specs::Decode::long_of))]
fn long(r: u8, b: u8, bytes: &[u8]) -> Option<(Insn, usize)>
    requires r { r < 2 }
    requires b { b < 2 }
    ensures { result ≡ long_of r b bytes.now }
{
    if bytes.is_empty() {
        return None;
    }
    let (reg, m, size) = operand(r, b, &bytes[1..])?;
    rows! { bytes[0], bytes, size + 3; {
        0xB6 if in_memory(m) => Insn::LoadByte(reg, m);
        0xAF => Insn::Imul(reg, m);
    } }
}

/// The forms with W and the opcode 81: a number of four bytes stands behind the operand, which takes `size` bytes.
#[inline(always)]
fn with_number_of_4(r: u8, m: Arg, size: usize, bytes: &[u8]) -> Option<(Insn, usize)>
    requires { size + 1 ≤ length bytes.now }
    ensures { result ≡ with_number_of_4 (number_form_of_4 r m) (size + 2) (drop (size + 1) bytes.now) }
{
    let n = number_of_4(&bytes[size + 1..])?;
    let i = number_form_of_4(r, m, n)?;
    Some((i, size + 6))
}

/// The form with a number of four bytes that the register field of ModRM says.
#[inline(always)]
fn number_form_of_4(r: u8, m: Arg, n: i32) -> Option<Insn>
    ensures { result ≡ number_form_of_4 r m n }
{
    match r {
        0 => Some(Insn::AddNumber(m, n)),
        1 => Some(Insn::OrNumber(m, n)),
        4 => Some(Insn::AndNumber(m, n)),
        5 => Some(Insn::SubNumber(m, n)),
        6 => Some(Insn::XorNumber(m, n)),
        7 => Some(Insn::CmpNumber(m, n)),
        _ => None,
    }
}

/// The forms with W and the opcode 83: a number of one byte stands behind the operand, which takes `size` bytes.
#[inline(always)]
fn with_number_of_1(r: u8, m: Arg, size: usize, bytes: &[u8]) -> Option<(Insn, usize)>
    requires { size + 1 ≤ length bytes.now }
    ensures { result ≡ with_number_of_1 (number_form_of_1 r m) (size + 2) (drop (size + 1) bytes.now) }
{
    let n = number_of_1(&bytes[size + 1..])?;
    let i = number_form_of_1(r, m, n)?;
    Some((i, size + 3))
}

/// The form with a number of one byte that the register field of ModRM says.
#[inline(always)]
fn number_form_of_1(r: u8, m: Arg, n: i8) -> Option<Insn>
    ensures { result ≡ number_form_of_1 r m n }
{
    match r {
        0 => Some(Insn::AddNumber8(m, n)),
        1 => Some(Insn::OrNumber8(m, n)),
        4 => Some(Insn::AndNumber8(m, n)),
        5 => Some(Insn::SubNumber8(m, n)),
        6 => Some(Insn::XorNumber8(m, n)),
        7 => Some(Insn::CmpNumber8(m, n)),
        _ => None,
    }
}

/// Shifts, the forms with W and the opcode C1: a count stands behind the operand, which takes `size` bytes.
#[inline(always)]
fn shift(r: u8, m: Arg, size: usize, bytes: &[u8]) -> Option<(Insn, usize)>
    requires { size + 1 ≤ length bytes.now }
    ensures { result ≡ with_count (shift_form r m) (size + 2) (drop (size + 1) bytes.now) }
{
    let k = count(&bytes[size + 1..])?;
    let i = shift_form(r, m, k)?;
    Some((i, size + 3))
}

/// The shift that the register field of ModRM says.
#[inline(always)]
fn shift_form(r: u8, m: Arg, k: u8) -> Option<Insn>
    ensures { result ≡ shift_form r m k }
{
    match r {
        4 => Some(Insn::Shl(m, k)),
        5 => Some(Insn::Shr(m, k)),
        7 => Some(Insn::Sar(m, k)),
        _ => None,
    }
}

/// The form with W and the opcode C7: a number of four bytes stands behind the operand, which takes `size` bytes.
#[inline(always)]
fn mov_number(r: u8, m: Arg, size: usize, bytes: &[u8]) -> Option<(Insn, usize)>
    requires { size + 1 ≤ length bytes.now }
    ensures { result ≡ mov_number_of r m (size + 2) (drop (size + 1) bytes.now) }
{
    if r != 0 {
        return None;
    }
    let n = number_of_4(&bytes[size + 1..])?;
    Some((Insn::MovNumber(m, n), size + 6))
}

/// The forms with W and an opcode of one byte, behind which the operand takes `size` bytes.
#[tactic(auto, unfolding(sch_insn::specs::Decode::wide_of))]
#[inline(always)]
fn wide(op: u8, r: u8, m: Arg, size: usize, bytes: &[u8]) -> Option<(Insn, usize)>
    requires { size + 1 ≤ length bytes.now }
    ensures { result ≡ wide_of op r m (size + 2) (drop (size + 1) bytes.now) }
{
    match op {
        0x81 => with_number_of_4(r, m, size, bytes),
        0x83 => with_number_of_1(r, m, size, bytes),
        0xC1 => shift(r, m, size, bytes),
        0xC7 => mov_number(r, m, size, bytes),
        _ => {
            let i = plain_form(op, r, m)?;
            Some((i, size + 2))
        }
    }
}

/// The form with W and an opcode of one byte, where no number stands behind the operand.
#[inline(always)]
fn plain_form(op: u8, r: u8, m: Arg) -> Option<Insn>
    ensures { result ≡ plain_form op r m }
{
    match op {
        0x01 => Some(Insn::AddTo(m, r)),
        0x03 => Some(Insn::AddFrom(r, m)),
        0x09 => Some(Insn::OrTo(m, r)),
        0x0B => Some(Insn::OrFrom(r, m)),
        0x21 => Some(Insn::AndTo(m, r)),
        0x23 => Some(Insn::AndFrom(r, m)),
        0x29 => Some(Insn::SubTo(m, r)),
        0x2B => Some(Insn::SubFrom(r, m)),
        0x31 => Some(Insn::XorTo(m, r)),
        0x33 => Some(Insn::XorFrom(r, m)),
        0x39 => Some(Insn::CmpTo(m, r)),
        0x3B => Some(Insn::CmpFrom(r, m)),
        0x85 => Some(Insn::TestTo(m, r)),
        0x89 => Some(Insn::MovTo(m, r)),
        0x8B => Some(Insn::MovFrom(r, m)),
        0x8D if in_memory(m) => Some(Insn::Lea(r, m)),
        0xF7 if r == 3 => Some(Insn::Neg(m)),
        0xF7 if r == 7 => Some(Insn::Idiv(m)),
        _ => None,
    }
}

fn in_memory(m: Arg) -> bool
    ensures { result ≡ in_memory_of m }
{
    !matches!(m, Arg::Reg(_))
}

/// The register of the form, the operand, and the bytes that they take from ModRM on.
#[inline(always)]
fn operand(r: u8, b: u8, bytes: &[u8]) -> Option<(u8, Arg, usize)>
    requires r { r < 2 }
    requires b { b < 2 }
    ensures within { IfSome result (λ p. (p.2 ≤ length bytes.now) × (p.2 < 8)) }
    ensures value { result ≡ operand_of r b bytes.now }
{
    if bytes.is_empty() {
        return None;
    }
    let modrm = bytes[0];
    let reg = 8 * r + modrm / 8 % 8;
    let (m, size) = arg(modrm / 64, b, modrm % 8, &bytes[1..])?;
    Some((reg, m, size + 1))
}

#[inline(always)]
fn arg(mode: u8, high: u8, low: u8, bytes: &[u8]) -> Option<(Arg, usize)>
    requires high { high < 2 }
    requires low { low < 8 }
    ensures within { IfSome result (λ p. (p.1 ≤ length bytes.now) × (p.1 < 7)) }
    ensures value { result ≡ arg_of mode high low bytes.now }
{
    let register = 8 * high + low;
    match mode {
        3 => Some((Arg::Reg(register), 0)),
        2 => at_base_32(register, low, bytes),
        1 => at_base_8(register, low, bytes),
        _ if low == 5 => at_rip(high, bytes),
        _ => at_base(register, low, bytes),
    }
}

/// At a base register, with a displacement of four bytes.
#[inline(always)]
fn at_base_32(register: u8, low: u8, bytes: &[u8]) -> Option<(Arg, usize)>
    ensures within { IfSome result (λ p. (p.1 ≤ length bytes.now) × (p.1 < 7)) }
    ensures value { result ≡ at_base_32_of register low bytes.now }
{
    let size = sib(low, bytes)?;
    let displacement = number_of_4(&bytes[size..])?;
    Some((Arg::Base32(register, displacement), size + 4))
}

/// At a base register, with a displacement of one byte.
#[inline(always)]
fn at_base_8(register: u8, low: u8, bytes: &[u8]) -> Option<(Arg, usize)>
    ensures within { IfSome result (λ p. (p.1 ≤ length bytes.now) × (p.1 < 7)) }
    ensures value { result ≡ at_base_8_of register low bytes.now }
{
    let size = sib(low, bytes)?;
    let displacement = number_of_1(&bytes[size..])?;
    Some((Arg::Base8(register, displacement), size + 1))
}

/// Relative to RIP. The bit B is 0.
#[inline(always)]
fn at_rip(high: u8, bytes: &[u8]) -> Option<(Arg, usize)>
    ensures within { IfSome result (λ p. (p.1 ≤ length bytes.now) × (p.1 < 7)) }
    ensures value { result ≡ at_rip_of high bytes.now }
{
    if high != 0 {
        return None;
    }
    let displacement = number_of_4(bytes)?;
    Some((Arg::Rip(displacement), 4))
}

/// At a base register, without a displacement.
#[inline(always)]
fn at_base(register: u8, low: u8, bytes: &[u8]) -> Option<(Arg, usize)>
    ensures within { IfSome result (λ p. (p.1 ≤ length bytes.now) × (p.1 < 7)) }
    ensures value { result ≡ at_base_of register low bytes.now }
{
    let size = sib(low, bytes)?;
    Some((Arg::Base(register), size))
}

/// How many bytes SIB takes.
#[inline(always)]
fn sib(low: u8, bytes: &[u8]) -> Option<usize>
    ensures within { IfSome result (λ n. (n ≤ length bytes.now) × (n < 2)) }
    ensures value { result ≡ sib_size low bytes.now }
{
    if low != 4 {
        return Some(0);
    }
    if bytes.is_empty() || bytes[0] != 0x24 {
        return None;
    }
    Some(1)
}

/// One byte as a number.
#[inline(always)]
fn number_of_1(bytes: &[u8]) -> Option<i8>
    ensures within { IfSome result (λ n. 1 ≤ length bytes.now) }
    ensures value { result ≡ number_of_1 bytes.now }
{
    if bytes.is_empty() {
        return None;
    }
    Some(bytes[0].cast_signed())
}

/// Four bytes as a number.
#[inline(always)]
fn number_of_4(bytes: &[u8]) -> Option<i32>
    ensures within { IfSome result (λ n. 4 ≤ length bytes.now) }
    ensures value { result ≡ number_of_4 bytes.now }
{
    if bytes.len() < 4 {
        return None;
    }
    Some(i32::from_le_bytes([bytes[0], bytes[1], bytes[2], bytes[3]]))
}

/// Eight bytes as a number.
fn number_of_8(bytes: &[u8]) -> Option<i64>
    ensures { result ≡ number_of_8 bytes.now }
{
    if bytes.len() < 8 {
        return None;
    }
    Some(i64::from_le_bytes([
        bytes[0], bytes[1], bytes[2], bytes[3], bytes[4], bytes[5], bytes[6], bytes[7],
    ]))
}

/// A count of a shift.
fn count(bytes: &[u8]) -> Option<u8>
    ensures { result ≡ count_of bytes.now }
{
    if bytes.is_empty() || bytes[0] > 63 {
        return None;
    }
    Some(bytes[0])
}
