//! The flags, which are computed when a condition reads them.

ghost use Rattle.std.specs.Prelude.{◌≡◌, ◌<◌, ◌≤◌, ◌^◌};
ghost use Rattle.sch_insn.specs.Machine.{is_negative, test_of, condition as condition_of, sum_of, difference_of, bits_of, product_of, product_fits, magnitude};

use sch_insn::condition::{B, BE, E, L, LE, O, S};

// What the conditions test, by half their numbers.
const OVERFLOW: u8 = O / 2;

const CARRY: u8 = B / 2;

const ZERO: u8 = E / 2;

const CARRY_OR_ZERO: u8 = BE / 2;

const SIGN: u8 = S / 2;

const LESS: u8 = L / 2;

const LESS_OR_ZERO: u8 = LE / 2;

/// What set the flags last. They are computed where a condition reads them.
#[derive(Clone, Copy)]
pub enum LastFlags {
    Unknown,
    Sum(u64, u64),
    Difference(u64, u64),
    Bits(u64),
    Product(u64, u64),
}

impl LastFlags {
    ghost use Rattle.sch_step.specs.View.{flags_of};

    /// Whether the condition of this number holds, where the flags that it reads are known.
    #[tactic(auto, unfolding(sch_insn::specs::Machine::test_of))]
    #[inline(always)]
    pub(crate) fn condition(self, c: u8) -> Option<bool>
        ensures { result ≡ condition_of (flags_of self) c }
    {
        let holds = match self {
            LastFlags::Unknown => return None,
            LastFlags::Sum(a, b) => after_sum(a, b, c / 2)?,
            LastFlags::Difference(a, b) => after_difference(a, b, c / 2)?,
            LastFlags::Bits(r) => after_bits(r, c / 2)?,
            LastFlags::Product(a, b) => after_product(a, b, c / 2)?,
        };
        Some(if c % 2 == 0 { holds } else { !holds })
    }
}

#[inline(always)]
pub(crate) fn is_negative(a: u64) -> bool
    ensures { result ≡ is_negative a }
{
    a >= 0x8000_0000_0000_0000
}

#[tactic(auto, unfolding(sch_insn::specs::Machine::test_of))]
#[inline(always)]
fn after_sum(a: u64, b: u64, test: u8) -> Option<bool>
    ensures { result ≡ test_of (sum_of a b).flags test }
{
    let r = a.wrapping_add(b);
    let sign = is_negative(r);
    let overflow = is_negative(a) == is_negative(b) && is_negative(a) != sign;
    let carry = r < a;
    match test {
        OVERFLOW => Some(overflow),
        CARRY => Some(carry),
        ZERO => Some(r == 0),
        CARRY_OR_ZERO => Some(carry || r == 0),
        SIGN => Some(sign),
        LESS => Some(sign != overflow),
        LESS_OR_ZERO => Some(r == 0 || sign != overflow),
        _ => None,
    }
}

#[tactic(auto, unfolding(sch_insn::specs::Machine::test_of))]
#[inline(always)]
fn after_difference(a: u64, b: u64, test: u8) -> Option<bool>
    ensures { result ≡ test_of (difference_of a b).flags test }
{
    let r = a.wrapping_sub(b);
    let sign = is_negative(r);
    let overflow = is_negative(a) != is_negative(b) && is_negative(a) != sign;
    let carry = a < b;
    match test {
        OVERFLOW => Some(overflow),
        CARRY => Some(carry),
        ZERO => Some(r == 0),
        CARRY_OR_ZERO => Some(carry || r == 0),
        SIGN => Some(sign),
        LESS => Some(sign != overflow),
        LESS_OR_ZERO => Some(r == 0 || sign != overflow),
        _ => None,
    }
}

#[tactic(auto, unfolding(sch_insn::specs::Machine::test_of))]
#[inline(always)]
fn after_bits(r: u64, test: u8) -> Option<bool>
    ensures { result ≡ test_of (bits_of r).flags test }
{
    let sign = is_negative(r);
    match test {
        OVERFLOW => Some(false),
        CARRY => Some(false),
        ZERO => Some(r == 0),
        CARRY_OR_ZERO => Some(r == 0),
        SIGN => Some(sign),
        LESS => Some(sign),
        LESS_OR_ZERO => Some(r == 0 || sign),
        _ => None,
    }
}

#[tactic(auto, unfolding(sch_insn::specs::Machine::test_of))]
#[inline(always)]
fn after_product(a: u64, b: u64, test: u8) -> Option<bool>
    ensures { result ≡ test_of (product_of a b).flags test }
{
    match test {
        OVERFLOW | CARRY => Some(!product_fits(a, b)),
        _ => None,
    }
}

/// The absolute value of a signed word.
#[inline(always)]
pub(crate) fn magnitude(a: u64) -> u64
    ensures value { result ≡ magnitude a }
    ensures some { 0 < a → 0 < result }
    ensures word { result ≤ 2 ^ 63 }
{
    if is_negative(a) { a.wrapping_neg() } else { a }
}

/// Whether the product of two words, read as signed numbers, is a word.
#[inline(always)]
fn product_fits(a: u64, b: u64) -> bool
    ensures { result ≡ product_fits a b }
{
    let product = magnitude(a) as u128 * magnitude(b) as u128;
    if is_negative(a) != is_negative(b) {
        product <= 0x8000_0000_0000_0000
    } else {
        product < 0x8000_0000_0000_0000
    }
}
