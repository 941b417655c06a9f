//! The division of a signed number of 128 bits, as `idiv` does it.

ghost use Rattle.std.specs.Prelude.{◌≡◌, ◌+◌, ◌*◌, ◌/◌, ◌%◌, ◌<◌, ◌≤◌, ◌^◌, true};
ghost use Rattle.sch_insn.specs.Machine.{signed as signed_of};
ghost use Rattle.sch_insn.specs.Step.{dividend_magnitude, is_quotient as is_quotient_of, quotient_of};

use crate::flags::{is_negative, magnitude};
use sch_insn::StuckCause;

/// The quotient and the remainder of a signed number of 128 bits by a signed word, truncated toward
/// zero.
pub(crate) fn divided(high: u64, low: u64, divisor: u64) -> Result<(u64, u64), StuckCause>
    ensures { result ≡ quotient_of high low divisor }
{
    if divisor == 0 {
        return Err(StuckCause::Divide);
    }
    let dividend = dividend(high, low);
    let (quotient, remainder) = divided_magnitudes(dividend, magnitude(divisor));
    let negative = is_negative(high) != is_negative(divisor);
    if !is_quotient(negative, quotient) {
        return Err(StuckCause::Divide);
    }
    Ok((
        signed(negative, quotient as u64),
        signed(is_negative(high), remainder),
    ))
}

/// The quotient and the remainder of absolute values. A dividend of one word takes one division of words.
fn divided_magnitudes(dividend: u128, divisor: u64) -> (u128, u64)
    requires { 0 < divisor }
    ensures quotient { result.0 ≡ dividend / divisor }
    ensures remainder { result.1 ≡ dividend % divisor }
{
    if dividend <= u64::MAX as u128 {
        let word = dividend as u64;
        return ((word / divisor) as u128, word % divisor);
    }
    (
        dividend / divisor as u128,
        (dividend % divisor as u128) as u64,
    )
}

/// The absolute value of the dividend.
fn dividend(high: u64, low: u64) -> u128
    ensures { result ≡ dividend_magnitude high low }
{
    let dividend = 0x1_0000_0000_0000_0000 * high as u128 + low as u128;
    if is_negative(high) {
        dividend.wrapping_neg()
    } else {
        dividend
    }
}

/// Whether the quotient with this sign is a signed word.
fn is_quotient(negative: bool, magnitude: u128) -> bool
    ensures value { result ≡ is_quotient_of negative magnitude }
    ensures word { result ≡ true → magnitude < 2 ^ 64 }
{
    if negative {
        magnitude <= 0x8000_0000_0000_0000
    } else {
        magnitude < 0x8000_0000_0000_0000
    }
}

/// The word of a number with a sign.
fn signed(negative: bool, magnitude: u64) -> u64
    ensures { result ≡ signed_of negative magnitude }
{
    if negative {
        magnitude.wrapping_neg()
    } else {
        magnitude
    }
}
