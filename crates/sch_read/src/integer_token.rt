//! The tokens of numerals.

ghost use Rattle.std.specs.Prelude.{◌≡◌, ℕ, pos, neg_ℤ, if◌then◌else◌};
ghost use Rattle.sch_read.specs.Lexer.Numerals as numerals;
ghost use Rattle.sch_read.specs.Lexer.Token as tokens;
ghost use Rattle.sch_read.specs.Lexer.TokenView.{token_of};

use crate::datum::Atom;
use crate::numeral::{are_digits, base_of, is_negative, magnitude, numeral_of, without_sign};
use crate::token::{Flaw, Token};
use sch_word::Fix;

fn signed(negative: bool, size: u64) -> i128
    ensures { result ≡ (if negative then neg_ℤ (pos size) else pos size) }
{
    let value = i128::from(size);
    if negative { -value } else { value }
}

/// The token of the integer with that sign and size.
fn integer(negative: bool, size: u64) -> Token
    ensures { (at : ℕ) → token_of at result ≡ tokens.integer_at at (if negative then neg_ℤ (pos size) else pos size) }
{
    match Fix::new(signed(negative, size)) {
        Some(number) => Token::Plain(Atom::Integer(number)),
        None => Token::Huge,
    }
}

/// The token of a numeral in that base.
pub(crate) fn number_token(word: &[u8]) -> Token
    ensures { (at : ℕ) → token_of at result ≡ tokens.number_at at (numerals.base_of word.now) (numerals.numeral_of word.now) }
{
    let base = base_of(word);
    let numeral = numeral_of(word);
    let digits = without_sign(numeral);
    if !are_digits(base, digits) {
        return Token::Bad(Flaw::Number);
    }
    integer(is_negative(numeral), magnitude(base, digits))
}
