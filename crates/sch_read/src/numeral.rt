//! Numerals: their bases, signs and digits.

ghost use Rattle.std.specs.Prelude.{◌≡◌, ◌≤◌, ◌^◌, ◌-◌, min, nat_lt, slice_index};
ghost use Rattle.std.specs.List.{list_all};
ghost use Rattle.std.specs.Char.{digit_value as value_of};
ghost use Rattle.std.specs.Str.Parse.{digits_value, starts_with_minus, without_leading_sign};
ghost use Rattle.sch_read.specs.Lexer.Lexeme.{is_empty as empty};
ghost use Rattle.sch_read.specs.Lexer.Numerals as numerals;

/// The byte at that index, or 0 past the end.
pub fn byte_at(word: &[u8], i: usize) -> u8
    ensures { result ≡ slice_index word.now i }
{
    if i < word.len() { word[i] } else { 0 }
}

/// Whether the word names its base, as `#x1f` does.
pub fn has_base(word: &[u8]) -> bool
    ensures { result ≡ numerals.has_base word.now }
{
    byte_at(word, 0) == b'#' && b"bodx".contains(&byte_at(word, 1).to_ascii_lowercase())
}

/// Whether the word is a number or ill formed.
pub fn is_number_like(word: &[u8]) -> bool
    ensures { result ≡ numerals.is_number_like word.now }
{
    has_base(word)
        || byte_at(word, 0).is_ascii_digit()
        || b"+-.".contains(&byte_at(word, 0)) && byte_at(word, 1).is_ascii_digit()
}

fn base_named(b: u8) -> u8
    ensures value { result ≡ numerals.base_named b }
    ensures small { (2 ≤ result) × (result ≤ 16) }
{
    match b {
        b'b' => 2,
        b'o' => 8,
        b'x' => 16,
        _ => 10,
    }
}

/// The base in which a word is written.
pub fn base_of(word: &[u8]) -> u8
    ensures value { result ≡ numerals.base_of word.now }
    ensures small { (2 ≤ result) × (result ≤ 16) }
{
    if has_base(word) {
        base_named(byte_at(word, 1).to_ascii_lowercase())
    } else {
        10
    }
}

/// The word without the name of its base.
pub fn numeral_of(word: &[u8]) -> &[u8]
    ensures { result.now ≡ numerals.numeral_of word.now }
{
    match word {
        [_, _, rest @ ..] if has_base(word) => rest,
        _ => word,
    }
}

fn digit_value(b: u8) -> u8
    ensures value { result ≡ value_of b }
    ensures small { result ≤ 36 }
{
    match b {
        b'0'..=b'9' => b - b'0',
        b'A'..=b'Z' => b - b'A' + 10,
        b'a'..=b'z' => b - b'a' + 10,
        _ => 36,
    }
}

fn all_digits(base: u8, digits: &[u8]) -> bool
    ensures { result ≡ list_all (λ c. nat_lt (value_of c) base) digits.now }
{
    digits.iter().all(|b| digit_value(*b) < base)
}

fn is_empty(digits: &[u8]) -> bool
    ensures { result ≡ empty digits.now }
{
    match digits {
        [] => true,
        _ => false,
    }
}

/// Whether there is a digit, and each is one of the base.
pub fn are_digits(base: u8, digits: &[u8]) -> bool
    ensures { result ≡ numerals.are_digits base digits.now }
{
    !is_empty(digits) && all_digits(base, digits)
}

/// Whether the numeral begins with a minus.
pub fn is_negative(numeral: &[u8]) -> bool
    ensures { result ≡ starts_with_minus numeral.now }
{
    byte_at(numeral, 0) == b'-'
}

/// The numeral without its sign.
pub fn without_sign(numeral: &[u8]) -> &[u8]
    ensures { result.now ≡ without_leading_sign numeral.now }
{
    match numeral {
        [b'-' | b'+', rest @ ..] => rest,
        _ => numeral,
    }
}

/// The number that the digits write, or the greatest `u64` where it is above that.
pub fn magnitude(base: u8, digits: &[u8]) -> u64
    requires { 1 ≤ base }
    ensures { result ≡ min (digits_value base digits.now) (2 ^ 64 - 1) }
{
    let mut number: u64 = 0;
    for b in digits {
        number = number
            .saturating_mul(u64::from(base))
            .saturating_add(u64::from(digit_value(*b)));
    }
    number
}
