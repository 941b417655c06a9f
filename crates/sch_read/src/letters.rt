//! The bytes of a text by their use.

ghost use Rattle.std.specs.Prelude.{◌≡◌};
ghost use Rattle.sch_read.specs.Lexer.Letters as letters;

/// Whether the byte is white space.
pub fn is_white(b: u8) -> bool
    ensures { result ≡ letters.is_white b }
{
    b == b' ' || b == b'\t' || b == b'\n' || b == b'\r' || b == 12
}

/// Whether the byte ends a word.
pub(crate) fn is_delimiter(b: u8) -> bool
    ensures { result ≡ letters.is_delimiter b }
{
    is_white(b) || b == b'(' || b == b')' || b == b'"' || b == b';'
}

/// Whether an identifier may begin with the byte.
pub(crate) fn is_initial(b: u8) -> bool
    ensures { result ≡ letters.is_initial b }
{
    b.is_ascii_alphabetic() || b"!$%&*/:<=>?^_~".contains(&b)
}

/// Whether the byte may stand in an identifier.
pub(crate) fn is_subsequent(b: u8) -> bool
    ensures { result ≡ letters.is_subsequent b }
{
    is_initial(b) || b.is_ascii_digit() || b"+-.@".contains(&b)
}
