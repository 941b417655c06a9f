//! Identifiers.

ghost use Rattle.std.specs.Prelude.{◌≡◌};
ghost use Rattle.std.specs.List.{list_all};
ghost use Rattle.sch_read.specs.Lexer.Letters.{is_subsequent as subsequent};
ghost use Rattle.sch_read.specs.Lexer.Identifiers as identifiers;

use crate::letters::{is_initial, is_subsequent};

fn all_subsequent(bytes: &[u8]) -> bool
    ensures { result ≡ list_all subsequent bytes.now }
{
    bytes.iter().all(|b| is_subsequent(*b))
}

/// Whether the word is an identifier.
pub fn is_identifier(word: &[u8]) -> bool
    ensures { result ≡ identifiers.is_identifier word.now }
{
    match word {
        [] => false,
        [first, rest @ ..] => {
            is_initial(*first) && all_subsequent(rest)
                || word == b"+".as_slice()
                || word == b"-".as_slice()
                || word == b"...".as_slice()
        }
    }
}
