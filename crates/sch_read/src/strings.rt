//! The token of a string, and the escapes in it.

ghost use Rattle.std.specs.Prelude.{◌≡◌, ◌+◌, ◌<◌, ◌^◌, IfOk, IsTrue, MatchOption, length, false, true};
ghost use Rattle.sch_read.specs.Lexer.Letters.{is_escape, escaped};
ghost use Rattle.sch_read.specs.Lexer.Token.{string_at};
ghost use Rattle.sch_read.specs.Grammar.{Bad, bad_string};
ghost use Rattle.sch_read.specs.Lexer.TokenView.{placed_of};

use crate::datum::Atom;
use crate::token::{Flaw, Placed, Token};
use sch_word::{List, Mem};
use std::alloc::Global;

/// The token of the string that opens at that place, from what follows its opening quote.
pub(crate) fn string_token(alloc: Global, at: u32, rest: &[u8]) -> Result<Placed, Mem>
    requires { at + 1 + length rest.now < 2 ^ 32 }
    ensures { IfOk result (λ p. placed_of p ≡ string_at at rest.now) }
{
    let mut bytes = List::new(alloc);
    let mut escaping = false;
    'each: for i in 0..rest.len() {
        let b = rest[i];
        if escaping {
            match escaped_byte(b) {
                Some(byte) => bytes.push(byte)?,
                None => {
                    return Ok(bad_string(at + i as u32));
                }
            }
            escaping = false;
        } else if b == b'"' {
            let token = Token::Plain(Atom::Text(bytes));
            return Ok(Placed { at, token });
        } else if b == b'\\' {
            escaping = true;
        } else {
            bytes.push(b)?;
        }
    }
    Ok(bad_string(at))
}

/// The byte that an escape means, by the byte after its backslash.
fn escaped_byte(b: u8) -> Option<u8>
    ensures { MatchOption result (is_escape b ≡ false) (λ byte. (is_escape b ≡ true) × (byte ≡ escaped b)) }
{
    match b {
        b'"' => Some(b'"'),
        b'\\' => Some(b'\\'),
        b'n' => Some(b'\n'),
        b't' => Some(b'\t'),
        _ => None,
    }
}

fn bad_string(at: u32) -> Placed
    ensures { placed_of result ≡ Bad at bad_string }
{
    let token = Token::Bad(Flaw::String);
    Placed { at, token }
}
