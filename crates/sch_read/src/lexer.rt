//! The token of a lexeme.

ghost use Rattle.std.specs.Prelude.{◌≡◌, ℕ, ◌+◌, ◌<◌, ◌^◌, IfOk, drop, length};
ghost use Rattle.std.specs.Char.{to_ascii_lowercase};
ghost use Rattle.std.specs.Str.{bytes_eq};
ghost use Rattle.sch_read.specs.Lexer.Letters.{folded};
ghost use Rattle.sch_read.specs.Lexer.Token as tokens;
ghost use Rattle.sch_read.specs.Lexer.TokenView.{token_of, tokens_of};

use crate::datum::Atom;
use crate::identifier::is_identifier;
use crate::integer_token::number_token;
use crate::letters::is_white;
use crate::numeral::{byte_at, is_number_like};
use crate::strings::string_token;
use crate::token::{Flaw, Opener, Placed, Token};
use sch_word::{Bytes, List, Mem};
use std::alloc::Global;

/// Whether the word is the name, which is in lower case, but for the case of letters.
fn is_name(word: &[u8], name: &[u8]) -> bool
    requires { folded name.now ≡ name.now }
    ensures { result ≡ bytes_eq (folded word.now) name.now }
{
    word.eq_ignore_ascii_case(name)
}

/// What follows `#\`.
fn character(rest: &[u8]) -> Token
    ensures { (at : ℕ) → token_of at result ≡ tokens.character_at at rest.now }
{
    match rest {
        [] => Token::Bad(Flaw::Token),
        [byte] => Token::Plain(Atom::Character(*byte)),
        _ => named_character(rest),
    }
}

fn named_character(name: &[u8]) -> Token
    requires { 1 < length name.now }
    ensures { (at : ℕ) → token_of at result ≡ tokens.character_at at name.now }
{
    if is_name(name, b"space") {
        Token::Plain(Atom::Character(b' '))
    } else if is_name(name, b"newline") {
        Token::Plain(Atom::Character(b'\n'))
    } else {
        Token::Bad(Flaw::Token)
    }
}

/// The word in lower case.
fn folded_name(alloc: Global, word: &[u8]) -> Result<Bytes, Mem>
    ensures { IfOk result (λ name. name ≡ folded word.now) }
{
    Ok(List::from_vec(word.to_ascii_lowercase(alloc)?))
}

/// The token of a word that is neither a number nor a character.
fn name(alloc: Global, word: &[u8]) -> Result<Token, Mem>
    ensures { IfOk result (λ t. (at : ℕ) → token_of at t ≡ tokens.name_at at word.now) }
{
    if word == b".".as_slice() {
        return Ok(Token::Dot);
    }
    if is_name(word, b"#t") {
        return Ok(Token::Plain(Atom::Boolean(true)));
    }
    if is_name(word, b"#f") {
        return Ok(Token::Plain(Atom::Boolean(false)));
    }
    if is_identifier(word) {
        return Ok(Token::Plain(Atom::Symbol(folded_name(alloc, word)?)));
    }
    Ok(Token::Bad(Flaw::Token))
}

fn is_character(word: &[u8]) -> bool
    ensures { result ≡ tokens.is_character word.now }
{
    byte_at(word, 0) == b'#' && byte_at(word, 1) == b'\\'
}

fn word_token(alloc: Global, word: &[u8]) -> Result<Token, Mem>
    ensures { IfOk result (λ t. (at : ℕ) → token_of at t ≡ tokens.word_at at word.now) }
{
    if word == b"#(".as_slice() {
        return Ok(Token::Open(Opener::HashParenthesis));
    }
    if is_character(word) {
        return Ok(character_word(word));
    }
    if is_number_like(word) {
        return Ok(number_token(word));
    }
    name(alloc, word)
}

/// A character, `#\` and all.
fn character_word(word: &[u8]) -> Token
    ensures { (at : ℕ) → token_of at result ≡ tokens.character_at at (drop 2 word.now) }
{
    match word {
        [_, _, rest @ ..] => character(rest),
        _ => Token::Bad(Flaw::Token),
    }
}

/// The token of a lexeme, or none for white space and comments.
pub(crate) fn token(alloc: Global, at: u32, lexeme: &[u8]) -> Result<Option<Placed>, Mem>
    requires { at + length lexeme.now < 2 ^ 32 }
    ensures { IfOk result (λ t. tokens_of t ≡ tokens.token_at at lexeme.now) }
{
    match lexeme {
        [] => Ok(None),
        [first, rest @ ..] => {
            let first = *first;
            if is_white(first) || first == b';' {
                Ok(None)
            } else if first == b'(' {
                let token = Token::Open(Opener::Parenthesis);
                Ok(Some(Placed { at, token }))
            } else if first == b')' {
                let token = Token::Close;
                Ok(Some(Placed { at, token }))
            } else if first == b'\'' {
                let token = Token::Open(Opener::QuoteMark);
                Ok(Some(Placed { at, token }))
            } else if first == b'"' {
                Ok(Some(string_token(alloc, at, rest)?))
            } else {
                let token = word_token(alloc, lexeme)?;
                Ok(Some(Placed { at, token }))
            }
        }
    }
}
