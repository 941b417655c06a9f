//! Tokens, as the code keeps them.

ghost use Rattle.std.specs.Prelude.{◌≡◌, ℕ};

use crate::datum::Atom;

/// What is wrong with a token that is ill formed.
#[derive(Clone, Copy, Drop)]
pub(crate) enum Flaw {
    Token,
    Number,
    String,
}

#[derive(Clone, Copy, Drop)]
pub(crate) enum Opener {
    Parenthesis,
    HashParenthesis,
    QuoteMark,
}

/// `Huge` is an integer that is no fixnum, `Bad` what is no token.
#[derive(Drop)]
pub(crate) enum Token {
    Open(Opener),
    Close,
    Dot,
    Plain(Atom),
    Huge,
    Bad(Flaw),
}

impl Token {
    ghost use Rattle.sch_read.specs.Lexer.TokenView.{token_of};
    ghost use Rattle.sch_read.specs.Parser.Stack.{begins};

    /// Whether a datum may begin with the token.
    pub(crate) fn begins(&self) -> bool
        ensures { (at : ℕ) → result ≡ begins (token_of at self.now) }
    {
        matches!(self, Token::Plain(_) | Token::Open(_))
    }
}

/// A token and its place; a bad one stands at its fault.
#[derive(Drop)]
pub(crate) struct Placed {
    pub(crate) at: u32,
    pub(crate) token: Token,
}
