//! From a text to its data, byte after byte.

ghost use Rattle.std.specs.Prelude.{◌≡◌, ◌+◌, ◌*◌, ◌<◌, ◌≤◌, ◌^◌, [], ◌++◌, length, drop, IfOk, OnOk, IfErr, IsErrAnd, MatchResult};
ghost use Rattle.sch_read.specs.Grammar.{Data, none};
ghost use Rattle.sch_read.specs.Parser.Stack.{run, runs, finish, place_of};
ghost use Rattle.sch_read.specs.Lexer.Scan.{scan};
ghost use Rattle.sch_read.specs.Lexer.Token.{token_at};
ghost use Rattle.sch_read.specs.Text.{max_nesting, Spells, HasFault};
ghost use Rattle.sch_read.specs.Fault.{Fault};
ghost use Rattle.sch_read.specs.Valid.{AreValid, max_byte_weight, weights};
ghost use Rattle.sch_read.specs.Answer.{IsErrorIn, IsErrorFor};
ghost use Rattle.sch_read.specs.Views.{data_of};
ghost use Rattle.sch_read.specs.Parser.StackView.{state_of, stack_of, frame_of, Gives, Fails, Feeds};
ghost use Rattle.sch_read.specs.Lexer.PartialLexeme.{IsMet, left};

use crate::datum::Datum;
use crate::error::ReadError;
use crate::lexeme::{Stage, begin, next};
use crate::lexer::token;
use crate::parser::{Frame, Parser};
use crate::token::Placed;
use sch_word::List;
use std::alloc::Global;

/// The lexeme that is being met: where it begins, and how far it is.
#[derive(Clone, Copy, Drop)]
pub(crate) struct Lexeme {
    pub(crate) start: usize,
    pub(crate) stage: Stage,
}

/// The lexeme is whole: its token goes to the parser.
fn feed(parser: &mut Parser, at: u32, lexeme: &[u8]) -> Result<(), ReadError>
    requires { at + length lexeme.now < 2 ^ 32 }
    ensures { Feeds result (state_of parser.old) (state_of parser.new) (λ ts. token_at at lexeme.now ++ ts) }
{
    match token(parser.alloc, at, lexeme)? {
        None => Ok(()),
        Some(Placed { at, token }) => parser.step(at, token),
    }
}

/// One more byte, at an index.
fn turn(parser: &mut Parser, text: &[u8], lexeme: Lexeme, i: usize) -> Result<Lexeme, ReadError>
    requires within { i < length text.now }
    requires small { length text.now < 2 ^ 32 }
    requires met { IsMet text.now i lexeme }
    ensures met { IfOk result (IsMet text.now (i + 1)) }
    ensures ok { IfOk result (λ after. runs (state_of parser.old) (left text.now i lexeme)
        ≡ runs (state_of parser.new) (left text.now (i + 1) after)) }
    ensures err { IfErr result (λ e. Fails e (runs (state_of parser.old) (left text.now i lexeme))) }
{
    let b = text[i];
    match next(lexeme.stage, b) {
        Some(stage) => Ok(Lexeme {
            start: lexeme.start,
            stage,
        }),
        None => {
            feed(parser, lexeme.start as u32, &text[lexeme.start..i])?;
            Ok(Lexeme {
                start: i,
                stage: begin(b),
            })
        }
    }
}

/// The end of the text makes the last lexeme whole.
fn feed_last(parser: &mut Parser, text: &[u8], lexeme: Lexeme) -> Result<(), ReadError>
    requires small { length text.now < 2 ^ 32 }
    requires met { IsMet text.now (length text.now) lexeme }
    ensures ok { OnOk result (runs (state_of parser.old) (left text.now (length text.now) lexeme) ≡ runs (state_of parser.new) []) }
    ensures err { IfErr result (λ e. Fails e (runs (state_of parser.old) (left text.now (length text.now) lexeme))) }
{
    let last = &text[lexeme.start..];
    feed(parser, lexeme.start as u32, last)?;
    Ok(())
}

/// What is open at the end of the text, or the data.
fn end_of(parser: Parser) -> Result<List<Datum>, ReadError>
    ensures { Gives data_of result (finish (stack_of parser.frames.items) (data_of parser.top)) }
{
    let Parser {
        alloc: _,
        spare: _,
        mut frames,
        top,
    } = parser;
    match frames.pop() {
        None => Ok(top),
        Some(frame) => Err(ReadError::Unclosed(place(&frame))),
    }
}

fn place(frame: &Frame) -> u32
    ensures { result ≡ place_of (frame_of frame.now) }
{
    match frame {
        Frame::Items(at, _) => *at,
        Frame::AfterDot(at, _) => *at,
        Frame::Tail(at, _, _) => *at,
        Frame::Elements(at, _) => *at,
        Frame::Waiting(at) => *at,
    }
}

/// The bytes of the text, one after another, and what its end makes whole.
fn feed_all(parser: &mut Parser, text: &[u8]) -> Result<(), ReadError>
    requires { length text.now < 2 ^ 32 }
    ensures ok { OnOk result (runs (state_of parser.old) (scan 0 [] text.now) ≡ runs (state_of parser.new) []) }
    ensures err { IfErr result (λ e. Fails e (runs (state_of parser.old) (scan 0 [] text.now))) }
{
    let mut lexeme = Lexeme {
        start: 0,
        stage: Stage::Start,
    };
    'each: for i in 0..text.len() {
        lexeme = turn(parser, text, lexeme, i)?;
    }
    feed_last(parser, text, lexeme)
}

/// What the text gives to a parser that has read nothing.
fn read_text(alloc: Global, text: &[u8]) -> Result<List<Datum>, ReadError>
    requires { length text.now < 2 ^ 32 }
    ensures { Gives data_of result (run max_nesting [] none (scan 0 [] text.now)) }
{
    let mut parser = Parser::new(alloc);
    feed_all(&mut parser, text)?;
    end_of(parser)
}

/// The data of a text, or its first fault. Out of memory may come in place of either.
///
/// The grammar is that of R5RS 7.1.1 and 7.1.2 in this project's profile; data nest at most 1,000
/// levels. The time is linear in the text.
pub fn read_all(alloc: Global, text: &[u8]) -> Result<List<Datum>, ReadError>
    requires { length text.now < 2 ^ 32 }
    ensures found { IfOk result (λ ds. Spells text.now (data_of ds)) }
    ensures only { (xs : Data) → Spells text.now xs → MatchResult result (λ ds. data_of ds ≡ xs) (λ e. e ≡ ReadError.Memory) }
    ensures fault { IfErr result (IsErrorIn text.now) }
    ensures valid { IfOk result (λ ds. AreValid (data_of ds)) }
    ensures light { IfOk result (λ ds. weights (data_of ds) ≤ max_byte_weight * length text.now) }
    ensures only_fault { (f : Fault) → HasFault text.now f → IsErrAnd result (λ e. IsErrorFor e f) }
{
    read_text(alloc, text)
}
