//! From tokens to data: one token after another, with a stack of what is open.

ghost use Rattle.std.specs.Prelude.{◌≡◌, ◌+◌, ◌<◌, ◌≤◌, [], ◌∷◌, IfOk, IsTrue, OnOk, false, reverse, vec_len};
ghost use Rattle.sch_read.specs.Text.{max_nesting};

use crate::datum::Datum;
use crate::error::{ReadError, flawed};
use crate::token::{Flaw, Opener, Placed, Token};
use crate::trees::{append_reversed, elements, listed, plain, quote, tailed};
use sch_word::{List, Mem};
use std::alloc::Global;

/// The most levels of lists, vectors and quotes.
pub const MAX_NESTING: u32 = 1000;

/// What is open, with its place and what was read of it.
#[derive(Drop)]
pub(crate) enum Frame {
    /// A list with its items so far.
    Items(u32, List<Datum>),
    /// A list after its dot.
    AfterDot(u32, List<Datum>),
    /// A list with the datum after its dot. Its items stand in reverse, so that those of a list whose
    /// tail it is can be added in front of them at no cost for those that are there.
    Tail(u32, List<Datum>, Datum),
    /// A vector with its elements so far.
    Elements(u32, List<Datum>),
    /// A quote that waits for its datum.
    Waiting(u32),
}

impl Frame {
    ghost use Rattle.sch_read.specs.Parser.Stack.{is_row, is_tail, with_item, with_datum};
    ghost use Rattle.sch_read.specs.Parser.StackView.{frame_of};
    ghost use Rattle.sch_read.specs.Views.{tree_of};

    /// Whether it is a list with the datum after its dot.
    fn is_tail(&self) -> bool
        ensures { result ≡ is_tail (frame_of self.now) }
    {
        matches!(self, Frame::Tail(_, _, _))
    }

    /// Whether it takes one datum after another.
    fn is_row(&self) -> bool
        ensures { result ≡ is_row (frame_of self.now) }
    {
        matches!(self, Frame::Items(_, _) | Frame::Elements(_, _))
    }

    /// A datum goes into it.
    #[tactic(auto, using(crate::proofs::DataLists::data_of_push))]
    fn put(&mut self, d: Datum) -> Result<(), Mem>
        requires { IsTrue (is_row (frame_of self.old)) }
        ensures { OnOk result (frame_of self.new ≡ with_item (frame_of self.old) (tree_of d)) }
    {
        match self {
            Frame::Items(_, items) => items.push(d),
            Frame::Elements(_, items) => items.push(d),
            _ => unreachable!(),
        }
    }

    /// The frame after a datum was put into it. A list with its datum after the dot takes no other, and a quote
    /// stays as it is.
    #[tactic(auto, using(crate::proofs::DataLists::data_of_push))]
    fn with_datum(self, d: Datum) -> Result<Frame, Mem>
        ensures { IfOk result (λ frame. frame_of frame ≡ with_datum (frame_of self) (tree_of d)) }
    {
        match self {
            Frame::Items(at, mut items) => {
                items.push(d)?;
                Ok(Frame::Items(at, items))
            }
            Frame::AfterDot(at, items) => Ok(Frame::Tail(at, items.reversed(), d)),
            Frame::Elements(at, mut items) => {
                items.push(d)?;
                Ok(Frame::Elements(at, items))
            }
            frame => Ok(frame),
        }
    }
}

/// The levels that may still be opened, what is open, the innermost last, and the data before.
#[derive(Drop)]
pub(crate) struct Parser {
    pub(crate) alloc: Global,
    pub(crate) spare: u32,
    pub(crate) frames: Vec<Frame>,
    pub(crate) top: List<Datum>,
    ghost bounded: { spare + vec_len frames ≤ max_nesting },
}

impl Parser {
    ghost use Rattle.sch_read.specs.Parser.Stack.{is_waiting, put, shut, start, in_list, in_vector, in_tail, at_top, read_dot, step, is_behind_tail};
    ghost use Rattle.sch_read.specs.Grammar.{none, Open, with_tail};
    ghost use Rattle.sch_read.specs.Views.{tree_of, data_of};
    ghost use Rattle.sch_read.specs.Parser.StackView.{state_of, stack_of, frame_of, StepsTo};
    ghost use Rattle.sch_read.specs.Lexer.TokenView.{token_of, placed_of, opener_of};

    /// Nothing is read yet.
    pub(crate) fn new(alloc: Global) -> Parser
        ensures { state_of result ≡ record { spare = max_nesting; open_ = []; top = none } }
    {
        Parser {
            alloc,
            spare: MAX_NESTING,
            frames: Vec::new(alloc),
            top: List::new(alloc),
        }
    }

    /// A datum is whole: it goes into what is open.
    fn put(&mut self, d: Datum) -> Result<(), Mem>
        ensures { OnOk result (state_of self.new ≡ put self.old.spare (tree_of d) (stack_of self.old.frames.items) (data_of self.old.top)) }
    {
        let open = self.frames.len();
        if open > 0 && self.frames[open - 1].is_row() {
            self.frames[open - 1].put(d)?;
            return Ok(());
        }
        self.put_out(d)
    }

    /// The same, through the quotes that wait for it.
    #[tactic(auto, using(crate::proofs::DataLists::data_of_push, crate::proofs::FrameStack::stack_of_push))]
    fn put_out(&mut self, d: Datum) -> Result<(), Mem>
        ensures { OnOk result (state_of self.new ≡ put self.old.spare (tree_of d) (stack_of self.old.frames.items) (data_of self.old.top)) }
    {
        let mut d = d;
        while let Some(frame) = self.frames.pop() {
            match frame {
                Frame::Waiting(at) => {
                    d = quote(self.alloc, at, d)?;
                    self.spare += 1;
                }
                frame => return self.put_into(frame, d),
            }
        }
        self.top.push(d)?;
        Ok(())
    }

    /// Puts a datum into a frame that was the innermost and is no quote.
    #[tactic(auto, using(crate::proofs::FrameStack::put_into))]
    fn put_into(&mut self, frame: Frame, d: Datum) -> Result<(), Mem>
        requires room { self.old.spare + vec_len self.old.frames < max_nesting }
        requires kind { is_waiting (frame_of frame) ≡ false }
        ensures { OnOk result (state_of self.new ≡ put self.old.spare (tree_of d)
            (frame_of frame ∷ stack_of self.old.frames.items) (data_of self.old.top)) }
    {
        let frame = frame.with_datum(d)?;
        self.push(frame)
    }

    /// A token where a datum may begin.
    #[tactic(auto, using(crate::proofs::FrameStack::stack_of_push))]
    fn start(&mut self, at: u32, token: Token) -> Result<(), ReadError>
        ensures { StepsTo result (start self.old.spare
            (stack_of self.old.frames.items) (data_of self.old.top) (token_of at token)) (state_of self.new) }
    {
        match token {
            Token::Plain(value) => {
                self.put(plain(at, value))?;
                Ok(())
            }
            Token::Open(opener) => self.enter(at, opener),
            Token::Close => Err(ReadError::BadToken(at)),
            Token::Dot => Err(ReadError::BadToken(at)),
            Token::Huge => Err(ReadError::LiteralRange(at)),
            Token::Bad(flaw) => Err(flawed(at, flaw)),
        }
    }

    /// A level more, where one is left.
    #[tactic(auto, using(crate::proofs::FrameStack::stack_of_push))]
    fn enter(&mut self, at: u32, opener: Opener) -> Result<(), ReadError>
        ensures { StepsTo result (start self.old.spare
            (stack_of self.old.frames.items) (data_of self.old.top) (Open at (opener_of opener))) (state_of self.new) }
    {
        if self.spare == 0 {
            return Err(ReadError::DeepNesting(at));
        }
        self.spare -= 1;
        let frame = match opener {
            Opener::Parenthesis => Frame::Items(at, List::new(self.alloc)),
            Opener::HashParenthesis => Frame::Elements(at, List::new(self.alloc)),
            Opener::QuoteMark => Frame::Waiting(at),
        };
        self.push(frame)?;
        Ok(())
    }

    /// One more frame, the innermost.
    fn push(&mut self, frame: Frame) -> Result<(), Mem>
        requires { self.old.spare + vec_len self.old.frames < max_nesting }
        ensures { OnOk result (state_of self.new ≡ record (state_of self.old) { open_ = frame_of frame ∷ stack_of self.old.frames.items }) }
    {
        self.frames.push(frame)?;
        Ok(())
    }

    /// A token in an open list.
    #[tactic(auto, using(crate::proofs::DataLists::data_of_push, crate::proofs::FrameStack::stack_of_push))]
    fn in_list(
        &mut self,
        place: u32,
        items: List<Datum>,
        at: u32,
        token: Token,
    ) -> Result<(), ReadError>
        requires { self.old.spare + vec_len self.old.frames < max_nesting }
        ensures { StepsTo result (in_list self.old.spare place (data_of items)
            (stack_of self.old.frames.items) (data_of self.old.top) (token_of at token)) (state_of self.new) }
    {
        match token {
            Token::Close => {
                self.spare += 1;
                self.put(listed(place, items))?;
                Ok(())
            }
            Token::Dot => self.read_dot(place, items, at),
            token => {
                self.push(Frame::Items(place, items))?;
                self.start(at, token)
            }
        }
    }

    /// The dot of a list.
    #[tactic(auto, using(crate::proofs::FrameStack::read_dot_some))]
    fn read_dot(&mut self, place: u32, items: List<Datum>, at: u32) -> Result<(), ReadError>
        requires { self.old.spare + vec_len self.old.frames < max_nesting }
        ensures { StepsTo result (read_dot self.old.spare place (data_of items)
            (stack_of self.old.frames.items) (data_of self.old.top) at) (state_of self.new) }
    {
        if items.is_empty() {
            return Err(ReadError::BadToken(at));
        }
        self.push(Frame::AfterDot(place, items))?;
        Ok(())
    }

    /// A token in an open vector.
    #[tactic(auto, using(crate::proofs::FrameStack::stack_of_push))]
    fn in_vector(
        &mut self,
        place: u32,
        items: List<Datum>,
        at: u32,
        token: Token,
    ) -> Result<(), ReadError>
        requires { self.old.spare + vec_len self.old.frames < max_nesting }
        ensures { StepsTo result (in_vector self.old.spare place (data_of items)
            (stack_of self.old.frames.items) (data_of self.old.top) (token_of at token)) (state_of self.new) }
    {
        match token {
            Token::Close => {
                self.spare += 1;
                self.put(elements(place, items))?;
                Ok(())
            }
            token => {
                self.push(Frame::Elements(place, items))?;
                self.start(at, token)
            }
        }
    }

    /// A token after a dot's datum; the items of the list are turned round.
    fn in_tail(
        &mut self,
        place: u32,
        items: List<Datum>,
        last: Datum,
        met: Placed,
    ) -> Result<(), ReadError>
        requires { self.old.spare + vec_len self.old.frames < max_nesting }
        ensures { StepsTo result (in_tail self.old.spare place (data_of (reverse items)) (tree_of last)
            (stack_of self.old.frames.items) (data_of self.old.top) (placed_of met)) (state_of self.new) }
    {
        let Placed { at, token } = met;
        match token {
            Token::Close => {
                self.shut(place, items, last)?;
                Ok(())
            }
            Token::Bad(flaw) => Err(flawed(at, flaw)),
            _ => Err(ReadError::BadToken(at)),
        }
    }

    /// A list with its datum after the dot closes; its items are turned round. Where the list stands
    /// behind another dot, it is more of the list with that dot.
    #[tactic(auto, using(crate::proofs::FrameStack::stack_of_push, crate::proofs::FrameStack::reversed_data))]
    fn shut(&mut self, place: u32, items: List<Datum>, last: Datum) -> Result<(), Mem>
        requires { self.old.spare + vec_len self.old.frames < max_nesting }
        ensures { OnOk result (state_of self.new ≡ shut self.old.spare place (data_of (reverse items)) (tree_of last)
            (stack_of self.old.frames.items) (data_of self.old.top)) }
    {
        self.spare += 1;
        match self.frames.pop() {
            Some(Frame::AfterDot(at, before)) => {
                let items = append_reversed(before, items)?;
                self.push(Frame::Tail(at, items, last))
            }
            Some(frame) => {
                self.push(frame)?;
                self.put_tailed(place, items, last)
            }
            None => self.put_tailed(place, items, last),
        }
    }

    /// Puts the list at `place` with its datum after the dot. Its items stand turned round.
    fn put_tailed(&mut self, place: u32, items: List<Datum>, last: Datum) -> Result<(), Mem>
        ensures { OnOk result (state_of self.new ≡ put self.old.spare (with_tail place (data_of (reverse items)) (tree_of last))
            (stack_of self.old.frames.items) (data_of self.old.top)) }
    {
        let whole = tailed(self.alloc, place, items.reversed(), last)?;
        self.put(whole)
    }

    /// Whether the innermost is a list with the datum after its dot.
    fn is_behind_tail(&self) -> bool
        ensures { result ≡ is_behind_tail (stack_of self.now.frames.items) }
    {
        let open = self.frames.len();
        open > 0 && self.frames[open - 1].is_tail()
    }

    /// A token. One with which a datum may begin leaves what is open where it lies.
    #[tactic(auto, using(crate::proofs::FrameStack::stack_of_push, crate::proofs::FrameStack::step_begins))]
    pub(crate) fn step(&mut self, at: u32, token: Token) -> Result<(), ReadError>
        ensures { StepsTo result (step self.old.spare
            (stack_of self.old.frames.items) (data_of self.old.top) (token_of at token)) (state_of self.new) }
    {
        if token.begins() && !self.is_behind_tail() {
            return self.start(at, token);
        }
        match self.frames.pop() {
            None => self.at_top(at, token),
            Some(Frame::Items(place, items)) => self.in_list(place, items, at, token),
            Some(Frame::Elements(place, items)) => self.in_vector(place, items, at, token),
            Some(Frame::Tail(place, items, last)) => self.in_tail(
                place,
                items,
                last,
                Placed { at, token },
            ),
            Some(frame) => {
                self.push(frame)?;
                self.start(at, token)
            }
        }
    }

    /// A token with nothing open.
    fn at_top(&mut self, at: u32, token: Token) -> Result<(), ReadError>
        requires { self.old.frames.items ≡ [] }
        ensures { StepsTo result (at_top self.old.spare (data_of self.old.top) (token_of at token)) (state_of self.new) }
    {
        match token {
            Token::Close => Err(ReadError::StrayClose(at)),
            token => self.start(at, token),
        }
    }
}
