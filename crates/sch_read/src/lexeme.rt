//! How far a lexeme goes, byte after byte.

ghost use Rattle.std.specs.Prelude.{◌≡◌, ℕ, true, List, [], ◌∷◌};
ghost use Rattle.sch_read.specs.Lexer.Lexeme.{is_lexeme};
ghost use Rattle.sch_read.specs.Lexer.Stages.{can_follow, GoesOn};

use crate::letters::is_delimiter;

/// What was met of a lexeme.
#[derive(Clone, Copy, Drop)]
pub enum Stage {
    /// Nothing.
    Start,
    /// All of it: nothing can follow.
    Done,
    Comment,
    /// A string, after its opening quote.
    Text,
    /// A string, after a backslash.
    Escape,
    /// `#`.
    Hash,
    /// `#\`.
    Backslash,
    Word,
}

/// The stage after a lexeme's first byte.
pub fn begin(b: u8) -> Stage
    ensures first { (bs : List ℕ) → is_lexeme (b ∷ bs) ≡ can_follow result bs }
    ensures whole { can_follow result [] ≡ true }
{
    if b == b';' {
        Stage::Comment
    } else if b == b'"' {
        Stage::Text
    } else if b == b'#' {
        Stage::Hash
    } else if is_delimiter(b) || b == b'\'' {
        Stage::Done
    } else {
        Stage::Word
    }
}

/// The stage after one more byte, or none where the byte belongs to the next lexeme.
pub fn next(stage: Stage, b: u8) -> Option<Stage>
    ensures { GoesOn stage b result }
{
    match stage {
        Stage::Start => Some(begin(b)),
        Stage::Done => None,
        Stage::Comment => next_in_comment(b),
        Stage::Text => Some(next_in_text(b)),
        Stage::Escape => Some(Stage::Text),
        Stage::Hash => next_after_hash(b),
        Stage::Backslash => Some(Stage::Word),
        Stage::Word => next_in_word(b),
    }
}

fn next_in_comment(b: u8) -> Option<Stage>
    ensures { GoesOn Stage.Comment b result }
{
    if b == b'\n' {
        None
    } else {
        Some(Stage::Comment)
    }
}

fn next_in_text(b: u8) -> Stage
    ensures { GoesOn Stage.Text b (Some result) }
{
    if b == b'"' {
        Stage::Done
    } else if b == b'\\' {
        Stage::Escape
    } else {
        Stage::Text
    }
}

fn next_after_hash(b: u8) -> Option<Stage>
    ensures { GoesOn Stage.Hash b result }
{
    if b == b'(' {
        Some(Stage::Done)
    } else if b == b'\\' {
        Some(Stage::Backslash)
    } else {
        next_in_word(b)
    }
}

fn next_in_word(b: u8) -> Option<Stage>
    ensures { GoesOn Stage.Word b result }
{
    if is_delimiter(b) {
        None
    } else {
        Some(Stage::Word)
    }
}
