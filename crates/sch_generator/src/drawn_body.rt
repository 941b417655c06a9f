//! Bodies of procedures, drawn and written.

ghost use Rattle.std.specs.Prelude.{◌≡◌, ◌++◌, OnOk};
ghost use Rattle.sch_generator.specs.DrawnBody.{drawn_body, body_in_case, body_text};

use crate::draws::Draws;
use crate::pieces::Piece::{Number, Text};
use crate::pieces::write_pieces;
use sch_word::{Bytes, Mem};

/// A number that is drawn for an operand is below it.
pub(crate) const OPERAND_BOUND: u32 = 1000;

/// The body of a procedure of `a` and `b`. Its callee is the number of an earlier procedure.
#[derive(Clone, Copy)]
pub(crate) enum Body {
    /// `(if (< a b) (remainder (+ a (* 3 b)) 1000) (remainder (+ (* 5 a) b) 1000))`
    Comparison,
    /// `(let ((t (remainder (+ a 498) 1000))) (remainder (+ t b) 1000))`, with 498 for the addend
    Binding { addend: u32 },
    /// `(remainder (+ (f1 a b) (f1 b a)) 1000)`, with 1 for the callee
    TwoCalls { callee: u32 },
    /// `(f1 b (remainder (+ a 741) 1000))`, with 1 for the callee and 741 for the addend
    TailCall { callee: u32, addend: u32 },
}

impl Body {
    /// Draws the body of procedure `index`: its case, then its callee and then its addend, where it has them.
    #[tactic(auto, unfolding(crate::specs::DrawnBody::drawn_body, crate::specs::DrawnBody::body_in_case))]
    pub(crate) fn draw(draws: &mut Draws, index: u32) -> Body
        ensures body { result ≡ (drawn_body index draws.old.state).body }
        ensures state { draws.new.state ≡ (drawn_body index draws.old.state).state }
    {
        // The first procedure has none to call.
        let case = draws.draw(if index == 0 { 2 } else { 4 });
        match case {
            0 => Body::Comparison,
            1 => Body::Binding {
                addend: draws.draw(OPERAND_BOUND),
            },
            2 => Body::TwoCalls {
                callee: draws.draw(index),
            },
            _ => {
                let callee = draws.draw(index);
                let addend = draws.draw(OPERAND_BOUND);
                Body::TailCall { callee, addend }
            }
        }
    }
}

/// Writes a body's expression.
#[tactic(auto, unfolding(crate::specs::DrawnBody::body_text))]
pub(crate) fn write_body(out: &mut Bytes, body: Body) -> Result<(), Mem>
    ensures { OnOk result (out.new ≡ out.old ++ body_text body) }
{
    match body {
        Body::Comparison => out.extend_from_slice(
            b"(if (< a b) (remainder (+ a (* 3 b)) 1000) (remainder (+ (* 5 a) b) 1000))",
        ),
        Body::Binding { addend } => write_pieces(
            out,
            &[
                Text(b"(let ((t (remainder (+ a "),
                Number(addend),
                Text(b") 1000))) (remainder (+ t b) 1000))"),
            ],
        ),
        Body::TwoCalls { callee } => write_pieces(
            out,
            &[
                Text(b"(remainder (+ (f"),
                Number(callee),
                Text(b" a b) (f"),
                Number(callee),
                Text(b" b a)) 1000)"),
            ],
        ),
        Body::TailCall { callee, addend } => write_pieces(
            out,
            &[
                Text(b"(f"),
                Number(callee),
                Text(b" b (remainder (+ a "),
                Number(addend),
                Text(b") 1000))"),
            ],
        ),
    }
}
