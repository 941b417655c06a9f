//! The text that is made of a number, line by line.

ghost use Rattle.std.specs.Prelude.{◌≡◌, ◌++◌, ◌≤◌, ◌^◌, length, IfOk, OnOk};
ghost use Rattle.sch_generator.specs.GeneratedText.{procedure_count, lines_below, definition_text, definition_line, definition_state, call_text, call_line, generated_text};

use crate::drawn_body::{Body, OPERAND_BOUND, write_body};
use crate::draws::Draws;
use crate::pieces::Piece::{Number, Text};
use crate::pieces::write_pieces;
use sch_word::{Bytes, List, Mem};
use std::alloc::Global;

/// How many procedures a text has.
const PROCEDURE_COUNT: u32 = 1000;

/// The text that is made of `number`: the definitions of 1,000 procedures, each of which calls earlier ones alone, and
/// then a call of each that displays its answer, each on a line. All that is drawn follows from `number`, where the draws
/// begin. It takes time in proportion to the text.
pub fn generate(alloc: Global, number: u32) -> Result<Bytes, Mem>
    ensures text { IfOk result (λ text. text ≡ generated_text number) }
    // It is no longer than a source may be.
    ensures short { IfOk result (λ text. length text ≤ 2 ^ 20) }
{
    let mut out = List::new(alloc);
    let mut draws = Draws { state: number };
    write_definitions(&mut out, &mut draws)?;
    write_calls(&mut out, &mut draws)?;
    Ok(out)
}

fn write_definitions(out: &mut Bytes, draws: &mut Draws) -> Result<(), Mem>
    ensures text { OnOk result (out.new ≡ out.old ++ lines_below (definition_line draws.old.state) procedure_count) }
    ensures state { OnOk result (draws.new.state ≡ definition_state draws.old.state procedure_count) }
{
    for index in 0..PROCEDURE_COUNT {
        let body = Body::draw(draws, index);
        write_definition(out, index, body)?;
    }
    Ok(())
}

#[tactic(auto, unfolding(crate::specs::GeneratedText::definition_text))]
fn write_definition(out: &mut Bytes, index: u32, body: Body) -> Result<(), Mem>
    ensures { OnOk result (out.new ≡ out.old ++ definition_text index body) }
{
    write_pieces(out, &[Text(b"(define (f"), Number(index), Text(b" a b) ")])?;
    write_body(out, body)?;
    out.extend_from_slice(b")\n")
}

fn write_calls(out: &mut Bytes, draws: &mut Draws) -> Result<(), Mem>
    ensures text { OnOk result (out.new ≡ out.old ++ lines_below (call_line draws.old.state) procedure_count) }
{
    for index in 0..PROCEDURE_COUNT {
        let first = draws.draw(OPERAND_BOUND);
        let second = draws.draw(OPERAND_BOUND);
        write_call(out, index, first, second)?;
    }
    Ok(())
}

#[tactic(auto, unfolding(crate::specs::GeneratedText::call_text))]
fn write_call(out: &mut Bytes, index: u32, first: u32, second: u32) -> Result<(), Mem>
    ensures { OnOk result (out.new ≡ out.old ++ call_text index first second) }
{
    write_pieces(
        out,
        &[
            Text(b"(display (f"),
            Number(index),
            Text(b" "),
            Number(first),
            Text(b" "),
            Number(second),
            Text(b"))(newline)\n"),
        ],
    )
}
