//! The rows of `if`, `and` and `or`, of quotations and of sequences.

ghost use Rattle.std.specs.Prelude.{◌≡◌, IfOk};
ghost use Rattle.sch_read.specs.Grammar.{none, cons};
ghost use Rattle.sch_read.specs.Views.{tree_of, data_of};
ghost use Rattle.sch_form_choices.specs.Choices as table;
ghost use Rattle.sch_sketch.specs.SketchView.{sketch_of};

use sch_names::Keyword;
use sch_read::Datum;
use sch_sketch::{
    Kind, Position, Row, Sketch, alone, bad, choice, either_of, quoted, text, texts_only, truth,
    unspecified,
};
use sch_word::Mem;
use std::alloc::Global;

/// `(quote d)`.
pub fn row_quote<'a>(at: u32, items: &'a [Datum]) -> Sketch<'a>
    ensures { sketch_of result ≡ table.row_quote at (data_of items.now) }
{
    let Some((d, others)) = Datum::split(items) else {
        return bad(at);
    };
    if let Some(_) = Datum::split(others) {
        return bad(at);
    }
    quoted(at, d)
}

/// `(begin e ..)`.
pub fn row_begin<'a>(alloc: Global, at: u32, items: &'a [Datum]) -> Result<Sketch<'a>, Mem>
    ensures { IfOk result (λ k. sketch_of k ≡ table.row_begin at (data_of items.now)) }
{
    let Some((e, others)) = Datum::split(items) else {
        return Ok(bad(at));
    };
    let Some(_) = Datum::split(others) else {
        return Ok(text(e));
    };
    let made = texts_only(alloc, Kind::Seq, at, items)?;
    Ok(made)
}

/// `(if a b c)` and `(if a b)`.
pub fn row_if<'a>(alloc: Global, at: u32, items: &'a [Datum]) -> Result<Sketch<'a>, Mem>
    ensures { IfOk result (λ k. sketch_of k ≡ table.row_if at (data_of items.now)) }
{
    let Some((a, others)) = Datum::split(items) else {
        return Ok(bad(at));
    };
    let Some((b, others)) = Datum::split(others) else {
        return Ok(bad(at));
    };
    let Some((c, others)) = Datum::split(others) else {
        let made = choice(alloc, at, text(a), text(b), unspecified(at))?;
        return Ok(made);
    };
    if let Some(_) = Datum::split(others) {
        return Ok(bad(at));
    }
    let made = choice(alloc, at, text(a), text(b), text(c))?;
    Ok(made)
}

/// `(and a r ..)` -> `(if a (and r ..) #f)`.
pub fn row_and<'a>(alloc: Global, at: u32, items: &'a [Datum]) -> Result<Sketch<'a>, Mem>
    ensures { IfOk result (λ k. sketch_of k ≡ table.row_and at (data_of items.now)) }
{
    let Some((a, others)) = Datum::split(items) else {
        return Ok(truth(at, true));
    };
    let Some((b, _)) = Datum::split(others) else {
        return Ok(text(a));
    };
    let rest = alone(Row::Form(Keyword::And), b.offset(), others);
    let made = choice(alloc, at, text(a), rest, truth(at, false))?;
    Ok(made)
}

/// `(or a r ..)` -> `(let (t a) (if t t (or r ..)))`.
pub fn row_or<'a>(
    alloc: Global,
    position: Position,
    at: u32,
    items: &'a [Datum],
) -> Result<Sketch<'a>, Mem>
    ensures { IfOk result (λ k. sketch_of k ≡ table.row_or position at (data_of items.now)) }
{
    let Some((a, others)) = Datum::split(items) else {
        return Ok(truth(at, false));
    };
    let Some((b, _)) = Datum::split(others) else {
        return Ok(text(a));
    };
    let rest = alone(Row::Form(Keyword::Or), b.offset(), others);
    let made = either_of(alloc, position, at, text(a), rest)?;
    Ok(made)
}
