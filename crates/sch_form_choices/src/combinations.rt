//! The rows of operations.

ghost use Rattle.std.specs.Prelude.{◌≡◌, IfOk};
ghost use Rattle.sch_read.specs.Grammar.{none, cons};
ghost use Rattle.sch_read.specs.Parts.{how_many};
ghost use Rattle.sch_read.specs.Views.{data_of};
ghost use Rattle.sch_sketch.specs.declared.sketch.Row.TheVariants.{Join};
ghost use Rattle.sch_form_choices.specs.Combinations as table;
ghost use Rattle.sch_sketch.specs.Sketch as words;
ghost use Rattle.sch_sketch.specs.Sketch.{but_one};
ghost use Rattle.sch_sketch.specs.SketchView.{sketch_of};

use sch_names::{Operation, unit_of};
use sch_read::Datum;
use sch_sketch::{
    Kind, Row, Sketch, alone, and_texts, bad, choice, constant, fresh_each, local, text, texts_and,
    texts_only, truth, two, unspecified,
};
use sch_word::{Const, Fix, Mem, Primitive};
use std::alloc::Global;

/// The constant that the results of a primitive begin with.
fn unit<'a>(at: u32, p: Primitive) -> Sketch<'a>
    ensures { sketch_of result ≡ table.unit at p }
{
    let Some(value) = Fix::new(unit_of(p) as i128) else {
        unreachable!();
    };
    constant(at, Const::Fixnum(value))
}

/// Operands that are the nearest variables, joined from the left.
fn join<'a>(at: u32, p: Primitive, items: &'a [Datum]) -> Sketch<'a>
    ensures { sketch_of result
        ≡ words.rest (Join p (but_one (how_many (data_of items.now))) (but_one (how_many (data_of items.now)))) at none none }
{
    let more = Datum::count(items).saturating_sub(1);
    alone(Row::Join(p, more, more), at, &[])
}

/// What a string or a vector is filled with, where no operand says it.
fn filler<'a>(at: u32, p: Primitive) -> Sketch<'a>
    ensures { sketch_of result ≡ table.filler at p }
{
    match p {
        Primitive::MakeString => constant(at, Const::Character(b' ')),
        _ => unspecified(at),
    }
}

/// `(not a)` -> `(if a #f #t)`.
fn row_not<'a>(alloc: Global, at: u32, items: &'a [Datum]) -> Result<Sketch<'a>, Mem>
    ensures { IfOk result (λ k. sketch_of k ≡ table.denial at (data_of items.now)) }
{
    let Some((a, others)) = Datum::split(items) else {
        return Ok(bad(at));
    };
    if let Some(_) = Datum::split(others) {
        return Ok(bad(at));
    }
    let made = choice(alloc, at, text(a), truth(at, false), truth(at, true))?;
    Ok(made)
}

/// What an operation makes of its operands.
pub fn combination<'a>(
    alloc: Global,
    o: Operation,
    at: u32,
    items: &'a [Datum],
) -> Result<Sketch<'a>, Mem>
    ensures { IfOk result (λ k. sketch_of k ≡ table.combination o at (data_of items.now)) }
{
    match o {
        Operation::Exact(p) => {
            let made = texts_only(alloc, Kind::Prim(p), at, items)?;
            Ok(made)
        }
        Operation::Unit(p) => Ok(unit(at, p)),
        Operation::UnitAnd(p) => {
            let made = and_texts(alloc, Kind::Prim(p), at, unit(at, p), items)?;
            Ok(made)
        }
        Operation::Nested(p) => {
            let names = fresh_each(alloc, items)?;
            let last = join(at, p, items);
            let made = texts_and(alloc, Kind::Let(names), at, items, last)?;
            Ok(made)
        }
        Operation::Chained(p) => {
            let names = fresh_each(alloc, items)?;
            let last = alone(Row::Chain(p), at, items);
            let made = texts_and(alloc, Kind::Let(names), at, items, last)?;
            Ok(made)
        }
        Operation::Filled(p) => {
            let made = texts_and(alloc, Kind::Prim(p), at, items, filler(at, p))?;
            Ok(made)
        }
        Operation::Not => {
            let made = row_not(alloc, at, items)?;
            Ok(made)
        }
    }
}

/// Operands joined from the left: `more` of them before the last. The first has `far` variables bound
/// nearer, and each other one fewer than the one before it.
pub fn row_join<'a>(
    alloc: Global,
    p: Primitive,
    more: usize,
    far: usize,
    at: u32,
) -> Result<Sketch<'a>, Mem>
    ensures { IfOk result (λ k. sketch_of k ≡ table.row_join p more far at) }
{
    if more == 0 {
        return Ok(local(at, far));
    }
    let inner = alone(Row::Join(p, more - 1, far), at, &[]);
    let last = local(at, far.saturating_sub(more));
    let made = two(alloc, Kind::Prim(p), at, inner, last)?;
    Ok(made)
}

/// Operands from one on, each compared with the next: `(< a b c)` -> `(if (< a b) (< b c) #f)`.
pub fn row_chain<'a>(
    alloc: Global,
    p: Primitive,
    at: u32,
    items: &'a [Datum],
) -> Result<Sketch<'a>, Mem>
    ensures { IfOk result (λ k. sketch_of k ≡ table.row_chain p at (data_of items.now)) }
{
    let Some((_, others)) = Datum::split(items) else {
        return Ok(bad(at));
    };
    let Some((b, more)) = Datum::split(others) else {
        return Ok(bad(at));
    };
    let Some(_) = Datum::split(more) else {
        let made = two(alloc, Kind::Prim(p), at, local(at, 1), local(at, 0))?;
        return Ok(made);
    };
    let left = local(at, Datum::count(others));
    let right = local(at, Datum::count(more));
    let test = two(alloc, Kind::Prim(p), at, left, right)?;
    let rest = alone(Row::Chain(p), b.offset(), others);
    let made = choice(alloc, at, test, rest, truth(at, false))?;
    Ok(made)
}
