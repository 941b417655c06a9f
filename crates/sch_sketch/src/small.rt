//! Small sketches, of which the rows are made.

ghost use Rattle.std.specs.Prelude.{◌≡◌, [], ◌∷◌, ◌++◌, IfOk, OnOk};
ghost use Rattle.sch_read.specs.Grammar.{none, cons};
ghost use Rattle.sch_read.specs.Views.{tree_of, data_of};
ghost use Rattle.sch_names.specs.ScopeView.{given_names};
ghost use Rattle.sch_sketch.specs.declared.fault.Fault.TheVariants.{BadForm};
ghost use Rattle.sch_sketch.specs.Draft as plain;
ghost use Rattle.sch_sketch.specs.Sketch as words;
ghost use Rattle.sch_sketch.specs.Sketch.{no_sketch, and_sketch};
ghost use Rattle.sch_sketch.specs.SketchView.{sketch_of, sketches_of, kind_of, ahead};
ghost use Rattle.sch_sketch.specs.Small as small;

use crate::sketch::{Kind, Leaf, Position, Row, Sketch, Wrong};
use sch_names::Name;
use sch_read::{Atom, Datum};
use sch_word::{Const, List, Mem};
use std::alloc::Global;

pub fn text<'a>(d: &'a Datum) -> Sketch<'a>
    ensures { sketch_of result ≡ words.text (tree_of d.now) }
{
    Sketch::Text(d)
}

pub fn rest<'a>(row: Row, at: u32, first: &'a [Datum], second: &'a [Datum]) -> Sketch<'a>
    ensures { sketch_of result ≡ words.rest row at (data_of first.now) (data_of second.now) }
{
    Sketch::Rest(row, at, first, second)
}

pub fn alone<'a>(row: Row, at: u32, first: &'a [Datum]) -> Sketch<'a>
    ensures { sketch_of result ≡ words.rest row at (data_of first.now) none }
{
    Sketch::Rest(row, at, first, &[])
}

pub fn bad<'a>(at: u32) -> Sketch<'a>
    ensures { sketch_of result ≡ words.wrong (BadForm at) }
{
    Sketch::Wrong(Wrong::BadForm(at))
}

pub fn constant<'a>(at: u32, c: Const) -> Sketch<'a>
    ensures { sketch_of result ≡ words.leaf at (plain.constant c) }
{
    Sketch::Leaf(at, Leaf::Constant(c))
}

fn symbol<'a>(at: u32, x: &'a [u8]) -> Sketch<'a>
    ensures { sketch_of result ≡ words.leaf at (plain.symbol x.now) }
{
    Sketch::Leaf(at, Leaf::Symbol(x))
}

fn literal<'a>(at: u32, d: &'a Datum) -> Sketch<'a>
    ensures { sketch_of result ≡ words.leaf at (plain.literal (tree_of d.now)) }
{
    Sketch::Leaf(at, Leaf::Literal(d))
}

pub fn truth<'a>(at: u32, b: bool) -> Sketch<'a>
    ensures { sketch_of result ≡ small.truth at b }
{
    Sketch::Leaf(at, Leaf::Constant(Const::Boolean(b)))
}

pub fn unspecified<'a>(at: u32) -> Sketch<'a>
    ensures { sketch_of result ≡ words.leaf at words.nothing }
{
    Sketch::Leaf(at, Leaf::Constant(Const::Unspecified))
}

pub fn local<'a>(at: u32, k: usize) -> Sketch<'a>
    ensures { sketch_of result ≡ words.leaf at (plain.local k) }
{
    Sketch::Leaf(at, Leaf::Local(k))
}

pub fn node<'a>(kind: Kind<'a>, at: u32, parts: List<Sketch<'a>>) -> Sketch<'a>
    ensures { sketch_of result ≡ words.node (kind_of kind.entry) at (sketches_of parts.entry) }
{
    Sketch::Node(kind, at, parts)
}

/// A call whose operands are no inits of variables.
pub fn plain_call<'a>(alloc: Global) -> Kind<'a>
    ensures { kind_of result ≡ words.calling [] }
{
    Kind::Call(List::new(alloc))
}

pub fn limited<'a>(
    alloc: Global,
    at: u32,
    count: usize,
    inner: Sketch<'a>,
) -> Result<Sketch<'a>, Mem>
    ensures { IfOk result (λ k. sketch_of k ≡ words.limited at count (sketch_of inner.entry)) }
{
    let inner = Box::new(alloc, inner)?;
    Ok(Sketch::Limited(at, count, inner))
}

/// A list without sketches, with room for this many.
fn room<'a>(alloc: Global, count: usize) -> Result<List<Sketch<'a>>, Mem>
    ensures { IfOk result (λ parts. parts ≡ []) }
{
    let items = Vec::with_capacity(alloc, count)?;
    Ok(List::from_vec(items))
}

pub fn one<'a>(alloc: Global, kind: Kind<'a>, at: u32, a: Sketch<'a>) -> Result<Sketch<'a>, Mem>
    ensures { IfOk result (λ k. sketch_of k ≡ words.node (kind_of kind.entry) at (small.one (sketch_of a.entry))) }
{
    let parts = vec![in alloc; a]?;
    Ok(node(kind, at, List::from_vec(parts)))
}

pub fn two<'a>(
    alloc: Global,
    kind: Kind<'a>,
    at: u32,
    a: Sketch<'a>,
    b: Sketch<'a>,
) -> Result<Sketch<'a>, Mem>
    ensures { IfOk result (λ k. sketch_of k ≡ words.node (kind_of kind.entry) at (small.two (sketch_of a.entry) (sketch_of b.entry))) }
{
    let parts = vec![in alloc; a, b]?;
    Ok(node(kind, at, List::from_vec(parts)))
}

/// An `if` at this place.
pub fn choice<'a>(
    alloc: Global,
    at: u32,
    a: Sketch<'a>,
    b: Sketch<'a>,
    c: Sketch<'a>,
) -> Result<Sketch<'a>, Mem>
    ensures { IfOk result (λ k. sketch_of k
        ≡ words.node words.choosing at (small.three (sketch_of a.entry) (sketch_of b.entry) (sketch_of c.entry))) }
{
    let parts = vec![in alloc; a, b, c]?;
    Ok(node(Kind::If, at, List::from_vec(parts)))
}

/// A binding of one variable without a name.
pub fn bind_fresh<'a>(
    alloc: Global,
    at: u32,
    init: Sketch<'a>,
    body: Sketch<'a>,
) -> Result<Sketch<'a>, Mem>
    ensures { IfOk result (λ k. sketch_of k
        ≡ words.node (words.binding small.fresh) at (small.two (sketch_of init.entry) (sketch_of body.entry))) }
{
    let parts = vec![in alloc; init, body]?;
    let names = vec![in alloc; None]?;
    Ok(node(Kind::Let(List::from_vec(names)), at, List::from_vec(parts)))
}

/// Adds the texts of data.
pub fn add_texts<'a>(parts: &mut List<Sketch<'a>>, items: &'a [Datum]) -> Result<(), Mem>
    ensures { OnOk result ((ks : words.Sketches) → ahead parts.new ks ≡ ahead parts.old (small.texts (data_of items.now) ks)) }
{
    for d in items {
        parts.push(text(d))?;
    }
    Ok(())
}

/// A node over the texts of data.
pub fn texts_only<'a>(
    alloc: Global,
    kind: Kind<'a>,
    at: u32,
    items: &'a [Datum],
) -> Result<Sketch<'a>, Mem>
    ensures { IfOk result (λ k. sketch_of k ≡ words.node (kind_of kind.entry) at (small.texts (data_of items.now) no_sketch)) }
{
    let mut parts = room(alloc, items.len())?;
    add_texts(&mut parts, items)?;
    let made = node(kind, at, parts);
    Ok(made)
}

/// The texts of data, and one part more.
fn texts_then<'a>(
    alloc: Global,
    items: &'a [Datum],
    last: Sketch<'a>,
) -> Result<List<Sketch<'a>>, Mem>
    ensures { IfOk result (λ parts. sketches_of parts ≡ small.texts (data_of items.now) (small.one (sketch_of last.entry))) }
{
    let mut parts = room(alloc, items.len().saturating_add(1))?;
    add_texts(&mut parts, items)?;
    parts.push(last)?;
    Ok(parts)
}

/// One part, and the texts of data.
fn then_texts<'a>(
    alloc: Global,
    first: Sketch<'a>,
    items: &'a [Datum],
) -> Result<List<Sketch<'a>>, Mem>
    ensures { IfOk result (λ parts. sketches_of parts ≡ and_sketch (sketch_of first.entry) (small.texts (data_of items.now) no_sketch)) }
{
    let mut parts = room(alloc, items.len().saturating_add(1))?;
    parts.push(first)?;
    add_texts(&mut parts, items)?;
    Ok(parts)
}

/// A node over the texts of data, and one part more.
pub fn texts_and<'a>(
    alloc: Global,
    kind: Kind<'a>,
    at: u32,
    items: &'a [Datum],
    last: Sketch<'a>,
) -> Result<Sketch<'a>, Mem>
    ensures { IfOk result (λ k. sketch_of k
        ≡ words.node (kind_of kind.entry) at (small.texts (data_of items.now) (small.one (sketch_of last.entry)))) }
{
    let parts = texts_then(alloc, items, last)?;
    Ok(node(kind, at, parts))
}

/// A node over one part, and the texts of data.
pub fn and_texts<'a>(
    alloc: Global,
    kind: Kind<'a>,
    at: u32,
    first: Sketch<'a>,
    items: &'a [Datum],
) -> Result<Sketch<'a>, Mem>
    ensures { IfOk result (λ k. sketch_of k
        ≡ words.node (kind_of kind.entry) at (and_sketch (sketch_of first.entry) (small.texts (data_of items.now) no_sketch))) }
{
    let parts = then_texts(alloc, first, items)?;
    Ok(node(kind, at, parts))
}

/// Variables without names, one for each datum.
pub fn fresh_each<'a>(alloc: Global, items: &[Datum]) -> Result<List<Name<'a>>, Mem>
    ensures { IfOk result (λ vs. given_names vs ≡ small.fresh_each (data_of items.now)) }
{
    let mut fresh = List::from_vec(Vec::with_capacity(alloc, items.len())?);
    for _d in items {
        fresh.push(None)?;
    }
    Ok(fresh)
}

/// The place of a datum with which the rest begins, if there is one.
pub fn place_of(at: u32, items: &[Datum]) -> u32
    ensures { result ≡ small.place_of at (data_of items.now) }
{
    match Datum::split(items) {
        None => at,
        Some((d, _)) => d.offset(),
    }
}

/// What a datum is that is quoted: a constant, a symbol, or a literal.
pub fn quoted<'a>(at: u32, d: &'a Datum) -> Sketch<'a>
    ensures { sketch_of result ≡ small.quoted at (tree_of d.now) }
{
    if let Some(a) = d.atom() {
        return match a {
            Atom::Boolean(b) => truth(at, *b),
            Atom::Integer(n) => constant(at, Const::Fixnum(*n)),
            Atom::Character(c) => constant(at, Const::Character(*c)),
            Atom::Text(_) => literal(at, d),
            Atom::Symbol(x) => symbol(at, x.as_slice()),
        };
    }
    let Some(items) = d.items() else {
        return literal(at, d);
    };
    let Some(_) = Datum::split(items) else {
        return constant(at, Const::Nil);
    };
    literal(at, d)
}

/// The first, or what follows.
pub fn either_of<'a>(
    alloc: Global,
    position: Position,
    at: u32,
    a: Sketch<'a>,
    rest: Sketch<'a>,
) -> Result<Sketch<'a>, Mem>
    ensures { IfOk result (λ k. sketch_of k ≡ small.either_of position at (sketch_of a.entry) (sketch_of rest.entry)) }
{
    match position {
        Position::Value => {
            let inner = choice(alloc, at, local(at, 0), local(at, 0), rest)?;
            let made = bind_fresh(alloc, at, a, inner)?;
            Ok(made)
        }
        Position::Test => {
            let made = choice(alloc, at, a, truth(at, true), rest)?;
            Ok(made)
        }
    }
}
