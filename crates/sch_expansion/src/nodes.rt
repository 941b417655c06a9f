//! What a kind of node says of its parts, and what is made of their drafts.

ghost use Rattle.std.specs.Prelude.{◌≡◌, ◌-◌, length, drop, true, IfOk, OnOk};
ghost use Rattle.sch_sketch.specs.Sketch.{assemble, width, position_in, scope_in, front, last, first, but_first, nothing, sequencing};
ghost use Rattle.sch_sketch.specs.Draft as plain;
ghost use Rattle.sch_sketch.specs.Sketch as words;
ghost use Rattle.sch_sketch.specs.SketchView.{leaf_of, kind_of};
ghost use Rattle.sch_sketch.specs.DraftView.{draft_of, drafts_of};

use sch_names::Scope;
use sch_sketch::{Draft, Kind, Leaf, Position};
use sch_word::{Const, List, Mem};
use std::alloc::Global;

/// An expression in place of what has a fault.
pub fn nothing<'a>() -> Draft<'a>
    ensures { draft_of result ≡ nothing }
{
    Draft::Constant(Const::Unspecified)
}

pub fn draft_of_leaf<'a>(leaf: &Leaf<'a>) -> Draft<'a>
    ensures { draft_of result ≡ leaf_of leaf.now }
{
    match leaf {
        Leaf::Constant(c) => Draft::Constant(*c),
        Leaf::Symbol(x) => Draft::Symbol(x),
        Leaf::Literal(d) => Draft::Literal(d),
        Leaf::Local(k) => Draft::Local(*k),
        Leaf::Global(x) => Draft::Global(x),
    }
}

/// How many operands, bindings or formals a node with this number of parts has.
pub fn width(kind: &Kind<'_>, parts: usize) -> usize
    ensures { result ≡ width (kind_of kind.now) parts }
{
    match kind {
        Kind::Let(_) => parts.saturating_sub(1),
        Kind::Letrec(_, _) => parts.saturating_sub(1),
        Kind::Lambda(names, _) => names.len(),
        Kind::Call(_) => parts.saturating_sub(1),
        Kind::Prim(_) => parts,
        _ => 0,
    }
}

/// The position of a part.
pub fn position_in(kind: &Kind<'_>, first: bool, last: bool, position: Position) -> Position
    ensures { result ≡ position_in (kind_of kind.now) first last position }
{
    match kind {
        Kind::If => { if first { Position::Test } else { position } }
        Kind::Seq => if_last(last, position),
        Kind::Let(_) => if_last(last, position),
        Kind::Letrec(_, _) => if_last(last, position),
        _ => Position::Value,
    }
}

fn if_last(last: bool, position: Position) -> Position
    ensures { result ≡ position_in sequencing true last position }
{
    if last { position } else { Position::Value }
}

/// Binds what a node binds for a part.
pub fn enter(
    alloc: Global,
    kind: &Kind<'_>,
    first: bool,
    last: bool,
    scope: &mut Scope,
) -> Result<(), Mem>
    ensures bound { OnOk result (scope.new ≡ scope_in (kind_of kind.now) first last scope.old) }
    ensures kept { OnOk result (drop (length scope.new - length scope.old) scope.new ≡ scope.old) }
{
    match kind {
        Kind::Let(names) => {
            if last {
                scope.bind_all(alloc, names.as_slice())?;
            }
        }
        Kind::Letrec(names, _) => scope.bind_all(alloc, names.as_slice())?,
        Kind::Lambda(names, _) => scope.bind_all(alloc, names.as_slice())?,
        _ => {}
    }
    Ok(())
}

/// Takes the last draft.
fn take_last<'a>(drafts: &mut List<Draft<'a>>) -> Draft<'a>
    ensures taken { draft_of result ≡ last (drafts_of drafts.old) }
    ensures left { drafts_of drafts.new ≡ front (drafts_of drafts.old) }
{
    match drafts.pop() {
        Some(e) => e,
        None => nothing(),
    }
}

/// The first draft, and those after it.
fn split_first<'a>(drafts: List<Draft<'a>>) -> (Draft<'a>, List<Draft<'a>>)
    ensures first { draft_of result.0 ≡ first (drafts_of drafts.entry) }
    ensures others { drafts_of result.1 ≡ but_first (drafts_of drafts.entry) }
{
    let mut items = drafts.into_vec();
    if items.is_empty() {
        return (nothing(), List::from_vec(items));
    }
    let e = items.remove(0);
    (e, List::from_vec(items))
}

/// What a node makes of the drafts of its parts.
pub fn assemble<'a>(
    alloc: Global,
    kind: Kind<'a>,
    drafts: List<Draft<'a>>,
) -> Result<Draft<'a>, Mem>
    ensures { IfOk result (λ e. draft_of e ≡ assemble (kind_of kind.entry) (drafts_of drafts.entry)) }
{
    match kind {
        Kind::If => assemble_if(alloc, drafts),
        Kind::Seq => Ok(Draft::Seq(drafts)),
        Kind::Prim(p) => Ok(Draft::Prim(p, drafts)),
        Kind::Call(names) => {
            let (f, operands) = split_first(drafts);
            let f = Box::new(alloc, f)?;
            Ok(Draft::Call(names, f, operands))
        }
        Kind::Let(names) => {
            let mut inits = drafts;
            let e = Box::new(alloc, take_last(&mut inits))?;
            Ok(Draft::Let(names, inits, e))
        }
        Kind::Letrec(names, procedures) => {
            let mut inits = drafts;
            let e = Box::new(alloc, take_last(&mut inits))?;
            Ok(Draft::Letrec(names, procedures, inits, e))
        }
        Kind::Lambda(names, rest) => {
            let e = procedure(alloc, names.len(), rest, drafts)?;
            Ok(e)
        }
        Kind::SetLocal(k) => Ok(Draft::SetLocal(k, last_of(alloc, drafts)?)),
        Kind::SetGlobal(x) => Ok(Draft::SetGlobal(x, last_of(alloc, drafts)?)),
        Kind::Define(x) => Ok(Draft::Define(x, last_of(alloc, drafts)?)),
    }
}

fn assemble_if<'a>(alloc: Global, drafts: List<Draft<'a>>) -> Result<Draft<'a>, Mem>
    ensures { IfOk result (λ e. draft_of e ≡ assemble words.choosing (drafts_of drafts.entry)) }
{
    let mut drafts = drafts;
    let c = Box::new(alloc, take_last(&mut drafts))?;
    let b = Box::new(alloc, take_last(&mut drafts))?;
    let a = Box::new(alloc, take_last(&mut drafts))?;
    Ok(Draft::If(a, b, c))
}

/// A procedure of this many formals, whose body is the last draft.
fn procedure<'a>(
    alloc: Global,
    formals: usize,
    rest: bool,
    drafts: List<Draft<'a>>,
) -> Result<Draft<'a>, Mem>
    ensures { IfOk result (λ e. draft_of e ≡ plain.lambda formals rest (last (drafts_of drafts.entry))) }
{
    let e = last_of(alloc, drafts)?;
    Ok(Draft::Lambda(formals, rest, e))
}

/// The last draft alone.
fn last_of<'a>(alloc: Global, drafts: List<Draft<'a>>) -> Result<Box<Draft<'a>>, Mem>
    ensures { IfOk result (λ b. draft_of b.value ≡ last (drafts_of drafts.entry)) }
{
    let mut drafts = drafts;
    let e = Box::new(alloc, take_last(&mut drafts))?;
    Ok(e)
}
