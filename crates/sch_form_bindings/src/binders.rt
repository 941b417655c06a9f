//! The rows of forms that bind variables.

ghost use Rattle.std.specs.Prelude.{◌≡◌, ◌∷◌, ◌-◌, [], Some, true, false, length, drop, IfOk, OnOk};
ghost use Rattle.sch_read.specs.Grammar.{none, cons};
ghost use Rattle.sch_read.specs.Views.{tree_of, data_of};
ghost use Rattle.sch_names.specs.ScopeView.{given_names};
ghost use Rattle.sch_sketch.specs.Sketch as words;
ghost use Rattle.sch_sketch.specs.SketchView.{sketch_of, sketches_of, kind_of};
ghost use Rattle.sch_sketch.specs.Small as small;
ghost use Rattle.sch_sketch.specs.Optional.{AreGiven};
ghost use Rattle.sch_form_bindings.specs.Bindings.{bound, inits};
ghost use Rattle.sch_form_bindings.specs.Binders as table;

use crate::shape::{add_inits, binding_of, bound_names};
use sch_names::{Name, Scope};
use sch_read::Datum;
use sch_sketch::{
    Bindings, Kind, Row, Sketch, alone, are_distinct, bad, group, is_body, limited, local, node,
    one, rest, text, two,
};
use sch_word::{List, Mem};
use std::alloc::Global;

/// The variables of a form that binds, where it is well shaped.
fn binding_form<'a>(
    alloc: Global,
    scope: &mut Scope,
    bindings: &'a [Datum],
    body: &[Datum],
) -> Result<Option<List<Name<'a>>>, Mem>
    ensures form { IfOk result (AreGiven (table.is_binding_form scope.old (data_of bindings.now) (data_of body.now))
        (bound (data_of bindings.now))) }
    ensures scope { OnOk result (scope.new ≡ scope.old) }
{
    let Some(names) = bound_names(alloc, bindings)? else {
        return Ok(None);
    };
    if !are_distinct(alloc, names.as_slice())? {
        return Ok(None);
    }
    if !is_body(alloc, scope, names.as_slice(), body)? {
        return Ok(None);
    }
    Ok(Some(names))
}

/// The same inside one variable more.
fn binding_form_inside<'a>(
    alloc: Global,
    scope: &mut Scope,
    f: &[u8],
    bindings: &'a [Datum],
    body: &[Datum],
) -> Result<Option<List<Name<'a>>>, Mem>
    ensures form { IfOk result (AreGiven (table.is_binding_form (Some f.now ∷ scope.old) (data_of bindings.now) (data_of body.now))
        (bound (data_of bindings.now))) }
    ensures scope { OnOk result (scope.new ≡ scope.old) }
{
    let mut own = List::new(alloc);
    own.push(Some(f))?;
    let depth = scope.depth();
    scope.bind_all(alloc, own.as_slice())?;
    let form = binding_form(alloc, scope, bindings, body)?;
    scope.leave(depth);
    Ok(form)
}

/// The procedure of a `let` with a name, in the scope of that name.
fn looping<'a>(
    alloc: Global,
    at: u32,
    f: &'a [u8],
    names: List<Name<'a>>,
    body: &'a [Datum],
) -> Result<Sketch<'a>, Mem>
    ensures { IfOk result (λ k. sketch_of k ≡ table.looping at f.now (given_names names.entry) (data_of body.now)) }
{
    let inner = one(
        alloc,
        Kind::Lambda(names, false),
        at,
        alone(Row::Body, at, body),
    )?;
    let mut own = List::new(alloc);
    own.push(Some(f))?;
    let made = two(alloc, Kind::Letrec(own, true), at, inner, local(at, 0))?;
    Ok(made)
}

/// One part, and the inits of bindings.
fn then_inits<'a>(
    alloc: Global,
    first: Sketch<'a>,
    items: &'a [Datum],
) -> Result<List<Sketch<'a>>, Mem>
    ensures { IfOk result (λ parts. sketches_of parts
        ≡ words.and_sketch (sketch_of first.entry) (inits (data_of items.now) words.no_sketch)) }
{
    let mut parts = List::new(alloc);
    parts.push(first)?;
    add_inits(&mut parts, items)?;
    Ok(parts)
}

/// The inits of bindings, and one part more.
fn inits_then<'a>(
    alloc: Global,
    items: &'a [Datum],
    last: Sketch<'a>,
) -> Result<List<Sketch<'a>>, Mem>
    ensures { IfOk result (λ parts. sketches_of parts ≡ inits (data_of items.now) (small.one (sketch_of last.entry))) }
{
    let mut parts = List::new(alloc);
    add_inits(&mut parts, items)?;
    parts.push(last)?;
    Ok(parts)
}

/// A node over one part, and the inits of bindings.
fn and_inits<'a>(
    alloc: Global,
    kind: Kind<'a>,
    at: u32,
    first: Sketch<'a>,
    items: &'a [Datum],
) -> Result<Sketch<'a>, Mem>
    ensures { IfOk result (λ k. sketch_of k
        ≡ words.node (kind_of kind.entry) at (words.and_sketch (sketch_of first.entry) (inits (data_of items.now) words.no_sketch))) }
{
    let parts = then_inits(alloc, first, items)?;
    Ok(node(kind, at, parts))
}

/// A node over the inits of bindings, and one part more.
fn inits_and<'a>(
    alloc: Global,
    kind: Kind<'a>,
    at: u32,
    items: &'a [Datum],
    last: Sketch<'a>,
) -> Result<Sketch<'a>, Mem>
    ensures { IfOk result (λ k. sketch_of k
        ≡ words.node (kind_of kind.entry) at (inits (data_of items.now) (small.one (sketch_of last.entry)))) }
{
    let parts = inits_then(alloc, items, last)?;
    Ok(node(kind, at, parts))
}

/// A `let` with a name: `(let f ((v i) ..) e ..)` -> `((letrec ((f (lambda (v ..) e ..))) f) i ..)`, where each `i` is
/// the init of its `v`.
fn row_named<'a>(
    alloc: Global,
    scope: &mut Scope,
    at: u32,
    f: &'a [u8],
    items: &'a [Datum],
) -> Result<Sketch<'a>, Mem>
    ensures made { IfOk result (λ k. sketch_of k ≡ table.row_named scope.old at f.now (data_of items.now)) }
    ensures scope { OnOk result (scope.new ≡ scope.old) }
{
    let Some((bindings, body)) = Datum::split(items) else {
        return Ok(bad(at));
    };
    let Some(bound) = bindings.items() else {
        return Ok(bad(at));
    };
    let Some(names) = binding_form_inside(alloc, scope, f, bound, body)? else {
        return Ok(bad(at));
    };
    let variables = List::from_slice(alloc, names.as_slice())?;
    let operator = looping(alloc, at, f, names, body)?;
    let made = and_inits(alloc, Kind::Call(variables), at, operator, bound)?;
    Ok(made)
}

/// A `let`.
pub fn row_let<'a>(
    alloc: Global,
    scope: &mut Scope,
    at: u32,
    items: &'a [Datum],
) -> Result<Sketch<'a>, Mem>
    ensures made { IfOk result (λ k. sketch_of k ≡ table.row_let scope.old at (data_of items.now)) }
    ensures scope { OnOk result (scope.new ≡ scope.old) }
{
    let Some((bindings, body)) = Datum::split(items) else {
        return Ok(bad(at));
    };
    if let Some(f) = bindings.name() {
        let made = row_named(alloc, scope, at, f, body)?;
        return Ok(made);
    }
    let Some(bound) = bindings.items() else {
        return Ok(bad(at));
    };
    let Some(names) = binding_form(alloc, scope, bound, body)? else {
        return Ok(bad(at));
    };
    let last = alone(Row::Body, at, body);
    let made = inits_and(alloc, Kind::Let(names), at, bound, last)?;
    Ok(made)
}

/// The `letrec` of well shaped bindings and a body.
fn letrec<'a>(
    alloc: Global,
    scope: &mut Scope,
    at: u32,
    bound: &'a [Datum],
    body: &'a [Datum],
) -> Result<Sketch<'a>, Mem>
    ensures made { IfOk result (λ k. sketch_of k ≡ table.letrec_form scope.old at (data_of bound.now) (data_of body.now)) }
    ensures scope { OnOk result (scope.new ≡ scope.old) }
{
    let Some(names) = binding_form(alloc, scope, bound, body)? else {
        return Ok(bad(at));
    };
    let mut inits = List::new(alloc);
    add_inits(&mut inits, bound)?;
    let last = alone(Row::Body, at, body);
    let made = group(alloc, scope, at, Bindings { names, inits }, last)?;
    Ok(made)
}

/// A `letrec`.
pub fn row_letrec<'a>(
    alloc: Global,
    scope: &mut Scope,
    at: u32,
    items: &'a [Datum],
) -> Result<Sketch<'a>, Mem>
    ensures made { IfOk result (λ k. sketch_of k ≡ table.row_letrec scope.old at (data_of items.now)) }
    ensures scope { OnOk result (scope.new ≡ scope.old) }
{
    let Some((bindings, body)) = Datum::split(items) else {
        return Ok(bad(at));
    };
    let Some(bound) = bindings.items() else {
        return Ok(bad(at));
    };
    let made = letrec(alloc, scope, at, bound, body)?;
    Ok(made)
}

/// The bindings of a `let*` and its body.
fn starred<'a>(
    alloc: Global,
    at: u32,
    bound: &'a [Datum],
    body: &'a [Datum],
) -> Result<Sketch<'a>, Mem>
    ensures { IfOk result (λ k. sketch_of k ≡ table.starred at (data_of bound.now) (data_of body.now)) }
{
    let Some(_) = Datum::split(bound) else {
        let names = List::new(alloc);
        let made = one(alloc, Kind::Let(names), at, alone(Row::Body, at, body))?;
        return Ok(made);
    };
    let inner = rest(Row::Nest(at), at, bound, body);
    let made = limited(alloc, at, Datum::count(bound), inner)?;
    Ok(made)
}

/// A `let*`.
pub fn row_let_star<'a>(
    alloc: Global,
    scope: &mut Scope,
    at: u32,
    items: &'a [Datum],
) -> Result<Sketch<'a>, Mem>
    ensures made { IfOk result (λ k. sketch_of k ≡ table.row_let_star scope.old at (data_of items.now)) }
    ensures scope { OnOk result (scope.new ≡ scope.old) }
{
    let Some((bindings, body)) = Datum::split(items) else {
        return Ok(bad(at));
    };
    let Some(bound) = bindings.items() else {
        return Ok(bad(at));
    };
    let Some(names) = bound_names(alloc, bound)? else {
        return Ok(bad(at));
    };
    if !is_body(alloc, scope, names.as_slice(), body)? {
        return Ok(bad(at));
    }
    let made = starred(alloc, at, bound, body)?;
    Ok(made)
}

/// The bindings of a `let*` from one on: `((v i) b ..)` -> `(let ((v i)) (let* (b ..) e ..))`.
pub fn row_nest<'a>(
    alloc: Global,
    outer: u32,
    at: u32,
    bindings: &'a [Datum],
    body: &'a [Datum],
) -> Result<Sketch<'a>, Mem>
    ensures { IfOk result (λ k. sketch_of k ≡ table.row_nest outer at (data_of bindings.now) (data_of body.now)) }
{
    let Some((b, others)) = Datum::split(bindings) else {
        return Ok(bad(at));
    };
    let Some((x, init)) = binding_of(b) else {
        return Ok(bad(at));
    };
    let mut names = List::new(alloc);
    names.push(Some(x))?;
    let last = match Datum::split(others) {
        None => alone(Row::Body, outer, body),
        Some((next, _)) => rest(Row::Nest(outer), next.offset(), others, body),
    };
    let made = two(alloc, Kind::Let(names), at, text(init), last)?;
    Ok(made)
}
