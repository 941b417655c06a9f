//! The row of `do`.

ghost use Rattle.std.specs.Prelude.{◌≡◌, ◌++◌, ◌∷◌, [], true, false, MatchOption, IfOk, OnOk};
ghost use Rattle.sch_read.specs.Grammar.{none, cons, list, atom, symbol};
ghost use Rattle.sch_read.specs.Parts.{how_many, offset};
ghost use Rattle.sch_read.specs.Views.{tree_of, data_of};
ghost use Rattle.sch_names.specs.ScopeView.{given_names};
ghost use Rattle.sch_sketch.specs.Sketch as words;
ghost use Rattle.sch_sketch.specs.SketchView.{sketch_of, sketches_of, ahead};
ghost use Rattle.sch_sketch.specs.Optional.{AreGiven};
ghost use Rattle.sch_form_bindings.specs.Bindings.{first};
ghost use Rattle.sch_form_bindings.specs.Loops as table;
ghost use Rattle.sch_form_bindings.specs.Loops.{IsNoStart};

use sch_names::{Keyword, Name};
use sch_read::Datum;
use sch_sketch::{
    Kind, Row, Sketch, alone, are_distinct, bad, choice, local, node, one, plain_call, text,
    texts_and, two, unspecified,
};
use sch_word::{List, Mem};
use std::alloc::Global;

/// A variable of a `do` with its init and what follows it: `(name init ..)`.
fn start_of(d: &Datum) -> Option<(&[u8], &Datum, &[Datum])>
    ensures { MatchOption result (IsNoStart (tree_of d.now)) (λ p. tree_of d.now
        ≡ list (offset (tree_of d.now)) (cons (atom (offset (first (tree_of d.now))) (symbol p.0.now)) (cons (tree_of p.1.now) (data_of p.2.now)))) }
{
    let items = d.items()?;
    let (v, others) = Datum::split(items)?;
    let (init, others) = Datum::split(others)?;
    let name = v.name()?;
    Some((name, init, others))
}

/// Whether this may follow an init: a step, or nothing.
fn is_step_end(items: &[Datum]) -> bool
    ensures { result ≡ table.is_step_end (data_of items.now) }
{
    let Some((_, more)) = Datum::split(items) else {
        return true;
    };
    match Datum::split(more) {
        None => true,
        Some(_) => false,
    }
}

/// The names of variables with their inits and steps, where the data are such.
fn step_names<'a>(alloc: Global, items: &'a [Datum]) -> Result<Option<List<Name<'a>>>, Mem>
    ensures { IfOk result (AreGiven (table.are_steps (data_of items.now)) (table.stepped (data_of items.now))) }
{
    let mut names = List::new(alloc);
    let mut left = items;
    while let Some((d, others)) = Datum::split(left) {
        let Some((x, _, end)) = start_of(d) else {
            return Ok(None);
        };
        if !is_step_end(end) {
            return Ok(None);
        }
        names.push(Some(x))?;
        left = others;
    }
    Ok(Some(names))
}

/// The names of the variables, where the data are such and no name stands twice.
fn loop_names<'a>(alloc: Global, items: &'a [Datum]) -> Result<Option<List<Name<'a>>>, Mem>
    ensures { IfOk result (AreGiven (table.are_rounds (data_of items.now)) (table.stepped (data_of items.now))) }
{
    let Some(names) = step_names(alloc, items)? else {
        return Ok(None);
    };
    if !are_distinct(alloc, names.as_slice())? {
        return Ok(None);
    }
    Ok(Some(names))
}

/// Adds the inits.
fn add_starts<'a>(parts: &mut List<Sketch<'a>>, items: &'a [Datum]) -> Result<(), Mem>
    ensures { OnOk result ((ks : words.Sketches) → ahead parts.new ks ≡ ahead parts.old (table.starts (data_of items.now) ks)) }
{
    let mut left = items;
    while let Some((d, others)) = Datum::split(left) {
        let Some((_, init, _)) = start_of(d) else {
            return Ok(());
        };
        parts.push(text(init))?;
        left = others;
    }
    Ok(())
}

/// The step of a variable with this many variables bound nearer, by what follows its init.
fn step<'a>(at: u32, nearer: usize, items: &'a [Datum]) -> Sketch<'a>
    ensures { sketch_of result ≡ table.step at nearer (data_of items.now) }
{
    match Datum::split(items) {
        None => local(at, nearer),
        Some((s, _)) => text(s),
    }
}

/// Adds the steps.
fn add_steps<'a>(at: u32, parts: &mut List<Sketch<'a>>, items: &'a [Datum]) -> Result<(), Mem>
    ensures { OnOk result ((ks : words.Sketches) → ahead parts.new ks ≡ ahead parts.old (table.steps at (data_of items.now) ks)) }
{
    let mut left = items;
    while let Some((d, others)) = Datum::split(left) {
        let Some((_, _, end)) = start_of(d) else {
            return Ok(());
        };
        parts.push(step(at, Datum::count(others), end))?;
        left = others;
    }
    Ok(())
}

/// The call of the procedure with the steps.
fn again<'a>(alloc: Global, at: u32, bindings: &'a [Datum]) -> Result<Sketch<'a>, Mem>
    ensures { IfOk result (λ k. sketch_of k ≡ table.again at (data_of bindings.now)) }
{
    let mut parts = List::new(alloc);
    parts.push(local(at, Datum::count(bindings)))?;
    add_steps(at, &mut parts, bindings)?;
    Ok(node(plain_call(alloc), at, parts))
}

/// What is done where the test is false.
fn next_round<'a>(
    alloc: Global,
    at: u32,
    bindings: &'a [Datum],
    body: &'a [Datum],
) -> Result<Sketch<'a>, Mem>
    ensures { IfOk result (λ k. sketch_of k ≡ table.next_round at (data_of bindings.now) (data_of body.now)) }
{
    let call = again(alloc, at, bindings)?;
    let Some(_) = Datum::split(body) else {
        return Ok(call);
    };
    let made = texts_and(alloc, Kind::Seq, at, body, call)?;
    Ok(made)
}

/// What is done where the test is true.
fn result<'a>(at: u32, items: &'a [Datum]) -> Sketch<'a>
    ensures { sketch_of result ≡ table.result at (data_of items.now) }
{
    match Datum::split(items) {
        None => unspecified(at),
        Some(_) => alone(Row::Form(Keyword::Begin), at, items),
    }
}

/// A `do`: its variables, its test with the results, and its body.
#[derive(Clone, Copy)]
struct Parts<'a> {
    bindings: &'a [Datum],
    test: &'a Datum,
    results: &'a [Datum],
    body: &'a [Datum],
}

/// The body of the procedure of a `do`: its test, its results, and the next round.
fn round<'a>(alloc: Global, at: u32, parts: &Parts<'a>) -> Result<Sketch<'a>, Mem>
    ensures { IfOk result (λ k. sketch_of k ≡ table.round at (data_of parts.now.bindings.now) (tree_of parts.now.test.now)
        (data_of parts.now.results.now) (data_of parts.now.body.now)) }
{
    let next = next_round(alloc, at, parts.bindings, parts.body)?;
    let made = choice(alloc, at, text(parts.test), result(at, parts.results), next)?;
    Ok(made)
}

/// The procedure.
fn rounds<'a>(
    alloc: Global,
    at: u32,
    names: List<Name<'a>>,
    parts: &Parts<'a>,
) -> Result<Sketch<'a>, Mem>
    requires { given_names names ≡ table.stepped (data_of parts.now.bindings.now) }
    ensures { IfOk result (λ k. sketch_of k ≡ table.rounds at (data_of parts.now.bindings.now) (tree_of parts.now.test.now)
        (data_of parts.now.results.now) (data_of parts.now.body.now)) }
{
    let inner = round(alloc, at, parts)?;
    let procedure = one(alloc, Kind::Lambda(names, false), at, inner)?;
    let mut own = List::new(alloc);
    own.push(None)?;
    let made = two(alloc, Kind::Letrec(own, true), at, procedure, local(at, 0))?;
    Ok(made)
}

/// One part, and the inits of the variables of a `do`.
fn then_starts<'a>(
    alloc: Global,
    first: Sketch<'a>,
    items: &'a [Datum],
) -> Result<List<Sketch<'a>>, Mem>
    ensures { IfOk result (λ parts. sketches_of parts
        ≡ words.and_sketch (sketch_of first.entry) (table.starts (data_of items.now) words.no_sketch)) }
{
    let mut parts = List::new(alloc);
    parts.push(first)?;
    add_starts(&mut parts, items)?;
    Ok(parts)
}

/// A `do` whose parts are these.
fn do_form<'a>(alloc: Global, at: u32, parts: &Parts<'a>) -> Result<Sketch<'a>, Mem>
    ensures { IfOk result (λ k. sketch_of k ≡ table.do_form at (data_of parts.now.bindings.now) (tree_of parts.now.test.now)
        (data_of parts.now.results.now) (data_of parts.now.body.now)) }
{
    let Some(names) = loop_names(alloc, parts.bindings)? else {
        return Ok(bad(at));
    };
    let variables = List::from_slice(alloc, names.as_slice())?;
    let operator = rounds(alloc, at, names, parts)?;
    let all = then_starts(alloc, operator, parts.bindings)?;
    Ok(node(Kind::Call(variables), at, all))
}

/// `(do ((v i s) ..) (a r ..) e ..)`.
pub fn row_do<'a>(alloc: Global, at: u32, items: &'a [Datum]) -> Result<Sketch<'a>, Mem>
    ensures { IfOk result (λ k. sketch_of k ≡ table.row_do at (data_of items.now)) }
{
    let Some((first, others)) = Datum::split(items) else {
        return Ok(bad(at));
    };
    let Some((second, body)) = Datum::split(others) else {
        return Ok(bad(at));
    };
    let Some(bindings) = first.items() else {
        return Ok(bad(at));
    };
    let Some(clause) = second.items() else {
        return Ok(bad(at));
    };
    let Some((test, results)) = Datum::split(clause) else {
        return Ok(bad(at));
    };
    let parts = Parts {
        bindings,
        test,
        results,
        body,
    };
    let made = do_form(alloc, at, &parts)?;
    Ok(made)
}
