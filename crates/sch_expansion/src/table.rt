//! The table of forms.

ghost use Rattle.std.specs.Prelude.{◌≡◌, IfOk, OnOk};
ghost use Rattle.sch_read.specs.Grammar.{none, cons};
ghost use Rattle.sch_read.specs.Grammar as grammar;
ghost use Rattle.sch_read.specs.Parts.{IsNoSymbol, IsNoProperList};
ghost use Rattle.sch_read.specs.Views.{tree_of, data_of};
ghost use Rattle.sch_names.specs.HeadView.{head_view};
ghost use Rattle.sch_names.specs.NamesView.{globals_of};
ghost use Rattle.sch_names.specs.Scope as scopes;
ghost use Rattle.sch_names.specs.Scope.{find, is_among};
ghost use Rattle.sch_names.specs.Words.{keyword_of};
ghost use Rattle.sch_sketch.specs.SketchView.{sketch_of};
ghost use Rattle.sch_expansion.specs.Outline as table;

use sch_form_bindings::{row_do, row_let, row_let_star, row_letrec, row_nest};
use sch_form_bodies::{row_body, row_lambda, row_method, row_set};
use sch_form_choices::{
    combination, row_and, row_begin, row_case, row_cases, row_chain, row_clauses, row_cond, row_if,
    row_join, row_or, row_quote, row_tests,
};
use sch_names::{Globals, Head, Keyword, Scope, head_of, keyword_of};
use sch_read::Datum;
use sch_sketch::{
    Leaf, Position, Row, Sketch, Wrong, alone, and_texts, bad, local, plain_call, quoted, text,
};
use sch_word::Mem;
use std::alloc::Global;

/// What a name stands for.
fn name<'a>(globals: &Globals, scope: &Scope, at: u32, x: &'a [u8]) -> Sketch<'a>
    ensures { sketch_of result
        ≡ table.outline_name (find scope.now x.now) (keyword_of x.now) (is_among x.now (globals_of globals.now).bound) at x.now }
{
    if let Some(k) = scope.find(x) {
        return local(at, k);
    }
    if let Some(_) = keyword_of(x) {
        return bad(at);
    }
    if globals.bound.contains(x) {
        Sketch::Leaf(at, Leaf::Global(x))
    } else {
        Sketch::Wrong(Wrong::Unbound(at, x))
    }
}

/// A call.
fn call<'a>(
    alloc: Global,
    at: u32,
    operator: &'a Datum,
    items: &'a [Datum],
) -> Result<Sketch<'a>, Mem>
    ensures { IfOk result (λ k. sketch_of k ≡ table.call_of at (tree_of operator.now) (data_of items.now)) }
{
    let made = and_texts(alloc, plain_call(alloc), at, text(operator), items)?;
    Ok(made)
}

/// What a combination stands for, by its head.
fn combined<'a>(
    alloc: Global,
    head: Head,
    at: u32,
    operator: &'a Datum,
    items: &'a [Datum],
) -> Result<Sketch<'a>, Mem>
    ensures { IfOk result (λ k. sketch_of k ≡ table.outline_head (head_view head) at (tree_of operator.now) (data_of items.now)) }
{
    match head {
        Head::Form(k) => Ok(alone(Row::Form(k), at, items)),
        Head::Operating(o) => {
            let made = combination(alloc, o, at, items)?;
            Ok(made)
        }
        Head::Calling => {
            let made = call(alloc, at, operator, items)?;
            Ok(made)
        }
    }
}

/// What a datum stands for that is neither a list without a dot nor a name.
fn other<'a>(d: &'a Datum) -> Sketch<'a>
    requires no_list { IsNoProperList (tree_of d.now) }
    requires no_name { IsNoSymbol (tree_of d.now) }
    ensures { (globals : scopes.Globals) (s : scopes.Scope) → sketch_of result ≡ table.outline_datum globals s (tree_of d.now) }
{
    match d.atom() {
        Some(_) => quoted(d.offset(), d),
        None => bad(d.offset()),
    }
}

/// What stands for a list without a dot.
fn list<'a>(
    alloc: Global,
    globals: &Globals,
    scope: &Scope,
    at: u32,
    items: &'a [Datum],
) -> Result<Sketch<'a>, Mem>
    ensures { IfOk result (λ k. sketch_of k ≡ table.outline_datum (globals_of globals.now) scope.now (grammar.list at (data_of items.now))) }
{
    let Some((operator, others)) = Datum::split(items) else {
        return Ok(bad(at));
    };
    let Some(x) = operator.name() else {
        let made = call(alloc, at, operator, others)?;
        return Ok(made);
    };
    let head = head_of(globals, scope, x, Datum::count(others));
    let made = combined(alloc, head, at, operator, others)?;
    Ok(made)
}

/// What stands for a datum.
pub fn outline_datum<'a>(
    alloc: Global,
    globals: &Globals,
    scope: &Scope,
    d: &'a Datum,
) -> Result<Sketch<'a>, Mem>
    ensures { IfOk result (λ k. sketch_of k ≡ table.outline_datum (globals_of globals.now) scope.now (tree_of d.now)) }
{
    if let Some(items) = d.items() {
        let made = list(alloc, globals, scope, d.offset(), items)?;
        return Ok(made);
    }
    if let Some(x) = d.name() {
        return Ok(name(globals, scope, d.offset(), x));
    }
    Ok(other(d))
}

/// A form of a keyword: its place, and what follows the keyword.
#[derive(Clone, Copy, Drop)]
struct Form<'a> {
    keyword: Keyword,
    at: u32,
    items: &'a [Datum],
}

/// What stands for a form of a keyword.
fn outline_form<'a>(
    alloc: Global,
    globals: &Globals,
    scope: &mut Scope,
    position: Position,
    form: Form<'a>,
) -> Result<Sketch<'a>, Mem>
    ensures made { IfOk result (λ e. sketch_of e
        ≡ table.row_form (globals_of globals.now) form.entry.keyword scope.old position form.entry.at (data_of form.entry.items.now)) }
    ensures scope { OnOk result (scope.new ≡ scope.old) }
{
    let Form { keyword, at, items } = form;
    match keyword {
        Keyword::Quote => Ok(row_quote(at, items)),
        Keyword::If => row_if(alloc, at, items),
        Keyword::Begin => row_begin(alloc, at, items),
        Keyword::And => row_and(alloc, at, items),
        Keyword::Or => row_or(alloc, position, at, items),
        Keyword::Cond => Ok(row_cond(scope, at, items)),
        Keyword::Case => row_case(alloc, scope, at, items),
        Keyword::Let => row_let(alloc, scope, at, items),
        Keyword::LetStar => row_let_star(alloc, scope, at, items),
        Keyword::Letrec => row_letrec(alloc, scope, at, items),
        Keyword::Lambda => row_lambda(alloc, scope, at, items),
        Keyword::Do => row_do(alloc, at, items),
        Keyword::Set => row_set(alloc, globals, scope, at, items),
        _ => Ok(bad(at)),
    }
}

/// The rest of a form, with the row that reads it: its place, and the data that are left of it. What the second
/// data are, the row says.
#[derive(Clone, Copy, Drop)]
pub struct Rest<'a> {
    pub row: Row,
    pub at: u32,
    pub first: &'a [Datum],
    pub second: &'a [Datum],
}

/// What stands for the rest of a form.
pub fn outline<'a>(
    alloc: Global,
    globals: &Globals,
    scope: &mut Scope,
    position: Position,
    rest: Rest<'a>,
) -> Result<Sketch<'a>, Mem>
    ensures made { IfOk result (λ k. sketch_of k
        ≡ table.outline (globals_of globals.now) scope.old position rest.entry.row rest.entry.at (data_of rest.entry.first.now) (data_of rest.entry.second.now)) }
    ensures scope { OnOk result (scope.new ≡ scope.old) }
{
    let Rest {
        row,
        at,
        first,
        second,
    } = rest;
    match row {
        Row::Form(keyword) => {
            let form = Form {
                keyword,
                at,
                items: first,
            };
            outline_form(alloc, globals, scope, position, form)
        }
        Row::Body => row_body(alloc, scope, at, first),
        Row::Method => row_method(alloc, scope, at, first),
        Row::Nest(outer) => row_nest(alloc, outer, at, first, second),
        Row::Clauses => row_clauses(alloc, scope, position, at, first),
        Row::Cases => row_cases(alloc, at, first),
        Row::Tests => row_tests(alloc, at, first),
        Row::Chain(p) => row_chain(alloc, p, at, first),
        Row::Join(p, more, far) => row_join(alloc, p, more, far, at),
    }
}
