//! The top-level forms of a text.

ghost use Rattle.std.specs.Prelude.{◌≡◌, ◌+◌, ◌<◌, ◌++◌, map, IfOk, OnOk};
ghost use Rattle.sch_read.specs.Parts.{offset};
ghost use Rattle.sch_read.specs.Valid.{weight, weights};
ghost use Rattle.sch_read.specs.Views.{tree_of, data_of};
ghost use Rattle.sch_names.specs.Words.{keyword_of};
ghost use Rattle.sch_names.specs.NamesView.{names_of};
ghost use Rattle.sch_sketch.specs.SketchView.{sketch_of};
ghost use Rattle.sch_link_tables.specs.Named.{firsts};
ghost use Rattle.sch_toplevel.specs.Forms.{forms_of, forms_in, form_sketch, defined_by, defined_by_each};
ghost use Rattle.sch_toplevel.specs.FormView.{place_at, places_at, sketch_at, sketches_at, IsTopLevel};

use sch_form_bodies::row_define;
use sch_names::{Globals, Keyword, Names, keyword_of};
use sch_read::Datum;
use sch_sketch::{Kind, Sketch, text};
use sch_word::{List, Mem, ToVisit};
use std::alloc::Global;

/// A form at top level (R5RS 5.1).
#[derive(Clone, Copy, Drop)]
pub(crate) enum Form<'a> {
    /// `(define d ..)`: its place, and what follows the word.
    Definition(u32, &'a [Datum]),
    Expression(&'a Datum),
}

/// What a datum at top level is: a form, or `(begin d ..)`, whose parts are at top level too.
#[derive(Clone, Copy, Drop)]
pub(crate) enum TopLevel<'a> {
    Begin(&'a [Datum]),
    Form(Form<'a>),
}

/// What a datum at top level is, by the word at its head.
pub(crate) fn top_level<'a>(d: &'a Datum) -> TopLevel<'a>
    ensures { IsTopLevel (tree_of d.now) result }
{
    let expression = TopLevel::Form(Form::Expression(d));
    let Some(items) = d.items() else {
        return expression;
    };
    let Some((operator, others)) = Datum::split(items) else {
        return expression;
    };
    let Some(x) = operator.name() else {
        return expression;
    };
    match keyword_of(x) {
        Some(Keyword::Begin) => TopLevel::Begin(others),
        Some(Keyword::Define) => TopLevel::Form(Form::Definition(d.offset(), others)),
        _ => expression,
    }
}

impl<'a> Form<'a> {
    /// The number of bytes before the form.
    pub(crate) fn place(self) -> u32
        ensures { result ≡ place_at self.entry }
    {
        match self {
            Form::Definition(at, _) => at,
            Form::Expression(d) => d.offset(),
        }
    }

    /// What the form is read as.
    pub(crate) fn sketch(self, alloc: Global) -> Result<Sketch<'a>, Mem>
        ensures { IfOk result (λ k. sketch_of k ≡ sketch_at self.entry) }
    {
        match self {
            Form::Definition(at, items) => row_define(alloc, at, items),
            Form::Expression(d) => Ok(text(d)),
        }
    }
}

/// Adds the form that a datum at top level is; the parts of a `begin` are put before what is left to visit.
fn add_form<'a>(
    d: &'a Datum,
    left: &mut ToVisit<'a, Datum>,
    forms: &mut List<Form<'a>>,
) -> Result<(), Mem>
    ensures sketches { OnOk result (sketches_at forms.new ++ map form_sketch (forms_in (data_of left.new))
        ≡ sketches_at forms.old ++ map form_sketch (forms_of (tree_of d.now) ++ forms_in (data_of left.old))) }
    ensures places { OnOk result (places_at forms.new ++ map offset (forms_in (data_of left.new))
        ≡ places_at forms.old ++ map offset (forms_of (tree_of d.now) ++ forms_in (data_of left.old))) }
    ensures less { OnOk result (weights (data_of left.new) < weight (tree_of d.now) + weights (data_of left.old)) }
{
    match top_level(d) {
        TopLevel::Begin(items) => left.enter(items),
        TopLevel::Form(form) => forms.push(form),
    }
}

/// Adds the forms that data at top level are.
pub(crate) fn add_forms<'a>(
    alloc: Global,
    items: &'a [Datum],
    forms: &mut List<Form<'a>>,
) -> Result<(), Mem>
    ensures sketches { OnOk result (sketches_at forms.new ≡ sketches_at forms.old ++ map form_sketch (forms_in (data_of items.now))) }
    ensures places { OnOk result (places_at forms.new ≡ places_at forms.old ++ map offset (forms_in (data_of items.now))) }
{
    let mut left = ToVisit::new(alloc, items);
    'each: while let Some(d) = left.next() {
        add_form(d, &mut left, forms)?;
    }
    Ok(())
}

/// Adds the name that a form defines to the names that there are and to those of the text.
fn add_defined(alloc: Global, form: Form<'_>, globals: &mut Globals) -> Result<(), Mem>
    ensures bound { OnOk result (names_of globals.new.bound ≡ firsts (names_of globals.old.bound) (defined_by (sketch_at form.entry))) }
    ensures own { OnOk result (names_of globals.new.own ≡ firsts (names_of globals.old.own) (defined_by (sketch_at form.entry))) }
    ensures internal { OnOk result (globals.new.internal ≡ globals.old.internal) }
{
    match form.sketch(alloc)? {
        Sketch::Node(Kind::Define(v), _, _) => {
            globals.bound.insert(alloc, v)?;
            globals.own.insert(alloc, v)
        }
        _ => Ok(()),
    }
}

/// Adds the names that forms define to the names that there are and to those of the text.
pub(crate) fn add_defined_by_each(
    alloc: Global,
    forms: &[Form<'_>],
    globals: &mut Globals,
) -> Result<(), Mem>
    ensures bound { OnOk result (names_of globals.new.bound ≡ firsts (names_of globals.old.bound) (defined_by_each (sketches_at forms.now))) }
    ensures own { OnOk result (names_of globals.new.own ≡ firsts (names_of globals.old.own) (defined_by_each (sketches_at forms.now))) }
    ensures internal { OnOk result (globals.new.internal ≡ globals.old.internal) }
{
    for form in forms {
        add_defined(alloc, *form, globals)?;
    }
    Ok(())
}
