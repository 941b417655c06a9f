//! The items of a library's text, read one after the other.

ghost use Rattle.std.specs.Prelude.{◌≡◌, [], ◌∷◌, ◌++◌, map, true, false, IfOk, OnOk, None};
ghost use Rattle.sch_read.specs.Grammar.{none, cons};
ghost use Rattle.sch_read.specs.Parts.{offset};
ghost use Rattle.sch_read.specs.Views.{tree_of, data_of};
ghost use Rattle.sch_names.specs.NamesView.{names_of, globals_of};
ghost use Rattle.sch_names.specs.ScopeView.{one_name, given_names};
ghost use Rattle.sch_sketch.specs.declared.sketch.Position.TheVariants.{Value};
ghost use Rattle.sch_sketch.specs.DraftView.{draft_of};
ghost use Rattle.sch_sketch.specs.SketchView.{sketch_of};
ghost use Rattle.sch_expansion.specs.Reads.{Reads};
ghost use Rattle.sch_toplevel.specs.Items.{is_method, item_name, item_sketch, with_item, name_in, names_by, procedure_in, item_names, ItemsRead};

use crate::forms::{Form, TopLevel, top_level};
use sch_expansion::read;
use sch_form_bodies::row_define;
use sch_names::{Globals, Name, Names};
use sch_read::Datum;
use sch_sketch::{Draft, Fault, Kind, Row, Sketch, alone, bad};
use sch_word::{List, Mem};
use std::alloc::Global;

/// The items of a library that are read: the name of each, where it is well shaped, and its draft, and the
/// least fault. With a fault the drafts say nothing.
#[derive(Drop)]
pub struct Items<'a> {
    pub names: List<Name<'a>>,
    pub drafts: List<Draft<'a>>,
    pub fault: Option<Fault>,
}

/// Whether these data begin with a name and its formals, and no name alone.
fn is_method(items: &[Datum]) -> bool
    ensures { result ≡ is_method (data_of items.now) }
{
    let Some((h, _)) = Datum::split(items) else {
        return false;
    };
    match h.atom() {
        Some(_) => false,
        None => true,
    }
}

/// The name that an item defines, if it is well shaped.
fn item_name<'a>(k: &Sketch<'a>, items: &[Datum]) -> Name<'a>
    ensures { one_name result ≡ item_name (data_of items.now) (sketch_of k.now) }
{
    match k {
        Sketch::Node(Kind::Define(v), _, _) if is_method(items) => Some(*v),
        _ => None,
    }
}

/// The procedure that an item defines, behind those that define these names.
fn item_sketch<'a>(at: u32, items: &'a [Datum], k: Sketch<'a>, before: &Names) -> Sketch<'a>
    ensures { sketch_of result ≡ item_sketch (names_of before.now) at (data_of items.now) (sketch_of k.entry) }
{
    match k {
        Sketch::Node(Kind::Define(v), _, _) => {
            if is_method(items) && !before.contains(v) {
                return alone(Row::Method, at, items);
            }
            bad(at)
        }
        Sketch::Wrong(f) => Sketch::Wrong(f),
        _ => bad(at),
    }
}

/// The name and the procedure that an item defines, behind those that define these names.
fn item_of<'a>(alloc: Global, d: &'a Datum, before: &Names) -> Result<(Name<'a>, Sketch<'a>), Mem>
    ensures name { IfOk result (λ item. one_name item.0 ≡ name_in (tree_of d.now)) }
    ensures procedure { IfOk result (λ item. sketch_of item.1 ≡ procedure_in (names_of before.now) (tree_of d.now)) }
{
    match top_level(d) {
        TopLevel::Form(Form::Definition(at, items)) => {
            let definition = row_define(alloc, at, items)?;
            let name = item_name(&definition, items);
            Ok((name, item_sketch(at, items, definition, before)))
        }
        _ => Ok((None, bad(d.offset()))),
    }
}

/// Reads one item, behind those whose names are bound.
fn read_item<'a>(
    alloc: Global,
    globals: &mut Globals,
    d: &'a Datum,
    names: &mut List<Name<'a>>,
    fault: &mut Option<Fault>,
) -> Result<Draft<'a>, Mem>
    ensures bound { OnOk result (names_of globals.new.bound ≡ names_by (names_of globals.old.bound) (tree_of d.now)) }
    ensures own { OnOk result (names_of globals.new.own ≡ names_of globals.old.own) }
    ensures internal { OnOk result (globals.new.internal ≡ globals.old.internal) }
    ensures name { OnOk result (given_names names.new ≡ given_names names.old ++ name_in (tree_of d.now) ∷ []) }
    ensures reads { IfOk result (λ e. Reads (globals_of globals.new) 1 [] Value
        (procedure_in (names_of globals.old.bound) (tree_of d.now)) fault.old fault.new (draft_of e)) }
{
    let (v, procedure) = item_of(alloc, d, &globals.bound)?;
    if let Some(x) = v {
        globals.bound.insert(alloc, x)?;
    }
    names.push(v)?;
    let e = read(alloc, globals, procedure, fault)?;
    Ok(e)
}

/// Reads the items of a library's text.
pub fn read_items<'a>(alloc: Global, items: &'a [Datum]) -> Result<Items<'a>, Mem>
    ensures names { IfOk result (λ t. given_names t.names ≡ item_names (data_of items.now)) }
    ensures reads { IfOk result (λ t. ItemsRead [] (data_of items.now) None t.fault (map draft_of t.drafts)) }
{
    let mut globals = Globals {
        bound: Names::new(alloc),
        own: Names::new(alloc),
        internal: true,
    };
    let mut names = List::new(alloc);
    let mut drafts = List::new(alloc);
    let mut fault = None;
    for d in items {
        let e = read_item(alloc, &mut globals, d, &mut names, &mut fault)?;
        drafts.push(e)?;
    }
    Ok(Items {
        names,
        drafts,
        fault,
    })
}
