//! Texts that are read form by form.

ghost use Rattle.std.specs.Prelude.{◌≡◌, [], true, false, IfOk, OnOk};
ghost use Rattle.sch_read.specs.Grammar.{Data};
ghost use Rattle.sch_read.specs.Views.{data_of};
ghost use Rattle.sch_names.specs.NamesView.{names_of, globals_of};
ghost use Rattle.sch_sketch.specs.declared.sketch.Position.TheVariants.{Value};
ghost use Rattle.sch_sketch.specs.DraftView.{draft_of, drafts_of};
ghost use Rattle.sch_sketch.specs.Sketch.{sketches, sequencing};
ghost use Rattle.sch_expansion.specs.Reads.{PartsRead, Reads};
ghost use Rattle.sch_link_tables.specs.Named.{firsts};
ghost use Rattle.sch_toplevel.specs.Assigned.{assigned_in_each};
ghost use Rattle.sch_toplevel.specs.Forms.{defined_by_each, form_places, sketches_of};
ghost use Rattle.sch_toplevel.specs.FormView.{places_at, sketch_at, sketches_at};
ghost use Rattle.sch_toplevel.specs.Texts.{IsRead};
ghost use Rattle.sch_toplevel.specs.Views.{given};

use crate::assigned::add_assigned_each;
use crate::forms::{Form, add_defined_by_each, add_forms};
use crate::given::add_names;
use crate::places::places_of;
use sch_expansion::Walk;
use sch_names::{Globals, Names};
use sch_read::Datum;
use sch_sketch::{Draft, Fault};
use sch_word::{List, Mem};
use std::alloc::Global;

/// A text that is read: the names of its own, the drafts of its forms, the number of bytes before each form, and its
/// least fault. With a fault the drafts say nothing.
#[derive(Drop)]
pub struct Text<'a> {
    pub own: Names,
    pub drafts: List<Draft<'a>>,
    pub places: List<u32>,
    pub fault: Option<Fault>,
}

/// The walk by which forms are read, and the drafts of those that were read.
#[derive(Drop)]
struct Reading<'a> {
    walk: Walk<'a>,
    drafts: List<Draft<'a>>,
}

/// The draft of a form, and the least fault so far.
fn read_form<'a>(
    alloc: Global,
    globals: &Globals,
    form: Form<'a>,
    walk: &mut Walk<'a>,
    fault: &mut Option<Fault>,
) -> Result<Draft<'a>, Mem>
    ensures { IfOk result (λ e. Reads (globals_of globals.now) 1 [] Value (sketch_at form.entry) fault.old fault.new (draft_of e)) }
{
    let k = form.sketch(alloc)?;
    walk.read(globals, k, fault)
}

/// Reads forms one after the other, and notes the least fault so far.
fn read_each<'a>(
    alloc: Global,
    globals: &Globals,
    forms: &[Form<'a>],
    reading: &mut Reading<'a>,
    fault: &mut Option<Fault>,
) -> Result<(), Mem>
    requires begins { reading.old.drafts ≡ [] }
    ensures { OnOk result (PartsRead (globals_of globals.now) sequencing true 1 [] Value
        (sketches (sketches_at forms.now)) fault.old fault.new (drafts_of reading.new.drafts)) }
{
    for form in forms {
        let e = read_form(alloc, globals, *form, &mut reading.walk, fault)?;
        reading.drafts.push(e)?;
    }
    Ok(())
}

/// The drafts of forms, and the least fault so far.
fn read_forms<'a>(
    alloc: Global,
    globals: &Globals,
    forms: &[Form<'a>],
    fault: &mut Option<Fault>,
) -> Result<List<Draft<'a>>, Mem>
    ensures { IfOk result (λ es. PartsRead (globals_of globals.now) sequencing true 1 [] Value
        (sketches (sketches_at forms.now)) fault.old fault.new (drafts_of es)) }
{
    let room = Vec::with_capacity(alloc, forms.len())?;
    let mut reading = Reading {
        walk: Walk::new(alloc),
        drafts: List::from_vec(room),
    };
    read_each(alloc, globals, forms, &mut reading, fault)?;
    let Reading { walk: _, drafts } = reading;
    Ok(drafts)
}

/// The globals of forms that see these names of a library, as if nothing were assigned.
fn defined_globals(alloc: Global, seen: &[&[u8]], forms: &[Form<'_>]) -> Result<Globals, Mem>
    ensures bound { IfOk result (λ g. names_of g.bound ≡ firsts (firsts [] (given seen.now)) (defined_by_each (sketches_at forms.now))) }
    ensures own { IfOk result (λ g. names_of g.own ≡ firsts [] (defined_by_each (sketches_at forms.now))) }
    ensures internal { IfOk result (λ g. g.internal ≡ false) }
{
    let mut globals = Globals {
        bound: Names::new(alloc),
        own: Names::new(alloc),
        internal: false,
    };
    add_names(alloc, seen, &mut globals.bound)?;
    add_defined_by_each(alloc, forms, &mut globals)?;
    Ok(globals)
}

/// Adds the globals that drafts assign, and says whether one of them is new.
fn adds_assigned(alloc: Global, drafts: &[Draft<'_>], own: &mut Names) -> Result<bool, Mem>
    ensures own { OnOk result (names_of own.new ≡ firsts (names_of own.old) (assigned_in_each (drafts_of drafts.now))) }
    ensures same { IfOk result (λ new. new ≡ false → names_of own.new ≡ names_of own.old) }
{
    let defined = own.len();
    add_assigned_each(alloc, drafts, own)?;
    Ok(own.len() != defined)
}

/// What is read of forms: the names of their text's own, their drafts, and their least fault.
#[derive(Drop)]
struct FormsRead<'a> {
    own: Names,
    drafts: List<Draft<'a>>,
    fault: Option<Fault>,
}

/// Reads the forms of a text that sees these names of a library. What they assign is known only when they are read; where that is
/// more than they define, they are read a second time.
fn read_all<'a>(alloc: Global, seen: &[&[u8]], forms: &[Form<'a>]) -> Result<FormsRead<'a>, Mem>
    ensures { IfOk result (λ r. (items : Data) → sketches_at forms.now ≡ sketches_of items
        → IsRead (given seen.now) items (names_of r.own) r.fault (drafts_of r.drafts)) }
{
    let mut globals = defined_globals(alloc, seen, forms)?;
    let mut fault = None;
    let mut drafts = read_forms(alloc, &globals, forms, &mut fault)?;
    if adds_assigned(alloc, drafts.as_slice(), &mut globals.own)? {
        fault = None;
        drafts = read_forms(alloc, &globals, forms, &mut fault)?;
    }
    let Globals {
        bound: _,
        own,
        internal: _,
    } = globals;
    Ok(FormsRead { own, drafts, fault })
}

/// The forms of a text's data.
fn listed_forms<'a>(alloc: Global, items: &'a [Datum]) -> Result<List<Form<'a>>, Mem>
    ensures sketches { IfOk result (λ forms. sketches_at forms ≡ sketches_of (data_of items.now)) }
    ensures places { IfOk result (λ forms. places_at forms ≡ form_places (data_of items.now)) }
{
    let room = Vec::with_capacity(alloc, items.len())?;
    let mut forms = List::from_vec(room);
    add_forms(alloc, items, &mut forms)?;
    Ok(forms)
}

/// Reads a text that sees these names of a library.
pub fn read_text<'a>(alloc: Global, seen: &[&[u8]], items: &'a [Datum]) -> Result<Text<'a>, Mem>
    ensures read { IfOk result (λ t. IsRead (given seen.now) (data_of items.now) (names_of t.own) t.fault (drafts_of t.drafts)) }
    ensures places { IfOk result (λ t. t.places ≡ form_places (data_of items.now)) }
{
    let forms = listed_forms(alloc, items)?;
    let places = places_of(alloc, forms.as_slice())?;
    let read = read_all(alloc, seen, forms.as_slice())?;
    Ok(Text {
        own: read.own,
        drafts: read.drafts,
        places,
        fault: read.fault,
    })
}
