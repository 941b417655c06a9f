//! The shapes of bindings.

ghost use Rattle.std.specs.Prelude.{◌≡◌, ◌++◌, MatchOption, IfOk, OnOk};
ghost use Rattle.sch_read.specs.Grammar.{none, cons, list, atom, symbol};
ghost use Rattle.sch_read.specs.Parts.{offset};
ghost use Rattle.sch_read.specs.Views.{tree_of, data_of};
ghost use Rattle.sch_names.specs.ScopeView.{given_names};
ghost use Rattle.sch_sketch.specs.Sketch as words;
ghost use Rattle.sch_sketch.specs.SketchView.{ahead};
ghost use Rattle.sch_sketch.specs.Optional.{AreGiven};
ghost use Rattle.sch_form_bindings.specs.Bindings as table;
ghost use Rattle.sch_form_bindings.specs.Bindings.{IsNoBinding, first};

use sch_names::Name;
use sch_read::Datum;
use sch_sketch::{Sketch, text};
use sch_word::{List, Mem};
use std::alloc::Global;

/// The name and the init of a binding `(name init)`.
pub(crate) fn binding_of(d: &Datum) -> Option<(&[u8], &Datum)>
    ensures { MatchOption result (IsNoBinding (tree_of d.now)) (λ p. tree_of d.now
        ≡ list (offset (tree_of d.now)) (cons (atom (offset (first (tree_of d.now))) (symbol p.0.now)) (cons (tree_of p.1.now) none))) }
{
    let items = d.items()?;
    let (v, others) = Datum::split(items)?;
    let (init, others) = Datum::split(others)?;
    let None = Datum::split(others) else {
        return None;
    };
    let name = v.name()?;
    Some((name, init))
}

/// The variables of bindings, where the data are bindings.
pub(crate) fn bound_names<'a>(
    alloc: Global,
    items: &'a [Datum],
) -> Result<Option<List<Name<'a>>>, Mem>
    ensures { IfOk result (AreGiven (table.are_bindings (data_of items.now)) (table.bound (data_of items.now))) }
{
    let mut names = List::new(alloc);
    for d in items {
        let Some((x, _)) = binding_of(d) else {
            return Ok(None);
        };
        names.push(Some(x))?;
    }
    Ok(Some(names))
}

/// Adds the inits of bindings.
pub(crate) fn add_inits<'a>(parts: &mut List<Sketch<'a>>, items: &'a [Datum]) -> Result<(), Mem>
    ensures { OnOk result ((ks : words.Sketches) → ahead parts.new ks ≡ ahead parts.old (table.inits (data_of items.now) ks)) }
{
    for d in items {
        let Some((_, init)) = binding_of(d) else {
            return Ok(());
        };
        parts.push(text(init))?;
    }
    Ok(())
}
