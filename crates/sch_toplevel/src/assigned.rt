//! The globals that drafts assign.

ghost use Rattle.std.specs.Prelude.{◌≡◌, OnOk};
ghost use Rattle.sch_names.specs.NamesView.{names_of};
ghost use Rattle.sch_sketch.specs.DraftView.{draft_of, drafts_of};
ghost use Rattle.sch_link_tables.specs.Named.{firsts};
ghost use Rattle.sch_toplevel.specs.Assigned.{assigned_in, assigned_in_each};

use sch_names::Names;
use sch_sketch::Draft;
use sch_word::Mem;
use std::alloc::Global;

/// Adds the globals that a draft assigns.
#[cycle(assigning)]
fn add_assigned(alloc: Global, e: &Draft<'_>, names: &mut Names) -> Result<(), Mem>
    ensures { OnOk result (names_of names.new ≡ firsts (names_of names.old) (assigned_in (draft_of e.now))) }
{
    match e {
        Draft::Constant(_) => Ok(()),
        Draft::Symbol(_) => Ok(()),
        Draft::Literal(_) => Ok(()),
        Draft::Local(_) => Ok(()),
        Draft::Global(_) => Ok(()),
        Draft::SetLocal(_, e) => add_assigned(alloc, e, names),
        Draft::SetGlobal(x, e) => {
            names.insert(alloc, x)?;
            add_assigned(alloc, e, names)?;
            Ok(())
        }
        Draft::Define(_, e) => add_assigned(alloc, e, names),
        Draft::If(a, b, c) => {
            add_assigned(alloc, a, names)?;
            add_assigned(alloc, b, names)?;
            add_assigned(alloc, c, names)?;
            Ok(())
        }
        Draft::Seq(es) => add_assigned_each(alloc, es.as_slice(), names),
        Draft::Let(_, es, e) => {
            add_assigned_each(alloc, es.as_slice(), names)?;
            add_assigned(alloc, e, names)?;
            Ok(())
        }
        Draft::Letrec(_, _, es, e) => {
            add_assigned_each(alloc, es.as_slice(), names)?;
            add_assigned(alloc, e, names)?;
            Ok(())
        }
        Draft::Lambda(_, _, e) => add_assigned(alloc, e, names),
        Draft::Call(_, f, es) => {
            add_assigned(alloc, f, names)?;
            add_assigned_each(alloc, es.as_slice(), names)?;
            Ok(())
        }
        Draft::Prim(_, es) => add_assigned_each(alloc, es.as_slice(), names),
    }
}

/// Adds the globals that drafts assign.
#[cycle(assigning)]
pub(crate) fn add_assigned_each(
    alloc: Global,
    es: &[Draft<'_>],
    names: &mut Names,
) -> Result<(), Mem>
    ensures { OnOk result (names_of names.new ≡ firsts (names_of names.old) (assigned_in_each (drafts_of es.now))) }
{
    for e in es {
        add_assigned(alloc, e, names)?;
    }
    Ok(())
}
