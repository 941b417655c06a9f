//! The globals and the symbols that drafts name.

ghost use Rattle.std.specs.Prelude.{◌≡◌, OnOk};
ghost use Rattle.sch_read.specs.Views.{tree_of};
ghost use Rattle.sch_names.specs.NamesView.{names_of, with_name};
ghost use Rattle.sch_sketch.specs.DraftView.{draft_of, drafts_of};
ghost use Rattle.sch_sketch.specs.Kinds.{IsCall, IsIf, IsLet, IsLetrec};
ghost use Rattle.sch_link_tables.specs.Listed.{IsListed};
ghost use Rattle.sch_link_tables.specs.Named.{firsts, global_of, symbols_at, symbols_of_datum};
ghost use Rattle.sch_link_tables.specs.Walked.{NamesDraft, NamesEach};

use crate::tables::{Table, Tables, write_global};
use sch_names::Names;
use sch_read::{Datum, data_in_order};
use sch_sketch::Draft;
use sch_word::Mem;
use std::alloc::Global;
use std::slice;

/// Adds the symbol that a datum is, if it is one.
fn name_node(alloc: Global, d: &Datum, symbols: &mut Table) -> Result<(), Mem>
    ensures names { OnOk result (names_of symbols.new.names ≡ firsts (names_of symbols.old.names) (symbols_at (tree_of d.now))) }
    ensures listed { OnOk result (IsListed symbols.old → IsListed symbols.new) }
{
    match d.name() {
        Some(x) => symbols.insert(alloc, x),
        None => Ok(()),
    }
}

/// Adds the symbols in a datum. The order in which it comes to them lies in memory, so levels take no part of the
/// machine's stack.
fn name_datum(alloc: Global, d: &Datum, symbols: &mut Table) -> Result<(), Mem>
    ensures names { OnOk result (names_of symbols.new.names ≡ firsts (names_of symbols.old.names) (symbols_of_datum (tree_of d.now))) }
    ensures listed { OnOk result (IsListed symbols.old → IsListed symbols.new) }
{
    let order = data_in_order(alloc, slice::from_ref(d))?;
    for node in order.as_slice() {
        name_node(alloc, node, symbols)?;
    }
    Ok(())
}

/// Adds a global.
fn name_global(alloc: Global, own: &Names, x: &[u8], tables: &mut Tables) -> Result<(), Mem>
    ensures globals { OnOk result (names_of tables.new.globals.names
        ≡ with_name (global_of (names_of own.now) x.now) (names_of tables.old.globals.names)) }
    ensures symbols { OnOk result (tables.new.symbols ≡ tables.old.symbols) }
    ensures listed { OnOk result (IsListed tables.old.globals → IsListed tables.new.globals) }
{
    write_global(own, x, &mut tables.key)?;
    tables.globals.insert(alloc, tables.key.as_slice())?;
    Ok(())
}

/// Adds the globals and the symbols that a draft names, in a text that has these globals of its own.
#[cycle(naming)]
pub fn name_draft(alloc: Global, own: &Names, e: &Draft<'_>, tables: &mut Tables) -> Result<(), Mem>
    ensures { OnOk result (NamesDraft (names_of own.now) (draft_of e.now) tables.old tables.new) }
{
    match e {
        Draft::Constant(_) => Ok(()),
        Draft::Symbol(x) => tables.symbols.insert(alloc, x),
        Draft::Literal(d) => name_datum(alloc, d, &mut tables.symbols),
        Draft::Local(_) => Ok(()),
        Draft::Global(x) => name_global(alloc, own, x, tables),
        Draft::SetLocal(_, e) => name_draft(alloc, own, e, tables),
        Draft::SetGlobal(x, e) => {
            name_global(alloc, own, x, tables)?;
            name_draft(alloc, own, e, tables)?;
            Ok(())
        }
        Draft::Define(x, e) => {
            name_global(alloc, own, x, tables)?;
            name_draft(alloc, own, e, tables)?;
            Ok(())
        }
        Draft::If(_, _, _) => name_if(alloc, own, e, tables),
        Draft::Seq(es) => name_each(alloc, own, es.as_slice(), tables),
        Draft::Let(_, _, _) => name_let(alloc, own, e, tables),
        Draft::Letrec(_, _, _, _) => name_letrec(alloc, own, e, tables),
        Draft::Lambda(_, _, e) => name_draft(alloc, own, e, tables),
        Draft::Call(_, _, _) => name_call(alloc, own, e, tables),
        Draft::Prim(_, es) => name_each(alloc, own, es.as_slice(), tables),
    }
}

/// The same for an If.
#[cycle(naming)]
fn name_if(alloc: Global, own: &Names, e: &Draft<'_>, tables: &mut Tables) -> Result<(), Mem>
    requires kind { IsIf (draft_of e.now) }
    ensures { OnOk result (NamesDraft (names_of own.now) (draft_of e.now) tables.old tables.new) }
{
    let Draft::If(test, yes, no) = e else {
        unreachable!();
    };
    name_draft(alloc, own, test, tables)?;
    name_draft(alloc, own, yes, tables)?;
    name_draft(alloc, own, no, tables)?;
    Ok(())
}

/// The same for a Let.
#[cycle(naming)]
fn name_let(alloc: Global, own: &Names, e: &Draft<'_>, tables: &mut Tables) -> Result<(), Mem>
    requires kind { IsLet (draft_of e.now) }
    ensures { OnOk result (NamesDraft (names_of own.now) (draft_of e.now) tables.old tables.new) }
{
    let Draft::Let(_, inits, body) = e else {
        unreachable!();
    };
    name_each(alloc, own, inits.as_slice(), tables)?;
    name_draft(alloc, own, body, tables)?;
    Ok(())
}

/// The same for a Letrec.
#[cycle(naming)]
fn name_letrec(alloc: Global, own: &Names, e: &Draft<'_>, tables: &mut Tables) -> Result<(), Mem>
    requires kind { IsLetrec (draft_of e.now) }
    ensures { OnOk result (NamesDraft (names_of own.now) (draft_of e.now) tables.old tables.new) }
{
    let Draft::Letrec(_, _, inits, body) = e else {
        unreachable!();
    };
    name_each(alloc, own, inits.as_slice(), tables)?;
    name_draft(alloc, own, body, tables)?;
    Ok(())
}

/// The same for a call.
#[cycle(naming)]
fn name_call(alloc: Global, own: &Names, e: &Draft<'_>, tables: &mut Tables) -> Result<(), Mem>
    requires kind { IsCall (draft_of e.now) }
    ensures { OnOk result (NamesDraft (names_of own.now) (draft_of e.now) tables.old tables.new) }
{
    let Draft::Call(_, operator, operands) = e else {
        unreachable!();
    };
    name_draft(alloc, own, operator, tables)?;
    name_each(alloc, own, operands.as_slice(), tables)?;
    Ok(())
}

/// Adds the globals and the symbols that drafts name.
#[cycle(naming)]
pub fn name_each(
    alloc: Global,
    own: &Names,
    es: &[Draft<'_>],
    tables: &mut Tables,
) -> Result<(), Mem>
    ensures { OnOk result (NamesEach (names_of own.now) (drafts_of es.now) tables.old tables.new) }
{
    for e in es {
        name_draft(alloc, own, e, tables)?;
    }
    Ok(())
}
