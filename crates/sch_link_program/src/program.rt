//! The parts of the program of a library's definitions and a text's forms.

ghost use Rattle.std.specs.Prelude.{◌≡◌, ◌<◌, ◌^◌, ◌+◌, ◌++◌, [], length, true, IfOk, IsTrue, OnOk};
ghost use Rattle.sch_lang.specs.Valid.{trees_in_range};
ghost use Rattle.sch_names.specs.NamesView.{names_of};
ghost use Rattle.sch_sketch.specs.DraftMeasures.{size_each};
ghost use Rattle.sch_sketch.specs.DraftView.{drafts_of};
ghost use Rattle.sch_link_tables.specs.Listed.{AreListed, IsListed};
ghost use Rattle.sch_link_tables.specs.Named.{firsts, globals_in_each, symbols_in_each};
ghost use Rattle.sch_link_tables.specs.Programs as words;
ghost use Rattle.sch_link_tables.specs.Programs.{globals_of_each, symbols_of_each, program_of};
ghost use Rattle.sch_link_tables.specs.Room.{have_near_variables};
ghost use Rattle.sch_link_program.specs.Definitions.{definitions_of, kept_definitions};
ghost use Rattle.sch_link_program.specs.PartsView.{parts_of};
ghost use Rattle.sch_link_program.specs.Size.{size_of_definitions, have_few_formals, have_near_bodies};

use crate::definition::{Definition, KeptDefinition};
use crate::keeping::{Asked, held, kept};
use crate::numbered_program::{Numbered, number_program};
use crate::parts::Parts;
use crate::starting::starts;
use sch_link_tables::{Table, Tables, name_draft, name_each};
use sch_names::Names;
use sch_sketch::Draft;
use sch_word::{Bytes, List, Mem};
use std::alloc::Global;

/// Adds the globals and the symbols that definitions name.
fn name_definitions(
    alloc: Global,
    definitions: &[KeptDefinition<'_, '_>],
    tables: &mut Tables,
) -> Result<(), Mem>
    ensures globals { OnOk result (names_of tables.new.globals.names
        ≡ firsts (names_of tables.old.globals.names) (globals_of_each (kept_definitions definitions.now))) }
    ensures symbols { OnOk result (names_of tables.new.symbols.names
        ≡ firsts (names_of tables.old.symbols.names) (symbols_of_each (kept_definitions definitions.now))) }
    ensures listed { OnOk result (AreListed tables.old → AreListed tables.new) }
{
    let none = Names::new(alloc);
    for d in definitions {
        name_draft(alloc, &none, d.body, tables)?;
    }
    Ok(())
}

/// Adds names that are listed.
fn name_listed(alloc: Global, names: &[Bytes], table: &mut Table) -> Result<(), Mem>
    ensures names { OnOk result (names_of table.new.names ≡ firsts (names_of table.old.names) names.now) }
    ensures listed { OnOk result (IsListed table.old → IsListed table.new) }
{
    for x in names {
        table.insert(alloc, x.as_slice())?;
    }
    Ok(())
}

/// Adds what kept definitions name, and then the globals and the symbols of other tables, in their order.
fn name_program(
    alloc: Global,
    definitions: &[KeptDefinition<'_, '_>],
    more: &Tables,
    tables: &mut Tables,
) -> Result<(), Mem>
    ensures globals { OnOk result (names_of tables.new.globals.names
        ≡ firsts (firsts (names_of tables.old.globals.names) (globals_of_each (kept_definitions definitions.now))) more.now.globals.list) }
    ensures symbols { OnOk result (names_of tables.new.symbols.names
        ≡ firsts (firsts (names_of tables.old.symbols.names) (symbols_of_each (kept_definitions definitions.now))) more.now.symbols.list) }
    ensures listed { OnOk result (AreListed tables.old → AreListed tables.new) }
{
    name_definitions(alloc, definitions, tables)?;
    name_listed(alloc, more.globals.list.as_slice(), &mut tables.globals)?;
    name_listed(alloc, more.symbols.list.as_slice(), &mut tables.symbols)?;
    Ok(())
}

/// The tables of a program: what kept definitions name, and then what a text names.
fn program_tables(
    alloc: Global,
    definitions: &[KeptDefinition<'_, '_>],
    named: &Tables,
) -> Result<Tables, Mem>
    ensures globals { IfOk result (λ t. names_of t.globals.names
        ≡ firsts (firsts [] (globals_of_each (kept_definitions definitions.now))) named.now.globals.list) }
    ensures symbols { IfOk result (λ t. names_of t.symbols.names
        ≡ firsts (firsts [] (symbols_of_each (kept_definitions definitions.now))) named.now.symbols.list) }
    ensures listed { IfOk result (λ t. AreListed t) }
{
    let mut tables = Tables::new(alloc);
    name_program(alloc, definitions, named, &mut tables)?;
    Ok(tables)
}

/// The tables of what the forms of a text name.
fn form_tables(alloc: Global, own: &Names, forms: &[Draft<'_>]) -> Result<Tables, Mem>
    ensures globals { IfOk result (λ t. names_of t.globals.names ≡ firsts [] (globals_in_each (names_of own.now) (drafts_of forms.now))) }
    ensures symbols { IfOk result (λ t. names_of t.symbols.names ≡ firsts [] (symbols_in_each (drafts_of forms.now))) }
    ensures listed { IfOk result (λ t. AreListed t) }
{
    let mut tables = Tables::new(alloc);
    name_each(alloc, own, forms, &mut tables)?;
    Ok(tables)
}

/// The symbols, in the order of their numbers.
fn symbol_list(tables: Tables) -> List<Bytes>
    ensures { result ≡ tables.symbols.list }
{
    let Tables { symbols, .. } = tables;
    let Table { list, .. } = symbols;
    list
}

/// The globals that a text has, those of them that hold a procedure of the library at the start, and all globals and
/// symbols that the text names.
#[derive(Clone, Copy, Drop)]
struct Own<'a> {
    names: &'a Names,
    held: &'a Names,
    named: &'a Tables,
}

/// The parts of the program of kept definitions and of the forms of a text.
fn program_with(
    alloc: Global,
    definitions: &[KeptDefinition<'_, '_>],
    own: &Own<'_>,
    forms: &[Draft<'_>],
) -> Result<Parts, Mem>
    requires formals { have_few_formals (kept_definitions definitions.now) ≡ true }
    requires few { length definitions.now < 2 ^ 32 }
    requires small { size_of_definitions (kept_definitions definitions.now) + size_each (drafts_of forms.now) < 2 ^ 32 }
    requires few_symbols { length (symbols_of_each (kept_definitions definitions.now) ++ symbols_in_each (drafts_of forms.now)) < 2 ^ 32 }
    requires bodies { have_near_bodies (kept_definitions definitions.now) ≡ true }
    requires variables { have_near_variables (drafts_of forms.now) ≡ true }
    requires globals { own.now.named.now.globals.list ≡ firsts [] (globals_in_each (names_of own.now.names.now) (drafts_of forms.now)) }
    requires symbols { own.now.named.now.symbols.list ≡ firsts [] (symbols_in_each (drafts_of forms.now)) }
    ensures made { IfOk result (λ p. parts_of p
        ≡ words.program_with (kept_definitions definitions.now) (names_of own.now.names.now) (names_of own.now.held.now) (drafts_of forms.now)) }
    ensures ranged { IfOk result (λ p. IsTrue (trees_in_range (parts_of p))) }
{
    let tables = program_tables(alloc, definitions, own.named)?;
    let globals = starts(alloc, definitions, own.held, tables.globals.list.as_slice())?;
    let numbered = number_program(alloc, &tables, definitions, own.names, forms)?;
    let Numbered {
        library,
        forms,
        sites,
        literals,
    } = numbered;
    Ok(Parts {
        symbols: symbol_list(tables),
        literals,
        globals,
        library,
        forms,
        sites,
    })
}

/// The parts of the program of a text's forms and of those definitions that it needs, by its own globals and by what it names.
fn program_of_needed(
    alloc: Global,
    definitions: &[Definition<'_>],
    own: &Names,
    named: &Tables,
    forms: &[Draft<'_>],
) -> Result<Parts, Mem>
    requires formals { have_few_formals (definitions_of definitions.now) ≡ true }
    requires few { length definitions.now < 2 ^ 32 }
    requires small { size_of_definitions (definitions_of definitions.now) + size_each (drafts_of forms.now) < 2 ^ 32 }
    requires few_symbols { length (symbols_of_each (definitions_of definitions.now) ++ symbols_in_each (drafts_of forms.now)) < 2 ^ 32 }
    requires bodies { have_near_bodies (definitions_of definitions.now) ≡ true }
    requires variables { have_near_variables (drafts_of forms.now) ≡ true }
    requires globals { names_of named.now.globals.names ≡ firsts [] (globals_in_each (names_of own.now) (drafts_of forms.now)) }
    requires symbols { names_of named.now.symbols.names ≡ firsts [] (symbols_in_each (drafts_of forms.now)) }
    requires listed { AreListed named.now }
    ensures made { IfOk result (λ p. parts_of p ≡ program_of (definitions_of definitions.now) (names_of own.now) (drafts_of forms.now)) }
    ensures ranged { IfOk result (λ p. IsTrue (trees_in_range (parts_of p))) }
{
    let held = held(alloc, definitions, own)?;
    let asked = Asked {
        named: &named.globals.names,
        held: &held,
    };
    let kept = kept(alloc, definitions, &asked)?;
    let own = Own {
        names: own,
        held: &held,
        named,
    };
    program_with(alloc, kept.as_slice(), &own, forms)
}

/// The parts of the program of a library and of the forms of a text with these globals of its own: the definitions
/// that it needs are kept. The constants in its trees are in range by their types.
pub fn assemble(
    alloc: Global,
    definitions: &[Definition<'_>],
    own: &Names,
    forms: &[Draft<'_>],
) -> Result<Parts, Mem>
    requires formals { have_few_formals (definitions_of definitions.now) ≡ true }
    requires few { length definitions.now < 2 ^ 32 }
    requires small { size_of_definitions (definitions_of definitions.now) + size_each (drafts_of forms.now) < 2 ^ 32 }
    requires few_symbols { length (symbols_of_each (definitions_of definitions.now) ++ symbols_in_each (drafts_of forms.now)) < 2 ^ 32 }
    requires bodies { have_near_bodies (definitions_of definitions.now) ≡ true }
    requires variables { have_near_variables (drafts_of forms.now) ≡ true }
    ensures made { IfOk result (λ p. parts_of p ≡ program_of (definitions_of definitions.now) (names_of own.now) (drafts_of forms.now)) }
    ensures ranged { IfOk result (λ p. IsTrue (trees_in_range (parts_of p))) }
{
    let named = form_tables(alloc, own, forms)?;
    program_of_needed(alloc, definitions, own, &named, forms)
}
