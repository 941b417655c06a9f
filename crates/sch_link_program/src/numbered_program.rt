//! The trees of a program, with the numbers that its tables give.

ghost use Rattle.std.specs.Prelude.{◌≡◌, ◌≤◌, ◌<◌, ◌^◌, ◌+◌, ◌++◌, [], length, map, true, None, IfOk, OnOk};
ghost use Rattle.sch_word.specs.trees.Shape.{max_operands};
ghost use Rattle.sch_word.specs.values.LiteralView.{literal};
ghost use Rattle.sch_lang.specs.View.{expression, expressions_of, lambdas_of};
ghost use Rattle.sch_names.specs.NamesView.{names_of};
ghost use Rattle.sch_sketch.specs.DraftMeasures.{size, size_each};
ghost use Rattle.sch_sketch.specs.DraftView.{draft_of, drafts_of};
ghost use Rattle.sch_link_tables.specs.Constants.{HasConstants, HaveConstants};
ghost use Rattle.sch_link_tables.specs.Numbered.{numbered, numbered_each};
ghost use Rattle.sch_link_tables.specs.Programs as words;
ghost use Rattle.sch_link_tables.specs.Programs.{quotes_of_each, widths_of_definitions};
ghost use Rattle.sch_link_tables.specs.Quoted.{literal_of, quotes_in, quotes_in_each};
ghost use Rattle.sch_link_tables.specs.Room.{HasRoom, has_near_variables, have_near_variables};
ghost use Rattle.sch_link_tables.specs.Sites.{widths, widths_of_each};
ghost use Rattle.sch_link_program.specs.Definitions.{kept_definitions};
ghost use Rattle.sch_link_program.specs.Ranged.{BodiesHaveConstants};
ghost use Rattle.sch_link_program.specs.Size.{size_of_definitions, have_few_formals, have_near_bodies};

use crate::definition::KeptDefinition;
use sch_lang::{Exp, Lambda};
use sch_link_drafts::{Numbers, number, number_each};
use sch_link_tables::{Output, Tables};
use sch_names::Names;
use sch_sketch::Draft;
use sch_word::{List, Lit, Mem};
use std::alloc::Global;

/// The tree of the body of a definition. No name in it is one of the text's own.
fn number_body(
    alloc: Global,
    tables: &Tables,
    body: &Draft<'_>,
    out: &mut Output,
) -> Result<Exp, Mem>
    requires globals { length (names_of tables.now.globals.names) < 2 ^ 32 }
    requires symbols { length (names_of tables.now.symbols.names) < 2 ^ 32 }
    requires room { HasRoom out.old (size (draft_of body.now)) }
    requires variables { has_near_variables (draft_of body.now) ≡ true }
    ensures made { IfOk result (λ q. expression q
        ≡ numbered [] (names_of tables.now.globals.names) (names_of tables.now.symbols.names)
        None (draft_of body.now) (length out.old.sites) (length out.old.literals)) }
    ensures sites { OnOk result (out.new.sites ≡ out.old.sites ++ widths (draft_of body.now)) }
    ensures literals { OnOk result (map literal out.new.literals
        ≡ map literal out.old.literals ++ map (literal_of (names_of tables.now.symbols.names)) (quotes_in (draft_of body.now))) }
    ensures constants { OnOk result (HasConstants (draft_of body.now)) }
{
    let none = Names::new(alloc);
    let numbers = Numbers {
        own: &none,
        globals: &tables.globals.names,
        symbols: &tables.symbols.names,
    };
    number(alloc, &numbers, None, body, out)
}

/// The procedure of a definition.
fn number_definition(
    alloc: Global,
    tables: &Tables,
    d: &KeptDefinition<'_, '_>,
    out: &mut Output,
) -> Result<Lambda, Mem>
    requires formals { d.now.formals ≤ max_operands }
    requires globals { length (names_of tables.now.globals.names) < 2 ^ 32 }
    requires symbols { length (names_of tables.now.symbols.names) < 2 ^ 32 }
    requires room { HasRoom out.old (size (draft_of d.now.body.now)) }
    requires variables { has_near_variables (draft_of d.now.body.now) ≡ true }
    ensures made { IfOk result (λ l. expression l.body
        ≡ numbered [] (names_of tables.now.globals.names) (names_of tables.now.symbols.names)
        None (draft_of d.now.body.now) (length out.old.sites) (length out.old.literals)) }
    ensures head { IfOk result (λ l. (l.name ≡ d.now.name.now) × (l.formals ≡ d.now.formals) × (l.rest ≡ d.now.rest)) }
    ensures sites { OnOk result (out.new.sites ≡ out.old.sites ++ widths (draft_of d.now.body.now)) }
    ensures literals { OnOk result (map literal out.new.literals
        ≡ map literal out.old.literals ++ map (literal_of (names_of tables.now.symbols.names)) (quotes_in (draft_of d.now.body.now))) }
    ensures constants { OnOk result (HasConstants (draft_of d.now.body.now)) }
{
    let name = List::from_slice(alloc, d.name)?;
    let body = number_body(alloc, tables, d.body, out)?;
    Ok(Lambda {
        name,
        formals: d.formals as u32,
        rest: d.rest,
        body,
    })
}

/// The procedures of definitions.
fn number_definitions(
    alloc: Global,
    tables: &Tables,
    definitions: &[KeptDefinition<'_, '_>],
    out: &mut Output,
) -> Result<List<Lambda>, Mem>
    requires formals { have_few_formals (kept_definitions definitions.now) ≡ true }
    requires globals { length (names_of tables.now.globals.names) < 2 ^ 32 }
    requires symbols { length (names_of tables.now.symbols.names) < 2 ^ 32 }
    requires room { HasRoom out.old (size_of_definitions (kept_definitions definitions.now)) }
    requires variables { have_near_bodies (kept_definitions definitions.now) ≡ true }
    ensures made { IfOk result (λ ls. lambdas_of ls
        ≡ words.procedures (names_of tables.now.globals.names) (names_of tables.now.symbols.names)
        (kept_definitions definitions.now) (length out.old.sites) (length out.old.literals)) }
    ensures sites { OnOk result (out.new.sites ≡ out.old.sites ++ widths_of_definitions (kept_definitions definitions.now)) }
    ensures literals { OnOk result (map literal out.new.literals
        ≡ map literal out.old.literals
        ++ map (literal_of (names_of tables.now.symbols.names)) (quotes_of_each (kept_definitions definitions.now))) }
    ensures constants { OnOk result (BodiesHaveConstants (kept_definitions definitions.now)) }
{
    let mut all = List::new(alloc);
    for d in definitions {
        let l = number_definition(alloc, tables, d, out)?;
        all.push(l)?;
    }
    Ok(all)
}

/// The trees of a program, and what has numbers in them.
#[derive(Drop)]
pub struct Numbered {
    pub library: List<Lambda>,
    pub forms: List<Exp>,
    pub sites: List<u32>,
    pub literals: List<Lit>,
}

/// The trees of kept definitions, and behind them those of the forms of a text with these globals of its own.
pub fn number_program(
    alloc: Global,
    tables: &Tables,
    definitions: &[KeptDefinition<'_, '_>],
    own: &Names,
    forms: &[Draft<'_>],
) -> Result<Numbered, Mem>
    requires formals { have_few_formals (kept_definitions definitions.now) ≡ true }
    requires globals { length (names_of tables.now.globals.names) < 2 ^ 32 }
    requires symbols { length (names_of tables.now.symbols.names) < 2 ^ 32 }
    requires small { size_of_definitions (kept_definitions definitions.now) + size_each (drafts_of forms.now) < 2 ^ 32 }
    requires bodies { have_near_bodies (kept_definitions definitions.now) ≡ true }
    requires variables { have_near_variables (drafts_of forms.now) ≡ true }
    ensures library { IfOk result (λ n. lambdas_of n.library
        ≡ words.procedures (names_of tables.now.globals.names) (names_of tables.now.symbols.names) (kept_definitions definitions.now) 0 0) }
    ensures forms { IfOk result (λ n. expressions_of n.forms
        ≡ numbered_each (names_of own.now) (names_of tables.now.globals.names) (names_of tables.now.symbols.names) [] (drafts_of forms.now)
        (length (widths_of_definitions (kept_definitions definitions.now))) (length (quotes_of_each (kept_definitions definitions.now)))) }
    ensures sites { IfOk result (λ n. n.sites
        ≡ widths_of_definitions (kept_definitions definitions.now) ++ widths_of_each (drafts_of forms.now)) }
    ensures literals { IfOk result (λ n. map literal n.literals ≡ map (literal_of (names_of tables.now.symbols.names))
        (quotes_of_each (kept_definitions definitions.now) ++ quotes_in_each (drafts_of forms.now))) }
    ensures bodies { OnOk result (BodiesHaveConstants (kept_definitions definitions.now)) }
    ensures constants { OnOk result (HaveConstants (drafts_of forms.now)) }
{
    let mut out = Output::new(alloc);
    let library = number_definitions(alloc, tables, definitions, &mut out)?;
    let numbers = Numbers {
        own,
        globals: &tables.globals.names,
        symbols: &tables.symbols.names,
    };
    let forms = number_each(alloc, &numbers, &[], forms, &mut out)?;
    let Output {
        sites,
        literals,
        ..
    } = out;
    Ok(Numbered {
        library,
        forms,
        sites,
        literals,
    })
}
