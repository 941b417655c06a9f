//! Which definitions of a library a text keeps.

ghost use Rattle.std.specs.Prelude.{◌≡◌, ◌++◌, ◌∷◌, [], ◌&&◌, not, cond, List, ℕ, IfOk, OnOk};
ghost use Rattle.sch_names.specs.Scope.{is_among};
ghost use Rattle.sch_names.specs.NamesView.{names_of, with_name};
ghost use Rattle.sch_link_tables.specs.Programs as words;
ghost use Rattle.sch_link_program.specs.Definitions.{definition_of, definitions_of, kept_definitions};
ghost use Rattle.sch_link_program.specs.Wanted.{asked_for, is_wanted, wanted_with};

use crate::definition::{Definition, KeptDefinition};
use sch_link_tables::{Tables, global_key, name_draft};
use sch_names::Names;
use sch_word::{List, Mem};
use std::alloc::Global;

/// Whether a name is the library's own: it begins with `%`.
pub fn is_hidden(x: &[u8]) -> bool
    ensures { result ≡ words.is_hidden x.now }
{
    match x.first() {
        Some(b) => *b == b'%',
        None => false,
    }
}

/// Adds a name of the library, if it shows it and the text has it of its own.
fn hold(alloc: Global, x: &[u8], own: &Names, names: &mut Names) -> Result<(), Mem>
    ensures { OnOk result (names_of names.new
        ≡ cond (not (words.is_hidden x.now) && is_among x.now (names_of own.now)) (with_name x.now (names_of names.old)) (names_of names.old)) }
{
    if is_hidden(x) {
        return Ok(());
    }
    if own.contains(x) {
        names.insert(alloc, x)?;
    }
    Ok(())
}

/// The names among a text's own that the library shows too.
pub fn held(alloc: Global, definitions: &[Definition<'_>], own: &Names) -> Result<Names, Mem>
    ensures { IfOk result (λ names. (x : List ℕ) →
        is_among x (names_of names) ≡ is_among x (words.held (definitions_of definitions.now) (names_of own.now))) }
{
    let mut names = Names::new(alloc);
    for d in definitions {
        hold(alloc, d.name, own, &mut names)?;
    }
    Ok(names)
}

/// What a text asks of a library: the globals that it names, and those of its own that hold procedures of the
/// library.
#[derive(Clone, Copy, Drop)]
pub struct Asked<'a> {
    pub named: &'a Names,
    pub held: &'a Names,
}

/// Whether a definition's global is held by a global of the text, or is among those that the text or a kept definition
/// names.
fn is_named(alloc: Global, x: &[u8], asked: &Asked<'_>, wanted: &Names) -> Result<bool, Mem>
    ensures { IfOk result (λ b. b ≡ is_wanted asked.now (names_of wanted.now) x.now) }
{
    if asked.held.contains(x) {
        return Ok(true);
    }
    let none = Names::new(alloc);
    let key = global_key(alloc, &none, x)?;
    if asked.named.contains(key.as_slice()) {
        return Ok(true);
    }
    Ok(wanted.contains(key.as_slice()))
}

/// Keeps a definition, if it is named or held. Then what it names is wanted too.
fn keep<'a, 'b>(
    alloc: Global,
    d: &'b Definition<'a>,
    asked: &Asked<'_>,
    wanted: &mut Tables,
    all: &mut List<KeptDefinition<'a, 'b>>,
) -> Result<(), Mem>
    ensures list { OnOk result (kept_definitions all.new
        ≡ cond (is_wanted asked.now (names_of wanted.old.globals.names) d.now.name.now) (kept_definitions all.old ++ definition_of d.now ∷ []) (kept_definitions all.old)) }
    ensures names { OnOk result (names_of wanted.new.globals.names
        ≡ wanted_with asked.now (names_of wanted.old.globals.names) (definition_of d.now)) }
{
    if is_named(alloc, d.name, asked, &wanted.globals.names)? {
        let none = Names::new(alloc);
        name_draft(alloc, &none, &d.body, wanted)?;
        all.push(KeptDefinition {
            name: d.name,
            formals: d.formals,
            rest: d.rest,
            body: &d.body,
        })?;
    }
    Ok(())
}

/// The definitions that are kept, in the order of the library: those that are named or held, and those that
/// a later kept one names.
pub fn kept<'a, 'b>(
    alloc: Global,
    definitions: &'b [Definition<'a>],
    asked: &Asked<'_>,
) -> Result<List<KeptDefinition<'a, 'b>>, Mem>
    ensures { IfOk result (λ ds. kept_definitions ds ≡ words.kept (definitions_of definitions.now) (asked_for asked.now)) }
{
    let mut left = definitions;
    let mut all = List::new(alloc);
    let mut wanted = Tables::new(alloc);
    while let [before @ .., d] = left {
        keep(alloc, d, asked, &mut wanted, &mut all)?;
        left = before;
    }
    Ok(all.reversed())
}
