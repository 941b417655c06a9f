//! What the globals of a program hold at the start.

ghost use Rattle.std.specs.Prelude.{◌≡◌, ◌<◌, ◌^◌, length, IfOk};
ghost use Rattle.sch_names.specs.NamesView.{names_of, number_of};
ghost use Rattle.sch_link_tables.specs.Programs as words;
ghost use Rattle.sch_link_tables.specs.Programs.{names_of_each};
ghost use Rattle.sch_link_program.specs.Definitions.{kept_definitions};

use crate::definition::KeptDefinition;
use sch_names::Names;
use sch_word::{Bytes, List, Mem};
use std::alloc::Global;

/// The number of the procedure of this name: how many there are before it.
fn procedure_number(definitions: &[KeptDefinition<'_, '_>], x: &[u8]) -> u32
    requires few { length definitions.now < 2 ^ 32 }
    ensures { result ≡ number_of x.now (names_of_each (kept_definitions definitions.now)) }
{
    let mut n = 0;
    for d in definitions {
        if x == d.name {
            return n;
        }
        n += 1;
    }
    n
}

/// What a global holds at the start: the library's procedure of its name, if it is the library's or holds it.
fn start_of(definitions: &[KeptDefinition<'_, '_>], held: &Names, global: &[u8]) -> Option<u32>
    requires few { length definitions.now < 2 ^ 32 }
    ensures { result ≡ words.starts_with (kept_definitions definitions.now) (names_of held.now) global.now }
{
    let [mark, x @ ..] = global else {
        return None;
    };
    if *mark == 0 && !held.contains(x) {
        return None;
    }
    Some(procedure_number(definitions, x))
}

/// What each global holds at the start.
pub fn starts(
    alloc: Global,
    definitions: &[KeptDefinition<'_, '_>],
    held: &Names,
    globals: &[Bytes],
) -> Result<List<Option<u32>>, Mem>
    requires few { length definitions.now < 2 ^ 32 }
    ensures { IfOk result (λ all. all ≡ words.starts (kept_definitions definitions.now) (names_of held.now) globals.now) }
{
    let mut all = List::new(alloc);
    for global in globals {
        all.push(start_of(definitions, held, global.as_slice()))?;
    }
    Ok(all)
}
