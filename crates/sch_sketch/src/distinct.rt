//! Names that are distinct.

ghost use Rattle.std.specs.Prelude.{◌≡◌, IfOk};
ghost use Rattle.sch_names.specs.Scope.{is_among};
ghost use Rattle.sch_names.specs.ScopeView.{given_names};
ghost use Rattle.sch_sketch.specs.Distinct as table;

use sch_names::{Name, Names};
use sch_word::Mem;
use std::alloc::Global;

/// So many names are compared each with each; a table of more takes less time.
const MAX_FEW: usize = 8;

/// Whether the name is among some.
fn is_among(x: &[u8], names: &[Name<'_>]) -> bool
    ensures { result ≡ is_among x.now (table.named (given_names names.now)) }
{
    for v in names {
        if let Some(y) = v {
            if x == *y {
                return true;
            }
        }
    }
    false
}

/// Whether no name stands twice, where there are few.
fn are_few_distinct(names: &[Name<'_>]) -> bool
    ensures { result ≡ table.are_distinct (given_names names.now) }
{
    for i in 0..names.len() {
        if let Some(x) = names[i] {
            if is_among(x, &names[..i]) {
                return false;
            }
        }
    }
    true
}

/// Whether no name stands twice.
pub fn are_distinct(alloc: Global, names: &[Name<'_>]) -> Result<bool, Mem>
    ensures { IfOk result (λ b. b ≡ table.are_distinct (given_names names.now)) }
{
    if names.len() <= MAX_FEW {
        return Ok(are_few_distinct(names));
    }
    let mut seen = Names::new(alloc);
    for v in names {
        if let Some(x) = v {
            if seen.contains(x) {
                return Ok(false);
            }
            seen.insert(alloc, x)?;
        }
    }
    Ok(true)
}
