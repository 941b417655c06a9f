//! The places of the variables of a body.

ghost use Rattle.std.specs.Prelude.{◌≡◌, ◌+◌, ◌<◌, ℕ, IfOk};
ghost use Rattle.sch_control.specs.flow.Places.{arrival, formals_of, place_of};
ghost use Rattle.sch_control.specs.flow.RestoredView.{restored};
ghost use Rattle.sch_regs.specs.PlaceChoice.{places};
ghost use Rattle.sch_paths.specs.EachSoonRestored.{EachSoonRestored};
ghost use Rattle.sch_regs.specs.Promises.{KeepsRuns};
ghost use Rattle.sch_regs.specs.Spills.{SlotsWhenFull};

use crate::assigning::assign;
use crate::noting::note;
use crate::placing::Placing;
use crate::starting::{all_arrived, empty_sets, formals};
use sch_control::{PlacedBody, RestoredBody};
use sch_sets::Set;
use sch_word::{List, Mem, Place};
use std::alloc::Global;

// The places of a body's variables, in the order of their numbers.
fn places_of<const N: usize>(alloc: Global, b: &RestoredBody<'_, N>) -> Result<List<Place>, Mem>
    ensures { IfOk result (λ ps. ps ≡ places b.now.body.now.entry b.now.body.now.variables (restored b.now.exp)) }
{
    let mut noted = empty_sets(alloc, b.body.variables)?;
    let none = Set::new();
    let mut before = Set::new();
    note(&b.exp, &none, &none, &mut before, &mut noted);
    let mut placing = all_arrived(alloc, b.body.variables, formals(b.body.entry))?;
    assign(&mut placing, noted.as_slice(), &b.exp);
    let Placing { places, .. } = placing;
    Ok(List::from_vec(places))
}

/// The body with a place for each of its variables: the return address and the closure stay where they arrive, and so do the
/// formals. Any other variable that is bound has the first of six registers that holds nothing that is live directly after it
/// is bound, and where each of them holds something live, the next slot; of a group those come first that are live. Each call
/// has to restore what is live after it and wanted before the next one.
pub fn assign_places<'a, const N: usize>(
    alloc: Global,
    b: &'a RestoredBody<'a, N>,
) -> Result<PlacedBody<'a, N>, Mem>
    requires enough { EachSoonRestored (restored b.now.exp) }
    ensures restored { IfOk result (λ r. r.restored.now ≡ b.now) }
    ensures made { IfOk result (λ r. r.places ≡ places b.now.body.now.entry b.now.body.now.variables (restored b.now.exp)) }
    ensures slots { IfOk result (λ r. SlotsWhenFull (place_of r.places) (restored r.restored.now.exp)) }
    ensures formals { IfOk result (λ r. (k : ℕ) → k < formals_of r.restored.now.body.now.entry → place_of r.places (2 + k) ≡ arrival k) }
    ensures meaning { IfOk result (λ r. KeepsRuns (restored b.now.exp) (restored r.restored.now.exp) r.places) }
{
    let places = places_of(alloc, b)?;
    Ok(PlacedBody {
        restored: b,
        places,
    })
}
