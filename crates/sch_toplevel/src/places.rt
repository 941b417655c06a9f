//! The places of top-level forms.

ghost use Rattle.std.specs.Prelude.{◌≡◌, ◌++◌, IfOk, OnOk};
ghost use Rattle.sch_toplevel.specs.FormView.{places_at};

use crate::forms::Form;
use sch_word::{List, Mem};
use std::alloc::Global;

/// Adds the places of forms.
fn add_places(forms: &[Form<'_>], places: &mut List<u32>) -> Result<(), Mem>
    ensures { OnOk result (places.new ≡ places.old ++ places_at forms.now) }
{
    for form in forms {
        places.push(form.place())?;
    }
    Ok(())
}

/// The places of forms, in their order: the number of bytes before each.
pub(crate) fn places_of(alloc: Global, forms: &[Form<'_>]) -> Result<List<u32>, Mem>
    ensures { IfOk result (λ places. places ≡ places_at forms.now) }
{
    let room = Vec::with_capacity(alloc, forms.len())?;
    let mut places = List::from_vec(room);
    add_places(forms, &mut places)?;
    Ok(places)
}
