//! Bodies whose variables have places.

ghost use Rattle.std.specs.Prelude.{◌≡◌, ◌<◌, ◌+◌, ◌*◌, ◌^◌, ℕ, true, length};
ghost use Rattle.sch_control.specs.flow.Apart.{EachBoundAlone, EachPointApart, EnteredAlone};
ghost use Rattle.sch_word.specs.values.Places.{closure_place, link_place};
ghost use Rattle.sch_control.specs.flow.Places.{arrival, count_slots, formals_of, is_usual, place_of, stays};
ghost use Rattle.sch_control.specs.flow.RestoredView as view;

use crate::restored_body::RestoredBody;
use sch_word::{List, Place};

/// A `RestoredBody` with the place of each variable, by the variables' numbers. Slots are numbered from those on in which
/// operands arrive.
#[derive(Drop)]
pub struct PlacedBody<'a, const N: usize> {
    pub restored: &'a RestoredBody<'a, N>,
    pub places: List<Place>,
    // The size of what a call restores, a set and a list, is below 2^63: a reference does not say so.
    ghost sized: { 8 * N + 24 < 2 ^ 63 },
    // Each variable has a place: the return address `LINK_REGISTER`, the closure `CLOSURE_REGISTER`, any other one of six registers or a
    // slot.
    ghost whole: { length places ≡ restored.now.body.now.variables },
    ghost link: { place_of places 0 ≡ link_place },
    ghost closure: { place_of places 1 ≡ closure_place },
    ghost usual: { (x : ℕ) → 1 < x → x < restored.now.body.now.variables → is_usual (count_slots places) (place_of places x) ≡ true },
    // A formal has the register in which it arrives or a slot, and past the sixth the slot in which it arrives.
    ghost formals: { (k : ℕ) → k < formals_of restored.now.body.now.entry → stays (arrival k) (place_of places (2 + k)) ≡ true },
    // No other variable that is live as the body begins has the place of one with which it is entered.
    ghost entered: { EnteredAlone (place_of places) (2 + formals_of restored.now.body.now.entry) (view.restored restored.now.exp) },
    // No other variable that is live directly after a binding has the place of the variable that is bound.
    ghost alone: { ∥ EachBoundAlone (place_of places) (view.restored restored.now.exp) ∥₁ },
    // Variables that are live at once at a point that some path passes have different places.
    ghost points: { ∥ EachPointApart (place_of places) (view.restored restored.now.exp) ∥₁ },
}
