//! What a body needs room for in its frame: late arguments, variables, homes, and what calls set aside.

ghost use Rattle.std.specs.Prelude.{◌≡◌, ◌≤◌, ◌∷◌, [], length, IfOk};
ghost use Rattle.sch_control.specs.flow.RestoredView.{restored};
ghost use Rattle.sch_frames.specs.Valid.{max_words};
ghost use Rattle.sch_writer.specs.FewOperands.{FewOperands};
ghost use Rattle.sch_homes.specs.Homes as homes;
ghost use Rattle.sch_homes.specs.Homes.{first_home, has_home, homes_end, homes_words};
ghost use Rattle.sch_homes.specs.HomeTable.{home_slots, place_in};
ghost use Rattle.sch_homes.specs.View.{entry_of, tree_of};

use crate::call_moves::call_end;
use crate::frame_places::FramePlaces;
use crate::saved_variables::{HomeSlots, give_homes, mark_saved};
use sch_control::{Entry, Exp, PlacedBody, Restoring};
use sch_sets::Set;
use sch_word::{ARGUMENT_REGISTERS, Mem, Place, larger};
use std::alloc::Global;

/// In how many slots arguments arrive.
fn late_slots(entry: Option<Entry>) -> u32
    ensures { result ≡ homes.late_slots entry }
{
    match entry {
        None => 0,
        Some(e) => e.formals.saturating_sub(ARGUMENT_REGISTERS.len() as u32),
    }
}

/// One past the last slot so far, with one more place.
fn end_with(end: u32, p: Place) -> u32
    requires { homes.slots_end end (p ∷ []) ≤ max_words }
    ensures { result ≡ homes.slots_end end (p ∷ []) }
{
    match p {
        Place::Reg(_) => end,
        Place::Slot(j) if j < end => end,
        Place::Slot(j) => j + 1,
    }
}

/// One past the last slot in which a variable lives, and past those of arguments.
fn slots_end(late: u32, places: &[Place]) -> u32
    requires { homes.slots_end late places.now ≤ max_words }
    ensures { result ≡ homes.slots_end late places.now }
{
    let mut end = late;
    for p in places {
        end = end_with(end, *p);
    }
    end
}

/// The room of a body: the homes of its variables, and one past the last slot that it needs.
#[derive(Drop)]
pub(crate) struct Room {
    pub homes: HomeSlots,
    pub words: u32,
}

/// One past the last slot that some call of an expression needs, where slots are in use up to `used`.
fn calls_end<const N: usize>(
    alloc: Global,
    lives: &FramePlaces<'_>,
    used: u32,
    e: &Exp<Restoring<N>>,
) -> Result<u32, Mem>
    requires few { FewOperands e.now }
    requires low { used ≤ max_words }
    ensures { IfOk result (λ n. n ≡ homes.calls_end used (place_in lives.now.places.now) (restored e.now)) }
{
    match e {
        Exp::Do(_) => Ok(used),
        Exp::Bind(_, a, b) => {
            let first = calls_end(alloc, lives, used, a)?;
            let second = calls_end(alloc, lives, used, b)?;
            Ok(larger(first, second))
        }
        Exp::Seq(a, b) => {
            let first = calls_end(alloc, lives, used, a)?;
            let second = calls_end(alloc, lives, used, b)?;
            Ok(larger(first, second))
        }
        Exp::If(a, b, c) => {
            let test = calls_end(alloc, lives, used, a)?;
            let first = calls_end(alloc, lives, used, b)?;
            let second = calls_end(alloc, lives, used, c)?;
            Ok(larger(test, larger(first, second)))
        }
        Exp::Fix(_, e) => calls_end(alloc, lives, used, e),
        Exp::Call(a, _) => call_end(alloc, lives, used, false, a),
        Exp::TailCall(a) => call_end(alloc, lives, used, true, a),
        Exp::Return(e) => calls_end(alloc, lives, used, e),
        Exp::End(e) => calls_end(alloc, lives, used, e),
        Exp::Save(_, e) => calls_end(alloc, lives, used, e),
    }
}

/// The room that a body needs.
pub(crate) fn room_for<const N: usize>(alloc: Global, b: &PlacedBody<'_, N>) -> Result<Room, Mem>
    ensures homes { IfOk result (λ r. r.homes.homes ≡ home_slots
        (first_home (entry_of b.now) (tree_of b.now) b.now.places)
        (has_home (entry_of b.now) (tree_of b.now) b.now.places) (length b.now.places)) }
    ensures end { IfOk result (λ r. r.homes.end ≡ homes_end (entry_of b.now) (tree_of b.now) b.now.places) }
    ensures words { IfOk result (λ r. r.words ≡ homes_words (entry_of b.now) (tree_of b.now) b.now.places) }
{
    let mut saved = Set::new();
    mark_saved(&b.restored.exp, &mut saved);
    let places = b.places.as_slice();
    let first = slots_end(late_slots(b.restored.body.entry), places);
    let homes = give_homes(alloc, places, &saved, first)?;
    let lives = FramePlaces { places };
    let words = calls_end(alloc, &lives, homes.end, &b.restored.exp)?;
    Ok(Room { homes, words })
}
