//! The variables that a body saves, and the homes of those that live in registers.

ghost use Rattle.std.specs.Prelude.{◌≡◌, ◌≤◌, ◌<◌, ◌*◌, ◌+◌, ◌^◌, ◌++◌, ◌∷◌, [], ◌||◌, ◌&&◌, ℕ, suc, cond, length, slice_get, Some, None, IfOk, OnOk};
ghost use Rattle.std.specs.FinSet as set;
ghost use Rattle.sch_control.specs.flow.Regions.{SavesBelow};
ghost use Rattle.sch_control.specs.flow.RestoredView.{restored};
ghost use Rattle.sch_homes.specs.Homes.{count_below, is_saved, has_register};
ghost use Rattle.sch_homes.specs.HomeTable.{home_slots};

use sch_control::{Exp, Restoring, with_all};
use sch_sets::Set;
use sch_word::{List, Mem, Place};
use std::alloc::Global;

/// Puts the variables that some region of an expression saves into a set.
pub(crate) fn mark_saved<const N: usize>(e: &Exp<Restoring<N>>, saved: &mut Set<N>)
    requires below { SavesBelow (64 * N) (restored e.now) }
    ensures { (y : ℕ) → set.contains saved.new y ≡ (is_saved (restored e.now) y || set.contains saved.old y) }
{
    match e {
        Exp::Do(_) => {}
        Exp::Bind(_, a, b) => {
            mark_saved(a, saved);
            mark_saved(b, saved);
        }
        Exp::Seq(a, b) => {
            mark_saved(a, saved);
            mark_saved(b, saved);
        }
        Exp::If(a, b, c) => {
            mark_saved(a, saved);
            mark_saved(b, saved);
            mark_saved(c, saved);
        }
        Exp::Fix(_, e) => mark_saved(e, saved),
        Exp::Call(_, _) => {}
        Exp::TailCall(_) => {}
        Exp::Return(e) => mark_saved(e, saved),
        Exp::End(e) => mark_saved(e, saved),
        Exp::Save(saves, e) => {
            *saved = with_all(saved, saves.as_slice());
            mark_saved(e, saved);
        }
    }
}

/// The home of each variable that has one, by the variables' numbers, and the slot behind the homes.
#[derive(Drop)]
pub(crate) struct HomeSlots {
    pub homes: List<Option<u32>>,
    pub end: u32,
}

impl HomeSlots {
    /// One variable more, with the next slot for its home if it is to have one.
    fn put(&mut self, wanted: bool) -> Result<(), Mem>
        requires { suc self.old.end < 2 ^ 32 }
        ensures homes { OnOk result (self.new.homes ≡ self.old.homes ++ cond wanted (Some self.old.end) None ∷ []) }
        ensures end { OnOk result (self.new.end ≡ cond wanted (suc self.old.end) self.old.end) }
    {
        if !wanted {
            self.homes.push(None)?;
            return Ok(());
        }
        self.homes.push(Some(self.end))?;
        self.end += 1;
        Ok(())
    }
}

/// Whether a variable lives in a register and is saved.
fn wants_home<const N: usize>(saved: &Set<N>, x: u32, p: Place) -> bool
    requires { x < 64 * N }
    ensures { result ≡ (has_register (Some p) && set.contains saved.now x) }
{
    match p {
        Place::Reg(_) => saved.contains(x),
        Place::Slot(_) => false,
    }
}

/// The homes of the variables of these places, in the slots from `first` on.
pub(crate) fn give_homes<const N: usize>(
    alloc: Global,
    places: &[Place],
    saved: &Set<N>,
    first: u32,
) -> Result<HomeSlots, Mem>
    requires fits { length places.now ≤ 64 * N }
    requires room { first + length places.now < 2 ^ 32 }
    ensures homes { IfOk result (λ r. r.homes
        ≡ home_slots first (λ x. has_register (slice_get places.now x) && set.contains saved.now x) (length places.now)) }
    ensures end { IfOk result (λ r. r.end
        ≡ first + count_below (λ x. has_register (slice_get places.now x) && set.contains saved.now x) (length places.now)) }
{
    let mut given = HomeSlots {
        homes: List::from_vec(Vec::with_capacity(alloc, places.len())?),
        end: first,
    };
    for (x, p) in places.iter().enumerate() {
        given.put(wants_home(saved, x as u32, *p))?;
    }
    Ok(given)
}
