//! The choice of a place: the first register that holds nothing live, or else the next slot.

ghost use Rattle.std.specs.Prelude.{◌≡◌, ◌*◌, ◌+◌, ◌<◌, ◌^◌, ℕ, ◌∷◌, cond, length, not, slice_index_or, slice_set};
ghost use Rattle.std.specs.FinSet as set;
ghost use Rattle.sch_word.specs.declared.place.Place.TheVariants.{Reg, Slot};
ghost use Rattle.sch_word.specs.values.Registers.{argument_registers};
ghost use Rattle.sch_word.specs.values.Places.{is_slot, same_place};
ghost use Rattle.sch_regs.specs.PlaceChoice as table;
ghost use Rattle.sch_regs.specs.Shows.{AreHeld, Becomes, IsHeld, each_with_held, with_held};

use crate::placing::Placing;
use sch_sets::Set;
use sch_word::{ARGUMENT_REGISTERS, Place};

fn is_register(register: u8, p: Place) -> bool
    ensures { result ≡ same_place p (Reg register) }
{
    match p {
        Place::Reg(r) => r == register,
        Place::Slot(_) => false,
    }
}

// Whether no variable that is live is in a register, by the variables that are in it: no number is in both sets.
fn is_free<const N: usize>(held: &Set<N>, live: &Set<N>) -> bool
    ensures { (t : table.Table) (r : ℕ) → IsHeld t r held.now → result ≡ not (table.held (set.contains live.now) t r) }
{
    held.meet(live).is_empty()
}

// The first of some registers that holds nothing live, by the variables that are in each of them, or else the slot behind
// so many. There is a set for each register.
fn first_free<const N: usize>(registers: &[u8], held: &[Set<N>], live: &Set<N>, slots: u32) -> Place
    ensures { (t : table.Table) → AreHeld t registers.now held.now → slots ≡ table.slots t
        → result ≡ table.first_free (set.contains live.now) t registers.now }
{
    let [register, registers @ ..] = registers else {
        return Place::Slot(slots);
    };
    let [first, held @ ..] = held else {
        return Place::Slot(slots);
    };
    if is_free(first, live) {
        return Place::Reg(*register);
    }
    first_free(registers, held, live, slots)
}

// Adds a variable to those in a register, where that is its place. There are `k` registers before it.
fn hold<const N: usize>(held: &mut Vec<Set<N>>, k: usize, register: u8, y: u32, p: Place)
    requires { y < 64 * N }
    ensures { held.new.items
        ≡ slice_set held.old.items k (with_held register (slice_index_or held.old.items k set.empty) y p) }
{
    if k < held.len() && is_register(register, p) {
        held[k].insert(y);
    }
}

// Adds a variable to those in its place, where that is one of some registers, which have `k` others before them.
fn hold_each<const N: usize>(registers: &[u8], held: &mut Vec<Set<N>>, k: usize, y: u32, p: Place)
    requires within { y < 64 * N }
    requires few { k + length registers.now < 2 ^ 63 }
    ensures { held.new.items ≡ each_with_held registers.now k held.old.items y p }
{
    let [register, registers @ ..] = registers else {
        return;
    };
    hold(held, k, *register, y, p);
    hold_each(registers, held, k + 1, y, p);
}

/// Gives a variable a place.
pub(crate) fn give<const N: usize>(placing: &mut Placing<N>, y: u32, p: Place)
    requires words { N < 2 ^ 60 }
    requires within { y < 64 * N }
    ensures { Becomes placing.old placing.new (λ t. (y, p) ∷ t) }
{
    hold_each(&ARGUMENT_REGISTERS, &mut placing.held, 0, y, p);
    set_place(&mut placing.places, y, p);
    placing.slots = count_slot(placing.slots, p);
}

// Lists the place of a variable.
fn set_place(places: &mut Vec<Place>, y: u32, p: Place)
    ensures { places.new.items ≡ slice_set places.old.items y p }
{
    if (y as usize) < places.len() {
        places[y as usize] = p;
    }
}

// One slot more, where a place is one.
fn count_slot(slots: u32, p: Place) -> u32
    ensures { cond (is_slot p) (slots + 1) slots < 2 ^ 32 → result ≡ cond (is_slot p) (slots + 1) slots }
{
    match p {
        Place::Reg(_) => slots,
        Place::Slot(_) => slots.saturating_add(1),
    }
}

/// Gives a variable the first register that holds nothing live, or else the next slot.
pub(crate) fn choose<const N: usize>(placing: &mut Placing<N>, live: &Set<N>, y: u32)
    requires { y < 64 * N }
    ensures { Becomes placing.old placing.new (table.choose (set.contains live.now) y) }
{
    let p = first_free(
        &ARGUMENT_REGISTERS,
        placing.held.as_slice(),
        live,
        placing.slots,
    );
    give(placing, y, p);
}
