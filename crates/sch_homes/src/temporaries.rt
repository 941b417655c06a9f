//! Where the arguments of calls go, and where they may be set aside on their way.

ghost use Rattle.std.specs.Prelude.{◌≡◌, ◌≤◌, ◌<◌, ◌+◌, ◌^◌, ◌++◌, ◌∷◌, [], filter, map, suc, IfOk, OnOk};
ghost use Rattle.std.specs.List.{list_any};
ghost use Rattle.sch_shuffle.specs.Tree as shuffle;
ghost use Rattle.sch_word.specs.trees.Shape.{max_operands};
ghost use Rattle.sch_word.specs.values.Places.{same_place};
ghost use Rattle.sch_shuffle.specs.View.{tree};
ghost use Rattle.sch_homes.specs.CallMoves as calls;

use crate::frame_places::NEXT_FRAME;
use sch_shuffle::{Operand, uses};
use sch_word::{ARGUMENT_REGISTERS, List, Mem, Place, larger, same_place};
use sch_writer::target;
use std::alloc::Global;

/// Where so many arguments go.
pub(crate) fn targets(alloc: Global, tail: bool, count: u32) -> Result<List<Place>, Mem>
    requires { count ≤ suc max_operands }
    ensures { IfOk result (λ places. places ≡ calls.targets tail count) }
{
    let mut places = List::new(alloc);
    for k in 0..count {
        places.push(target(tail, NEXT_FRAME, k))?;
    }
    Ok(places)
}

/// Whether a place is one of the targets.
fn is_target(targets: &[Place], p: Place) -> bool
    ensures { result ≡ list_any (λ q. same_place q p) targets.now }
{
    targets.iter().any(|q| same_place(*q, p))
}

/// Whether some operand uses a place.
fn one_uses(operands: &[Operand], p: Place) -> bool
    ensures { result ≡ list_any (λ x. shuffle.uses (tree x) p) operands.now }
{
    operands.iter().any(|x| uses(x, p))
}

/// Whether an argument uses a place.
fn is_used(args: &[Operand], p: Place) -> bool
    ensures { result ≡ list_any (λ x. shuffle.uses x p) (map tree args.now) }
{
    one_uses(args, p)
}

/// Whether a place is no target and no argument uses it.
fn is_spare(args: &[Operand], targets: &[Place], p: Place) -> bool
    ensures { result ≡ calls.is_spare (map tree args.now) targets.now p }
{
    !is_target(targets, p) && !is_used(args, p)
}

/// A place more, if it is spare.
fn put_spare(
    args: &[Operand],
    targets: &[Place],
    p: Place,
    places: &mut List<Place>,
) -> Result<(), Mem>
    ensures { OnOk result (places.new ≡ places.old ++ filter (calls.is_spare (map tree args.now) targets.now) (p ∷ [])) }
{
    if !is_spare(args, targets, p) {
        return Ok(());
    }
    places.push(p)?;
    Ok(())
}

/// The registers of arguments that are spare.
pub(crate) fn spare_registers(
    alloc: Global,
    args: &[Operand],
    targets: &[Place],
) -> Result<List<Place>, Mem>
    ensures { IfOk result (λ places. places ≡ calls.spare_registers (map tree args.now) targets.now) }
{
    let mut places = List::new(alloc);
    for r in &ARGUMENT_REGISTERS {
        put_spare(args, targets, Place::Reg(*r), &mut places)?;
    }
    Ok(places)
}

/// A temporary by its number: one of these places, or one of the slots from `first` on.
fn temporary(places: &[Place], first: u32, number: u32) -> Place
    requires { first + number < 2 ^ 32 }
    ensures { result ≡ calls.temporary places.now first number }
{
    match places.get(number as usize) {
        Some(p) => *p,
        None => {
            let behind = number - places.len() as u32;
            Place::Slot(first + behind)
        }
    }
}

/// So many temporaries: these places, and then the slots from `first` on.
pub(crate) fn temporaries(
    alloc: Global,
    places: &[Place],
    first: u32,
    count: u32,
) -> Result<List<Place>, Mem>
    requires { first + count ≤ 2 ^ 32 }
    ensures { IfOk result (λ made. made ≡ calls.temporaries places.now first count) }
{
    let mut made = List::new(alloc);
    for k in 0..count {
        made.push(temporary(places, first, k))?;
    }
    Ok(made)
}

/// From which slot on arguments are set aside: behind others that are in use, and behind those in which a tail call hands
/// operands over.
pub(crate) fn first_temporary(end: u32, operands: u32) -> u32
    ensures { result ≡ calls.first_temporary end operands }
{
    let handed_over = operands.saturating_sub(ARGUMENT_REGISTERS.len() as u32);
    larger(end, handed_over)
}
