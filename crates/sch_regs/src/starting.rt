//! What the walks over a body begin with.

ghost use Rattle.std.specs.Prelude.{◌≡◌, ◌*◌, ◌+◌, ◌^◌, ◌<◌, ◌≤◌, IfOk, [], replicate};
ghost use Rattle.std.specs.FinSet as set;
ghost use Rattle.sch_word.specs.declared.place.Place.TheVariants.{Reg};
ghost use Rattle.sch_control.specs.flow.Places as entry_places;
ghost use Rattle.sch_regs.specs.PlaceChoice.{arrived};
ghost use Rattle.sch_word.specs.declared.registers.TheConstants.{RBX};
ghost use Rattle.sch_regs.specs.Shows.{Shows};

use crate::choice::give;
use crate::placing::Placing;
use sch_control::{Entry, arrival};
use sch_sets::Set;
use sch_word::registers::RBX;
use sch_word::{ARGUMENT_REGISTERS, CLOSURE_REGISTER, LINK_REGISTER, Mem, Place};
use std::alloc::Global;

// A list in which each number counts as being in RBX.
fn unplaced(alloc: Global, variables: u32) -> Result<Vec<Place>, Mem>
    ensures { IfOk result (λ ps. ps.items ≡ replicate variables (Reg RBX)) }
{
    Ok(vec![in alloc; Place::Reg(RBX); variables as usize]?)
}

/// An empty set for each of a number of variables or registers.
pub(crate) fn empty_sets<const N: usize>(alloc: Global, count: u32) -> Result<Vec<Set<N>>, Mem>
    ensures { IfOk result (λ sets. sets.items ≡ replicate count set.empty) }
{
    let mut sets = Vec::with_capacity(alloc, count as usize)?;
    for done in 0..count {
        sets.push(Set::new())?;
    }
    Ok(sets)
}

// No variable has a place.
fn none_placed<const N: usize>(alloc: Global, variables: u32) -> Result<Placing<N>, Mem>
    requires { N < 2 ^ 60 }
    ensures { IfOk result (λ p. Shows variables p []) }
{
    let places = unplaced(alloc, variables)?;
    let held = empty_sets(alloc, ARGUMENT_REGISTERS.len() as u32)?;
    Ok(Placing {
        places,
        slots: 0,
        held,
    })
}

/// How many operands a body is entered with.
pub(crate) fn formals(entry: Option<Entry>) -> u32
    ensures { result ≡ entry_places.formals_of entry }
{
    match entry {
        Some(e) => e.formals,
        None => 0,
    }
}

/// The return address, the closure and the formals where they arrive.
pub(crate) fn all_arrived<const N: usize>(
    alloc: Global,
    variables: u32,
    formals: u32,
) -> Result<Placing<N>, Mem>
    requires words { N < 2 ^ 60 }
    requires within { 2 + formals ≤ variables }
    requires fits { variables ≤ 64 * N }
    ensures { IfOk result (λ p. Shows variables p (arrived formals)) }
{
    let mut placing = none_placed(alloc, variables)?;
    give(&mut placing, 0, Place::Reg(LINK_REGISTER));
    give(&mut placing, 1, Place::Reg(CLOSURE_REGISTER));
    for k in 0..formals {
        give(&mut placing, 2 + k, arrival(k));
    }
    Ok(placing)
}
