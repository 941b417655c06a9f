//! Moves of some calls.

use sch_shuffle::{Move, Moves, Operand, shuffle};
use sch_word::{Mem, Place, registers};
use std::alloc::Global;

const RAX: Place = Place::Reg(registers::RAX);

const RCX: Place = Place::Reg(registers::RCX);

const RBX: Place = Place::Reg(registers::RBX);

const R8: Place = Place::Reg(registers::R8);

const R9: Place = Place::Reg(registers::R9);

// What is no register.
const OTHER: u8 = 99;

fn register(place: Place) -> u8 {
    match place {
        Place::Reg(r) => r,
        Place::Slot(_) => OTHER,
    }
}

/// A move by the registers that it goes from and to, its argument, and whether that is set aside.
type Seen = (u8, u8, u32, bool);

fn seen(m: &Move) -> Seen {
    let from = match &m.from {
        Operand::Place(p) => register(*p),
        Operand::Fixed(_) => OTHER,
        Operand::Literal(_) => OTHER,
        Operand::Read(_, _) => OTHER,
    };
    (from, register(m.to), m.argument, m.temp)
}

// Whether these are the moves, one after the other.
fn are_seen(moves: &[Move], wanted: &[Seen]) -> bool {
    let mut rest = wanted;
    for m in moves {
        let [first, others @ ..] = rest else {
            return false;
        };
        if seen(m) != *first {
            return false;
        }
        rest = others;
    }
    rest.is_empty()
}

// Whether these are the moves, with so many cycles.
fn are_moves(moves: &Moves, wanted: &[Seen], cycles: usize) -> bool {
    are_seen(moves.list.as_slice(), wanted) && moves.cycles.len() == cycles
}

// Whether the moves of a swap are these.
fn swaps(alloc: Global, wanted: &[Seen]) -> Result<bool, Mem> {
    let args = [Operand::Place(R8), Operand::Place(RBX)];
    let moves = shuffle(alloc, &args, &[RBX, R8], &[RAX, RCX])?;
    Ok(are_moves(&moves, wanted, 1))
}

/// r8 and rbx to rbx and r8: one goes by rax.
#[test]
fn a_swap(rt: HostRuntime) -> Result<(), Mem> {
    let wanted = [(8, 0, 0, true), (3, 8, 1, false), (0, 3, 0, false)];
    assert!(rt; swaps(rt.alloc(), &wanted)?);
    Ok(())
}

// Whether the moves of a chain are these.
fn chains(alloc: Global, wanted: &[Seen]) -> Result<bool, Mem> {
    let args = [Operand::Place(R8), Operand::Place(R9)];
    let moves = shuffle(alloc, &args, &[RBX, R8], &[RAX, RCX])?;
    Ok(are_moves(&moves, wanted, 0))
}

/// r8 and r9 to rbx and r8: none needs a temporary.
#[test]
fn a_chain(rt: HostRuntime) -> Result<(), Mem> {
    let wanted = [(8, 3, 0, false), (9, 8, 1, false)];
    assert!(rt; chains(rt.alloc(), &wanted)?);
    Ok(())
}
