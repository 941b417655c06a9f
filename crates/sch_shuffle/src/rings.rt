//! Rings and cycles: a ring is a list of the numbers of arguments, each of which stands in the target of the next, and a
//! cycle is the list of the targets of a ring.

ghost use Rattle.std.specs.Prelude.{◌≡◌, ℕ, ◌<◌, ◌&&◌, nat_lt, length, IfOk, slice_index};
ghost use Rattle.sch_shuffle.specs.View.{tree, arguments};
ghost use Rattle.sch_shuffle.specs.CycleSearch.{stands_in, successor, ring, is_ring, places_at, cycles};

use crate::operand::Operand;
use sch_word::{List, Mem, Place, same_place};
use std::alloc::Global;

/// Whether the operand is the place.
fn stands_in(operand: &Operand, place: Place) -> bool
    ensures { result ≡ stands_in (tree operand.now) place }
{
    match operand {
        Operand::Place(p) => same_place(*p, place),
        Operand::Fixed(_) => false,
        Operand::Literal(_) => false,
        Operand::Read(_, _) => false,
    }
}

/// The argument in whose target argument `i` stands, or the count of all where there is none.
fn successor(args: &[Operand], targets: &[Place], i: usize) -> usize
    requires { i < length args.now }
    ensures { result ≡ successor (arguments args.now) targets.now i }
{
    for j in 0..targets.len() {
        if stands_in(&args[i], targets[j]) {
            return j;
        }
    }
    targets.len()
}

/// For each argument, the one in whose target it stands.
fn all_successors(alloc: Global, args: &[Operand], targets: &[Place]) -> Result<Vec<usize>, Mem>
    requires { length targets.now ≡ length args.now }
    ensures len { IfOk result (λ v. length v.items ≡ length targets.now) }
    ensures successors { IfOk result (λ v. (k : ℕ) → k < length targets.now
        → slice_index v.items k ≡ successor (arguments args.now) targets.now k) }
{
    let mut all = Vec::new(alloc);
    for i in 0..args.len() {
        all.push(successor(args, targets, i))?;
    }
    Ok(all)
}

/// Whether `next` is an argument, and a later one than that with which the walk began.
fn is_later(start: usize, next: usize, count: usize) -> bool
    ensures { result ≡ (nat_lt start next && nat_lt next count) }
{
    start < next && next < count
}

/// The arguments from `start` on, each of which stands in the target of the next, and the last in that of
/// `start`; none where there are no such, or `start` is not the least.
fn ring(alloc: Global, successors: &[usize], start: usize) -> Result<Vec<usize>, Mem>
    requires { start < length successors.now }
    ensures { IfOk result (λ v. v.items ≡ ring (slice_index successors.now) (length successors.now) start) }
{
    let mut done = Vec::new(alloc);
    let mut at = start;
    for _step in 0..successors.len() {
        done.push(at)?;
        let next = successors[at];
        if next == start {
            return Ok(done);
        }
        if !is_later(start, next, successors.len()) {
            return Ok(Vec::new(alloc));
        }
        at = next;
    }
    Ok(Vec::new(alloc))
}

/// Whether there are at least two arguments.
fn is_ring(ring: &[usize]) -> bool
    ensures { result ≡ is_ring ring.now }
{
    ring.len() > 1
}

/// The targets of these arguments.
fn places_at(alloc: Global, ring: &[usize], targets: &[Place]) -> Result<List<Place>, Mem>
    requires { (i : ℕ) → i < length ring.now → slice_index ring.now i < length targets.now }
    ensures { IfOk result (λ places. places ≡ places_at targets.now ring.now) }
{
    let mut places = List::new(alloc);
    for k in ring {
        places.push(targets[*k])?;
    }
    Ok(places)
}

/// The cycles, by their least arguments.
pub fn cycles(alloc: Global, args: &[Operand], targets: &[Place]) -> Result<List<List<Place>>, Mem>
    requires { length targets.now ≡ length args.now }
    ensures { IfOk result (λ all. all ≡ cycles (arguments args.now) targets.now) }
{
    let successors = all_successors(alloc, args, targets)?;
    let mut all = List::new(alloc);
    for k in 0..args.len() {
        let ring = ring(alloc, successors.as_slice(), k)?;
        if is_ring(ring.as_slice()) {
            all.push(places_at(alloc, ring.as_slice(), targets)?)?;
        }
    }
    Ok(all)
}
