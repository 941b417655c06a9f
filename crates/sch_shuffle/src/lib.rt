//! Greedy shuffling: moves that assign all arguments of a call to their targets at once.
#![tactic(auto)]

ghost use Rattle.std.specs.Prelude.{◌≡◌, ◌<◌, ◌^◌, length, All, IfOk};
ghost use Rattle.sch_shuffle.specs.View.{arguments, transfers_of};
ghost use Rattle.sch_shuffle.specs.Assignment.{AlwaysAssigns, AlwaysCarries, AreDistinct, AreSpare, temps};
ghost use Rattle.sch_shuffle.specs.Plans.{ArePlanned, AreAtoms, IsMove, NeedsTemporaries};
ghost use Rattle.sch_shuffle.specs.ActValues.{ActsBring, FewSetAside};
ghost use Rattle.sch_shuffle.specs.Greedy.{made};
ghost use Rattle.sch_shuffle.specs.GreedySteps.{IsGreedy, IsOrdered, GoesOnInOrder};
ghost use Rattle.sch_shuffle.specs.Cycles.{AreTheCycles};
ghost use Rattle.sch_shuffle.specs.CycleSearch.{cycles};

mod choice;
mod evaluations;
mod moves;
mod operand;
mod rings;

pub use evaluations::evaluation_order;
pub use moves::{Move, Moves, make_moves};
pub use operand::{Operand, uses};
pub use rings::cycles;
use sch_word::{Mem, Place};
use std::alloc::Global;

/// Moves that bring each argument to its target, by way of few temporaries, and the cycles among the targets.
///
/// Each argument is evaluated once. Of those that wait and whose target no other waiting argument uses, the one
/// with the least number goes to its target. Where there is none, the first of those whose target most others use
/// goes to the first place of `free` that is not yet used. What was set aside goes on to its target at the end, in
/// the order in which it was set aside. An argument that stands in its target already has its move too.
///
/// r8, rbx to rbx, r8 by rax -> r8 to rax, rbx to r8, rax to rbx; one cycle: rbx, r8
///
/// Where the operands are of bounded size the time grows with the square of the number of arguments: each operand is
/// looked through at most twice for each target. Source: PLDI 1995, Burger, Waddell and Dybvig.
pub fn shuffle(
    alloc: Global,
    args: &[Operand],
    targets: &[Place],
    free: &[Place],
) -> Result<Moves, Mem>
    requires count { length args.now < 2 ^ 32 }
    requires targets { length targets.now ≡ length args.now }
    requires free { length free.now ≡ length args.now }
    requires distinct { AreDistinct targets.now }
    requires temporaries { AreDistinct free.now }
    // No free place is a target or is used by an argument.
    requires spare { AreSpare (arguments args.now) targets.now free.now }
    // Whatever places hold and however operands are read, each target gets what its argument gave at the start,
    ensures assigns { IfOk result (λ moves. AlwaysAssigns (arguments args.now) targets.now (transfers_of moves.list)) }
    // and each move takes what its argument gave at the start.
    ensures carries { IfOk result (λ moves. AlwaysCarries (arguments args.now) (transfers_of moves.list)) }
    // Each argument is evaluated once, to its target or to a free place, from which it goes on.
    ensures planned { IfOk result (λ moves. ArePlanned (arguments args.now) targets.now free.now (transfers_of moves.list)) }
    // A move takes its argument or what a free place holds, and goes to a free place or to its argument's target.
    ensures moves { IfOk result (λ moves. All (IsMove (arguments args.now) targets.now free.now) (transfers_of moves.list)) }
    // Each evaluation is of the argument that goes next, and each temporary is the first free place that is not yet used.
    ensures greedy { IfOk result (λ moves. IsGreedy (arguments args.now) targets.now free.now (transfers_of moves.list)) }
    // The evaluations come first.
    ensures ordered { IfOk result (λ moves. IsOrdered (length (arguments args.now)) (transfers_of moves.list)) }
    // What was set aside goes on behind them, from its temporary to its target, in the order in which it was set aside.
    ensures onward { IfOk result (λ moves. GoesOnInOrder (length (arguments args.now)) targets.now (transfers_of moves.list)) }
    // The cycles are listed, each once, by their least arguments.
    ensures cycles { IfOk result (λ moves. AreTheCycles (arguments args.now) targets.now moves.cycles) }
    // They are a function of the arguments too.
    ensures listed { IfOk result (λ moves. moves.cycles ≡ cycles (arguments args.now) targets.now) }
    // Where no argument reads by a primitive there are as many moves into temporaries as cycles,
    ensures few { IfOk result (λ moves. AreAtoms (arguments args.now) → temps (transfers_of moves.list) ≡ length moves.cycles) }
    // and no plan has fewer, whatever the arguments are, not even one that moves values between temporaries.
    ensures fewest { IfOk result (λ moves. NeedsTemporaries (arguments args.now) targets.now (length moves.cycles)) }
    // The moves are a function of the arguments.
    ensures made { IfOk result (λ moves. transfers_of moves.list ≡ made (arguments args.now) targets.now free.now) }
{
    let list = make_moves(alloc, args, targets, free)?;
    let cycles = cycles(alloc, args, targets)?;
    Ok(Moves { list, cycles })
}

/// The law that the moves bring each argument to its target however it gives its value, if that depends on no more than what
/// the places hold that its operand uses. It is a call that does nothing.
pub fn acts_bring()
    ensures { ActsBring }
{}

/// The law that one argument at least goes straight to its target, and that each which is set aside has a target that another
/// uses.
pub fn few_are_set_aside()
    ensures { FewSetAside }
{}
