//! The order in which arguments are evaluated.

ghost use Rattle.std.specs.Prelude.{◌≡◌, ◌<◌, ◌^◌, List as Items, length, map, IfOk};
ghost use Rattle.sch_word.specs.declared.place.Place.{Place as AnyPlace};
ghost use Rattle.sch_shuffle.specs.View.{arguments};
ghost use Rattle.sch_shuffle.specs.Greedy.{AreBelow, made, number_of};
ghost use Rattle.sch_shuffle.specs.GreedySteps.{order};

use crate::choice::{Choice, all_choices};
use crate::operand::Operand;
use sch_word::{List, Mem, Place};
use std::alloc::Global;

/// Which argument is evaluated.
fn number_of(choice: Choice) -> usize
    ensures { result ≡ number_of choice }
{
    match choice {
        Choice::Direct(k) => k,
        Choice::Aside(k) => k,
    }
}

/// Which arguments are evaluated, one after the other.
fn numbers_of(alloc: Global, count: usize, choices: &[Choice]) -> Result<List<u32>, Mem>
    requires count { count < 2 ^ 32 }
    requires known { AreBelow count choices.now }
    ensures { IfOk result (λ all. all ≡ map number_of choices.now) }
{
    let mut all = List::from_vec(Vec::with_capacity(alloc, choices.len())?);
    for choice in choices {
        all.push(number_of(*choice) as u32)?;
    }
    Ok(all)
}

/// The numbers of the arguments in the order in which the moves of a shuffle evaluate them, whatever places are free.
pub fn evaluation_order(
    alloc: Global,
    args: &[Operand],
    targets: &[Place],
) -> Result<List<u32>, Mem>
    requires count { length args.now < 2 ^ 32 }
    requires targets { length targets.now ≡ length args.now }
    ensures { IfOk result (λ all. (free : Items AnyPlace)
        → all ≡ order (length args.now) (made (arguments args.now) targets.now free)) }
{
    let choices = all_choices(alloc, args, targets)?;
    numbers_of(alloc, args.len(), choices.as_slice())
}
