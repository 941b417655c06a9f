//! Moves, and how they are made of the choices.

ghost use Rattle.std.specs.Prelude.{◌≡◌, ◌<◌, ◌≤◌, ◌^◌, ◌++◌, length, IfOk};
ghost use Rattle.sch_shuffle.specs.View.{arguments, transfers_of};
ghost use Rattle.sch_shuffle.specs.Plans.{transfers};
ghost use Rattle.sch_shuffle.specs.Greedy.{evaluations, onwards, AreBelow, made};

use crate::choice::{Choice, all_choices};
use crate::operand::{Operand, copy};
use sch_word::{List, Mem, Place};
use std::alloc::Global;

/// A move of the value of an argument.
#[derive(Drop)]
pub struct Move {
    /// The argument itself, or the temporary that holds its value.
    pub from: Operand,
    /// The argument's target, or a temporary.
    pub to: Place,
    /// The number of the argument.
    pub argument: u32,
    /// Whether `to` is a temporary, from which the value moves on.
    pub temp: bool,
}

/// The moves of a call, and its cycles.
#[derive(Drop)]
pub struct Moves {
    /// The moves, one after the other.
    pub list: List<Move>,
    /// The cycles, by their least arguments. Each is a list of at least two targets, the argument of each of which stands
    /// in the next, and that of the last in the first, which is the target of the least argument.
    pub cycles: List<List<Place>>,
}

/// The moves that evaluate each argument, to its target or to a temporary.
fn evaluate(
    alloc: Global,
    args: &[Operand],
    targets: &[Place],
    free: &[Place],
    choices: &[Choice],
) -> Result<List<Move>, Mem>
    requires count { length args.now < 2 ^ 32 }
    requires targets { length targets.now ≡ length args.now }
    requires free { length choices.now ≤ length free.now }
    requires known { AreBelow (length args.now) choices.now }
    ensures { IfOk result (λ list. transfers_of list
        ≡ transfers (arguments args.now) targets.now (evaluations free.now 0 choices.now)) }
{
    let mut list = List::new(alloc);
    let mut used = 0;
    for choice in choices {
        match *choice {
            Choice::Direct(k) => {
                let from = copy(alloc, &args[k])?;
                list.push(Move {
                    from,
                    to: targets[k],
                    argument: k as u32,
                    temp: false,
                })?;
            }
            Choice::Aside(k) => {
                let from = copy(alloc, &args[k])?;
                list.push(Move {
                    from,
                    to: free[used],
                    argument: k as u32,
                    temp: true,
                })?;
                used += 1;
            }
        }
    }
    Ok(list)
}

/// Adds the moves by which what was set aside goes on.
fn go_on(
    before: List<Move>,
    args: &[Operand],
    targets: &[Place],
    free: &[Place],
    choices: &[Choice],
) -> Result<List<Move>, Mem>
    requires count { length args.now < 2 ^ 32 }
    requires targets { length targets.now ≡ length args.now }
    requires free { length choices.now ≤ length free.now }
    requires known { AreBelow (length args.now) choices.now }
    ensures { IfOk result (λ list. transfers_of list
        ≡ transfers_of before ++ transfers (arguments args.now) targets.now (onwards free.now 0 choices.now)) }
{
    let mut list = before;
    let mut used = 0;
    for choice in choices {
        match *choice {
            Choice::Direct(_) => {}
            Choice::Aside(k) => {
                list.push(Move {
                    from: Operand::Place(free[used]),
                    to: targets[k],
                    argument: k as u32,
                    temp: false,
                })?;
                used += 1;
            }
        }
    }
    Ok(list)
}

/// The moves that bring each argument to its target.
pub fn make_moves(
    alloc: Global,
    args: &[Operand],
    targets: &[Place],
    free: &[Place],
) -> Result<List<Move>, Mem>
    requires count { length args.now < 2 ^ 32 }
    requires targets { length targets.now ≡ length args.now }
    requires free { length free.now ≡ length args.now }
    ensures { IfOk result (λ list. transfers_of list ≡ made (arguments args.now) targets.now free.now) }
{
    let choices = all_choices(alloc, args, targets)?;
    let list = evaluate(alloc, args, targets, free, choices.as_slice())?;
    let list = go_on(list, args, targets, free, choices.as_slice())?;
    Ok(list)
}
