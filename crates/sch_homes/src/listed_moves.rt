//! What is listed of the moves of a body's calls.

ghost use Rattle.std.specs.Prelude.{◌≡◌, ◌≤◌, ◌++◌, ◌∷◌, [], ℕ, length, IfOk, OnOk};
ghost use Rattle.sch_word.specs.trees.Shape.{max_operands};
ghost use Rattle.sch_control.specs.flow.RestoredView.{restored};
ghost use Rattle.sch_orders.specs.ListedCalls as tree;
ghost use Rattle.sch_writer.specs.FewOperands.{FewOperands};
ghost use Rattle.sch_homes.specs.HomeTable.{place_in};
ghost use Rattle.sch_homes.specs.ListedMoves as listed;
ghost use Rattle.sch_homes.specs.View.{entry_of, tree_of};

use crate::call_arguments::arguments;
use crate::frame_places::FramePlaces;
use crate::straight_calls::{are_in_order, argument_count, straight_order};
use crate::temporaries::targets;
use sch_control::{Application, Exp, PlacedBody, Restoring};
use sch_orders::ListedCall;
use sch_shuffle::{cycles, evaluation_order};
use sch_word::{List, Mem};
use std::alloc::Global;

/// What is listed of the moves of a call by a shuffle, wherever it sets something aside.
fn shuffled_call(
    alloc: Global,
    lives: &FramePlaces<'_>,
    tail: bool,
    a: &Application<u32>,
) -> Result<ListedCall, Mem>
    requires { length a.now.operands ≤ max_operands }
    ensures { IfOk result (λ c. (end : ℕ)
        → c ≡ listed.listed_call end (place_in lives.now.places.now) tail a.now) }
{
    let args = arguments(alloc, lives, a)?;
    let count = argument_count(a);
    let targets = targets(alloc, tail, count)?;
    let order = evaluation_order(alloc, args.as_slice(), targets.as_slice())?;
    let cycles = cycles(alloc, args.as_slice(), targets.as_slice())?;
    Ok(ListedCall {
        site: a.site,
        order,
        cycles,
    })
}

/// What is listed of a call of which no argument uses the target of an earlier one.
fn straight_call(alloc: Global, a: &Application<u32>) -> Result<ListedCall, Mem>
    requires { length a.now.operands ≤ max_operands }
    ensures { IfOk result (λ c. c ≡ listed.straight_call a.now) }
{
    let count = argument_count(a);
    let order = straight_order(alloc, count)?;
    Ok(ListedCall {
        site: a.site,
        order,
        cycles: List::new(alloc),
    })
}

/// What is listed of the moves of a call, wherever it sets something aside.
fn listed_call(
    alloc: Global,
    lives: &FramePlaces<'_>,
    tail: bool,
    a: &Application<u32>,
) -> Result<ListedCall, Mem>
    requires { length a.now.operands ≤ max_operands }
    ensures { IfOk result (λ c. (end : ℕ)
        → c ≡ listed.listed_call end (place_in lives.now.places.now) tail a.now) }
{
    if are_in_order(lives, tail, a) {
        return straight_call(alloc, a);
    }
    shuffled_call(alloc, lives, tail, a)
}

/// Adds what is listed of a call.
#[inline(never)]
fn list_call(
    alloc: Global,
    lives: &FramePlaces<'_>,
    tail: bool,
    a: &Application<u32>,
    calls: &mut List<ListedCall>,
) -> Result<(), Mem>
    requires { length a.now.operands ≤ max_operands }
    ensures { OnOk result ((end : ℕ) → calls.new ≡ calls.old
        ++ listed.listed_call end (place_in lives.now.places.now) tail a.now ∷ []) }
{
    calls.push(listed_call(alloc, lives, tail, a)?)?;
    Ok(())
}

/// Adds what is listed of the calls of an expression, in the order of its tree.
fn list_calls<const N: usize>(
    alloc: Global,
    lives: &FramePlaces<'_>,
    e: &Exp<Restoring<N>>,
    calls: &mut List<ListedCall>,
) -> Result<(), Mem>
    requires { FewOperands e.now }
    ensures { OnOk result ((end : ℕ) → calls.new ≡ calls.old
        ++ tree.listed_calls (listed.listed_call end (place_in lives.now.places.now)) (restored e.now)) }
{
    match e {
        Exp::Do(_) => Ok(()),
        Exp::Bind(_, a, b) => {
            list_calls(alloc, lives, a, calls)?;
            list_calls(alloc, lives, b, calls)
        }
        Exp::Seq(a, b) => {
            list_calls(alloc, lives, a, calls)?;
            list_calls(alloc, lives, b, calls)
        }
        Exp::If(a, b, c) => {
            list_calls(alloc, lives, a, calls)?;
            list_calls(alloc, lives, b, calls)?;
            list_calls(alloc, lives, c, calls)
        }
        Exp::Fix(_, e) => list_calls(alloc, lives, e, calls),
        Exp::Call(a, _) => list_call(alloc, lives, false, a, calls),
        Exp::TailCall(a) => list_call(alloc, lives, true, a, calls),
        Exp::Return(e) => list_calls(alloc, lives, e, calls),
        Exp::End(e) => list_calls(alloc, lives, e, calls),
        Exp::Save(_, e) => list_calls(alloc, lives, e, calls),
    }
}

/// Adds what is listed of the calls of a body, in the order of its tree.
pub fn list_moves<const N: usize>(
    alloc: Global,
    b: &PlacedBody<'_, N>,
    calls: &mut List<ListedCall>,
) -> Result<(), Mem>
    ensures { OnOk result (calls.new ≡ calls.old ++ listed.homes_calls (entry_of b.now) (tree_of b.now) b.now.places) }
{
    let lives = FramePlaces {
        places: b.places.as_slice(),
    };
    list_calls(alloc, &lives, &b.restored.exp, calls)
}
