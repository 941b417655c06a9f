//! The order in which arguments are evaluated.

ghost use Rattle.std.specs.Prelude.{◌≡◌, ℕ, ◌-◌, ◌+◌, ◌<◌, length, cond, not, nat_eq, ◌&&◌, IfOk, slice_index};
ghost use Rattle.sch_word.specs.trees.Bindings.{numbers};
ghost use Rattle.sch_shuffle.specs.View.{arguments};
ghost use Rattle.sch_shuffle.specs.Greedy.{uses_target, needed, next_of, goes_before, all_choices, chosen};

use crate::operand::{Operand, uses};
use sch_word::{Mem, Place};
use smallvec::SmallVec;
use std::alloc::Global;

/// How an argument, by its number, is evaluated.
#[derive(Clone, Copy)]
pub enum Choice {
    /// To its target.
    Direct(usize),
    /// To a temporary.
    Aside(usize),
}

/// The numbers of the arguments that are not yet evaluated.
pub type Waiting = SmallVec<usize, 8>;

/// Whether argument `j` is another than `k` and uses its target.
fn is_user(args: &[Operand], targets: &[Place], j: usize, k: usize) -> bool
    requires argument { j < length args.now }
    requires target { k < length targets.now }
    ensures { result ≡ (not (nat_eq j k) && uses_target (arguments args.now) targets.now j k) }
{
    j != k && uses(&args[j], targets[k])
}

/// How many other arguments use the target of argument `k`.
fn users(args: &[Operand], targets: &[Place], k: usize) -> usize
    requires { k < length targets.now }
    ensures { result ≡ needed (uses_target (arguments args.now) targets.now) (numbers 0 (length args.now)) k }
{
    let mut count = 0;
    for j in 0..args.len() {
        if is_user(args, targets, j, k) {
            count += 1;
        }
    }
    count
}

/// For each argument, how many others use its target.
fn all_users(alloc: Global, args: &[Operand], targets: &[Place]) -> Result<Vec<usize>, Mem>
    requires { length targets.now ≡ length args.now }
    ensures len { IfOk result (λ v. length v.items ≡ length args.now) }
    ensures counts { IfOk result (λ v. (k : ℕ) → k < length args.now
        → slice_index v.items k ≡ needed (uses_target (arguments args.now) targets.now) (numbers 0 (length args.now)) k) }
{
    let mut all = Vec::new(alloc);
    for k in 0..targets.len() {
        all.push(users(args, targets, k))?;
    }
    Ok(all)
}

/// The numbers below `count`.
fn all_numbers(alloc: Global, count: usize) -> Result<Waiting, Mem>
    ensures { IfOk result (λ v. v.items ≡ numbers 0 count) }
{
    let mut all = SmallVec::new(alloc);
    for k in 0..count {
        all.push(k)?;
    }
    Ok(all)
}

/// Where the argument that goes next stands among the waiting ones.
fn next_of(waiting: &[usize], users: &[usize]) -> usize
    requires some { 0 < length waiting.now }
    requires known { (i : ℕ) → i < length waiting.now → slice_index waiting.now i < length users.now }
    ensures within { result < length waiting.now }
    ensures next { slice_index waiting.now result ≡ next_of (slice_index users.now) waiting.now }
{
    let mut best = 0;
    for at in 1..waiting.len() {
        if goes_before(users[waiting[at]], users[waiting[best]]) {
            best = at;
        }
    }
    best
}

/// Whether an argument whose target `a` others use goes before an earlier one whose target `b` others use: those whose
/// target no other uses come first, then those whose target most use.
fn goes_before(a: usize, b: usize) -> bool
    ensures { result ≡ goes_before a b }
{
    b != 0 && (a == 0 || b < a)
}

/// Argument `k` waits no more, so it needs no target.
fn release(args: &[Operand], targets: &[Place], users: &mut Vec<usize>, k: usize)
    requires known { k < length args.now }
    requires targets { length targets.now ≡ length users.old.items }
    ensures len { length users.new.items ≡ length users.old.items }
    ensures released { (j : ℕ) → j < length users.old.items → slice_index users.new.items j
        ≡ slice_index users.old.items j - cond (not (nat_eq k j) && uses_target (arguments args.now) targets.now k j) 1 0 }
{
    for j in 0..targets.len() {
        if is_user(args, targets, k, j) {
            users[j] = users[j].saturating_sub(1);
        }
    }
}

/// To its target where no other uses that, else to a temporary.
fn chosen(users: usize, k: usize) -> Choice
    ensures { result ≡ chosen users k }
{
    if users == 0 {
        Choice::Direct(k)
    } else {
        Choice::Aside(k)
    }
}

/// How all arguments are evaluated, one after the other.
pub fn all_choices(alloc: Global, args: &[Operand], targets: &[Place]) -> Result<Vec<Choice>, Mem>
    requires { length targets.now ≡ length args.now }
    ensures { IfOk result (λ v. v.items ≡ all_choices (arguments args.now) targets.now) }
{
    let mut users = all_users(alloc, args, targets)?;
    let mut waiting = all_numbers(alloc, args.len())?;
    let mut all = Vec::new(alloc);
    for _turn in 0..args.len() {
        let at = next_of(waiting.as_slice(), users.as_slice());
        let k = waiting.remove(at);
        all.push(chosen(users[k], k))?;
        release(args, targets, &mut users, k);
    }
    Ok(all)
}
