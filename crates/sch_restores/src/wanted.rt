//! What is wanted before the next call, before operations, calls, groups and regions.

ghost use Rattle.std.specs.Prelude.{◌≡◌, ◌*◌, ◌<◌, ℕ, true, ◌&&◌, ◌||◌, not, nat_eq, nat_lt};
ghost use Rattle.std.specs.FinSet as set;
ghost use Rattle.std.specs.List.{list_all};
ghost use Rattle.sch_word.specs.trees.NumberSets.{has};
ghost use Rattle.sch_control.specs.AtomsAndSites as atoms;
ghost use Rattle.sch_control.specs.Tree as tree;
ghost use Rattle.sch_control.specs.Valid.{member_variables};
ghost use Rattle.sch_control.specs.flow.Live.{named};
ghost use Rattle.sch_control.specs.flow.LiveTests.{behind, is_soon};
ghost use Rattle.sch_control.specs.flow.Reads.{AtomsBelow};

use sch_control::{
    Application, Member, Operation, after_operation, read_application, read_members,
    read_operation, remove_members, with_all,
};
use sch_sets::Set;

/// Before an operation.
#[inline(never)]
pub(crate) fn want_operation<const N: usize>(
    o: &Operation<u32>,
    on_true: &Set<N>,
    on_false: &Set<N>,
    soon: &mut Set<N>,
)
    requires { AtomsBelow (64 * N) (atoms.operation_atoms o.now) }
    ensures { (x : ℕ) → set.contains soon.new x ≡ is_soon x (tree.perform o.now) (behind on_true.now on_false.now x) }
{
    *soon = after_operation(o, on_true, on_false);
    read_operation(o, soon);
}

/// Before a group, where these are wanted behind it.
#[inline(never)]
pub(crate) fn want_group<const N: usize>(members: &[Member<u32>], soon: &mut Set<N>)
    requires atoms { AtomsBelow (64 * N) (atoms.member_atoms members.now) }
    requires variables { list_all (λ x. nat_lt x (64 * N)) (member_variables members.now) ≡ true }
    ensures { (x : ℕ) → set.contains soon.new x
        ≡ (not (has x (member_variables members.now)) && (has x (named (atoms.member_atoms members.now)) || set.contains soon.old x)) }
{
    read_members(members, soon);
    remove_members(members, soon);
}

/// Before a call.
#[inline(never)]
pub(crate) fn want_call<const N: usize>(a: &Application<u32>, soon: &mut Set<N>)
    requires { AtomsBelow (64 * N) (atoms.application_atoms a.now) }
    ensures { (x : ℕ) → set.contains soon.new x ≡ has x (named (atoms.application_atoms a.now)) }
{
    *soon = Set::new();
    read_application(a, soon);
}

/// Before a call in tail position.
#[inline(never)]
pub(crate) fn want_tail_call<const N: usize>(a: &Application<u32>, soon: &mut Set<N>)
    requires some { 0 < N }
    requires below { AtomsBelow (64 * N) (atoms.application_atoms a.now) }
    ensures { (x : ℕ) → set.contains soon.new x ≡ (nat_eq x 0 || has x (named (atoms.application_atoms a.now))) }
{
    *soon = Set::new();
    soon.insert(0);
    read_application(a, soon);
}

/// At the head of a region, where `unbound` has those of its variables that are not bound inside.
#[inline(never)]
pub(crate) fn want_heads<const N: usize>(saves: &[u32], unbound: &Set<N>, soon: &mut Set<N>)
    requires { list_all (λ x. nat_lt x (64 * N)) saves.now ≡ true }
    ensures { (x : ℕ) → set.contains soon.new x
        ≡ ((has x saves.now && set.contains unbound.now x) || set.contains soon.old x) }
{
    let heads = with_all(&Set::new(), saves).meet(unbound);
    *soon = heads.union(soon);
}
