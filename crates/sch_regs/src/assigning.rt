//! The walk over a body that gives each of its variables a place, by what is noted as live at each binding.

ghost use Rattle.std.specs.Prelude.{◌≡◌, ◌*◌, ◌<◌, ◌≤◌, [], ◌∷◌, length, true, nat_lt, slice_index_or};
ghost use Rattle.std.specs.FinSet as set;
ghost use Rattle.std.specs.List.{list_all};
ghost use Rattle.sch_control.specs.Valid.{member_variables};
ghost use Rattle.sch_control.specs.flow.Reads.{VariablesBelow};
ghost use Rattle.sch_control.specs.flow.RestoredView.{restored};
ghost use Rattle.sch_word.specs.values.Options.{first_or_0};
ghost use Rattle.sch_regs.specs.NotedSets.{assign_noted};
ghost use Rattle.sch_regs.specs.PlaceChoice as table;
ghost use Rattle.sch_regs.specs.SetsAsTests.{noted_in};
ghost use Rattle.sch_regs.specs.Shows.{Becomes, choose_all, choose_wanted};

use crate::choice::choose;
use crate::placing::Placing;
use sch_control::{Exp, Member, Restoring};
use sch_sets::Set;
use sch_word::List;

// Gives a variable a place, if it is wanted: one that is live, or else one that is not.
fn choose_if<const N: usize>(placing: &mut Placing<N>, live: &Set<N>, wanted: bool, y: u32)
    requires { y < 64 * N }
    ensures { Becomes placing.old placing.new (choose_wanted (set.contains live.now) wanted (y ∷ [])) }
{
    if live.contains(y) == wanted {
        choose(placing, live, y);
    }
}

// Gives each member of a group that is wanted a place.
fn choose_those<const N: usize>(
    placing: &mut Placing<N>,
    live: &Set<N>,
    wanted: bool,
    members: &[Member<u32>],
)
    requires { list_all (λ x. nat_lt x (64 * N)) (member_variables members.now) ≡ true }
    ensures { Becomes placing.old placing.new (choose_wanted (set.contains live.now) wanted (member_variables members.now)) }
{
    for m in members {
        choose_if(placing, live, wanted, m.at);
    }
}

// Gives the members of a group places: first those that are live as all of them are in theirs, then the others.
fn choose_both<const N: usize>(placing: &mut Placing<N>, live: &Set<N>, members: &[Member<u32>])
    requires { list_all (λ x. nat_lt x (64 * N)) (member_variables members.now) ≡ true }
    ensures { Becomes placing.old placing.new (choose_all (set.contains live.now) (member_variables members.now)) }
{
    choose_those(placing, live, true, members);
    choose_those(placing, live, false, members);
}

// What is noted under a variable.
fn noted_under<const N: usize>(noted: &[Set<N>], y: u32) -> &Set<N>
    requires { y < length noted.now }
    ensures { result.now ≡ slice_index_or noted.now y set.empty }
{
    &noted[y as usize]
}

// Gives the members of a group places, by what is noted of it.
fn choose_group<const N: usize>(
    placing: &mut Placing<N>,
    noted: &[Set<N>],
    members: &List<Member<u32>>,
)
    requires fits { length noted.now ≤ 64 * N }
    requires below { list_all (λ x. nat_lt x (length noted.now)) (member_variables members.now) ≡ true }
    ensures { Becomes placing.old placing.new
        (choose_all (noted_in noted.now (first_or_0 (member_variables members.now))) (member_variables members.now)) }
{
    match members.get(0) {
        Some(m) => {
            let live = noted_under(noted, m.at);
            choose_both(placing, live, members.as_slice());
        }
        None => {}
    }
}

// Gives a variable that is bound alone its place.
fn choose_one<const N: usize>(placing: &mut Placing<N>, noted: &[Set<N>], y: u32)
    requires fits { length noted.now ≤ 64 * N }
    requires below { y < length noted.now }
    ensures { Becomes placing.old placing.new (table.choose (noted_in noted.now y) y) }
{
    let live = noted_under(noted, y);
    choose(placing, live, y);
}

/// Gives each variable that an expression binds its place.
pub(crate) fn assign<const N: usize>(
    placing: &mut Placing<N>,
    noted: &[Set<N>],
    e: &Exp<Restoring<N>>,
)
    requires fits { length noted.now ≤ 64 * N }
    requires below { VariablesBelow (length noted.now) (restored e.now) }
    ensures { Becomes placing.old placing.new (assign_noted (noted_in noted.now) (restored e.now)) }
{
    match e {
        Exp::Bind(y, a, b) => {
            assign(placing, noted, a);
            choose_one(placing, noted, *y);
            assign(placing, noted, b);
        }
        Exp::Seq(a, b) => {
            assign(placing, noted, a);
            assign(placing, noted, b);
        }
        Exp::If(a, b, c) => {
            assign(placing, noted, a);
            assign(placing, noted, b);
            assign(placing, noted, c);
        }
        Exp::Fix(members, e) => {
            choose_group(placing, noted, members);
            assign(placing, noted, e);
        }
        Exp::Return(e) => assign(placing, noted, e),
        Exp::End(e) => assign(placing, noted, e),
        Exp::Save(_, e) => assign(placing, noted, e),
        _ => {}
    }
}
