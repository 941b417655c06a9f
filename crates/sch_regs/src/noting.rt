//! What is live directly after each binding, by one walk from the end.

ghost use Rattle.std.specs.Prelude.{◌≡◌, ◌*◌, ◌<◌, slice_set};
ghost use Rattle.sch_control.specs.flow.RestoredView.{restored};
ghost use Rattle.sch_control.specs.flow.Reads.{VariablesBelow};
ghost use Rattle.sch_regs.specs.SetsAsTests.{IsNotedBack, with_first};

use sch_control::{
    Exp, Member, Restoring, after_operation, read_application, read_members, read_operation,
    remove_members,
};
use sch_sets::Set;

// Notes a set under a variable.
fn set_noted<const N: usize>(noted: &mut Vec<Set<N>>, y: u32, live: &Set<N>)
    ensures { noted.new.items ≡ slice_set noted.old.items y live.now }
{
    if (y as usize) < noted.len() {
        noted[y as usize] = live.copy();
    }
}

// Notes a set under the first variable of a group, if it has one.
fn set_first<const N: usize>(noted: &mut Vec<Set<N>>, members: &[Member<u32>], live: &Set<N>)
    ensures { noted.new.items ≡ with_first members.now live.now noted.old.items }
{
    if let [m, ..] = members {
        set_noted(noted, m.at, live);
    }
}

/// Puts into `before` what is live before an expression, from what is live behind it where its value counts as true and
/// where it is `#f`, and notes what is live directly after each binding: under the variable that is bound, and of a group under
/// its first.
pub(crate) fn note<const N: usize>(
    e: &Exp<Restoring<N>>,
    on_true: &Set<N>,
    on_false: &Set<N>,
    before: &mut Set<N>,
    noted: &mut Vec<Set<N>>,
)
    requires some { 0 < N }
    requires below { VariablesBelow (64 * N) (restored e.now) }
    ensures { IsNotedBack (restored e.now) on_true.now on_false.now before.new noted.old.items noted.new.items }
{
    match e {
        Exp::Do(o) => {
            *before = after_operation(o, on_true, on_false);
            read_operation(o, before);
        }
        Exp::Bind(y, a, b) => {
            note(b, on_true, on_false, before, noted);
            set_noted(noted, *y, before);
            before.remove(*y);
            let across = before.copy();
            note(a, &across, &across, before, noted);
        }
        Exp::Seq(a, b) => {
            note(b, on_true, on_false, before, noted);
            let behind = before.copy();
            note(a, &behind, &behind, before, noted);
        }
        Exp::If(a, b, c) => {
            let mut second = Set::new();
            note(c, on_true, on_false, &mut second, noted);
            note(b, on_true, on_false, before, noted);
            let first = before.copy();
            note(a, &first, &second, before, noted);
        }
        Exp::Fix(members, e) => {
            note(e, on_true, on_false, before, noted);
            read_members(members.as_slice(), before);
            set_first(noted, members.as_slice(), before);
            remove_members(members.as_slice(), before);
        }
        Exp::Call(a, _) => {
            *before = on_true.union(on_false);
            read_application(a, before);
        }
        Exp::TailCall(a) => {
            *before = Set::new();
            before.insert(0);
            read_application(a, before);
        }
        Exp::Return(e) => {
            let mut link = Set::new();
            link.insert(0);
            note(e, &link, &link, before, noted);
        }
        Exp::End(e) => {
            let none = Set::new();
            note(e, &none, &none, before, noted);
        }
        Exp::Save(_, e) => note(e, on_true, on_false, before, noted),
    }
}
