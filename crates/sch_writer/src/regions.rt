//! The regions round an expression, and what they save where it is bound.

ghost use Rattle.std.specs.Prelude.{◌≡◌, ℕ, List};
ghost use Rattle.sch_word.specs.trees.NumberSets.{has};
ghost use Rattle.sch_control.specs.Meaning.{among, binds};
ghost use Rattle.sch_control.specs.View.{expression_with};
ghost use Rattle.sch_writer.specs.Regions.{inside};

use sch_control::{Exp, Member};
use sch_word::is_in;

/// The regions round an expression: none, or the variables that the innermost one saves, within the others.
#[derive(Clone, Copy)]
pub(crate) enum Regions<'a> {
    Nowhere,
    Within(&'a [u32], &'a Regions<'a>),
}

/// Whether a region saves a variable.
pub(crate) fn is_inside(regions: &Regions<'_>, x: u32) -> bool
    ensures { result ≡ inside regions.now x }
{
    match regions {
        Regions::Nowhere => false,
        Regions::Within(saves, outer) => is_in(x, saves) || is_inside(outer, x),
    }
}

/// Whether a group binds a variable.
fn is_among(x: u32, members: &[Member<u32>]) -> bool
    ensures { result ≡ among x members.now }
{
    for m in members {
        if x == m.at {
            return true;
        }
    }
    false
}

/// Whether an expression binds a variable.
pub(crate) fn binds<C: Drop>(x: u32, e: &Exp<C>) -> bool
    ensures { (restores : C → List ℕ) → result ≡ binds x (expression_with restores e.now) }
{
    match e {
        Exp::Bind(y, a, b) => x == *y || binds(x, a) || binds(x, b),
        Exp::Seq(a, b) => binds(x, a) || binds(x, b),
        Exp::If(a, b, c) => binds(x, a) || binds(x, b) || binds(x, c),
        Exp::Fix(members, e) => is_among(x, members.as_slice()) || binds(x, e),
        Exp::Return(e) => binds(x, e),
        Exp::End(e) => binds(x, e),
        Exp::Save(_, e) => binds(x, e),
        Exp::Do(_) | Exp::Call(_, _) | Exp::TailCall(_) => false,
    }
}
