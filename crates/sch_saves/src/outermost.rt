//! Of regions of the same variable inside one another, the outermost.

ghost use Rattle.std.specs.Prelude.{◌≡◌, ◌*◌, ◌<◌, true, nat_lt, not, [], ◌∷◌, ◌++◌, filter, IfOk, OnOk};
ghost use Rattle.std.specs.FinSet as set;
ghost use Rattle.std.specs.List.{list_all};
ghost use Rattle.sch_control.specs.flow.Middle.{listed};
ghost use Rattle.sch_control.specs.flow.Regions.{SavesBelow};
ghost use Rattle.sch_saves.specs.LazyRegions as lazily;

use sch_control::{Exp, Operation, with_all};
use sch_sets::Set;
use sch_word::{List, Mem};
use std::alloc::Global;
use std::mem;

// Adds a variable that is not in a set.
fn push_other<const N: usize>(s: &Set<N>, x: u32, xs: &mut List<u32>) -> Result<(), Mem>
    requires { x < 64 * N }
    ensures { OnOk result (xs.new ≡ xs.old ++ filter (λ y. not (set.contains s.now y)) (x ∷ [])) }
{
    if !s.contains(x) {
        xs.push(x)?;
    }
    Ok(())
}

// Those of some variables that are not in a set.
fn others<const N: usize>(alloc: Global, s: &Set<N>, xs: &[u32]) -> Result<List<u32>, Mem>
    requires { list_all (λ x. nat_lt x (64 * N)) xs.now ≡ true }
    ensures { IfOk result (λ ys. ys ≡ filter (λ y. not (set.contains s.now y)) xs.now) }
{
    let mut ys = List::new(alloc);
    for x in xs {
        push_other(s, *x, &mut ys)?;
    }
    Ok(ys)
}

/// Takes out of each region what a region round it saves, and takes out each region that is left with nothing; `inside` has
/// the variables of the regions round the expression.
pub(crate) fn keep_outermost<const N: usize>(
    alloc: Global,
    e: &mut Exp<Set<N>>,
    inside: &Set<N>,
) -> Result<(), Mem>
    requires below { SavesBelow (64 * N) (listed e.old) }
    ensures made { OnOk result (listed e.new ≡ lazily.outermost (λ x. set.contains inside.now x) (listed e.old)) }
{
    match e {
        Exp::Do(_) | Exp::Call(_, _) | Exp::TailCall(_) => {}
        Exp::Bind(_, a, b) => {
            keep_outermost(alloc, a, inside)?;
            keep_outermost(alloc, b, inside)?;
        }
        Exp::Seq(a, b) => {
            keep_outermost(alloc, a, inside)?;
            keep_outermost(alloc, b, inside)?;
        }
        Exp::If(a, b, c) => {
            keep_outermost(alloc, a, inside)?;
            keep_outermost(alloc, b, inside)?;
            keep_outermost(alloc, c, inside)?;
        }
        Exp::Fix(_, e) => keep_outermost(alloc, e, inside)?,
        Exp::Return(e) => keep_outermost(alloc, e, inside)?,
        Exp::End(e) => keep_outermost(alloc, e, inside)?,
        Exp::Save(saves, body) => {
            let kept = others(alloc, inside, saves.as_slice())?;
            let within = with_all(inside, saves.as_slice());
            keep_outermost(alloc, body, &within)?;
            if kept.is_empty() {
                *e = mem::replace(&mut **body, Exp::Do(Operation::UnsetCell));
            } else {
                *saves = kept;
            }
        }
    }
    Ok(())
}
