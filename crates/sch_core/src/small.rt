//! Definitions that are too small to have too much of anything.

ghost use Rattle.std.specs.Prelude.{◌≡◌, ◌-◌};
ghost use Rattle.sch_link_program.specs.Definitions.{definition_of};
ghost use Rattle.sch_sketch.specs.DraftMeasures.{size, size_each};
ghost use Rattle.sch_sketch.specs.DraftView.{draft_of, drafts_of};
ghost use Rattle.sch_core.specs.SmallDefinitions.{is_small};

use sch_link_program::Definition;
use sch_sketch::Draft;

/// The most nodes and bound variables of a small definition. A node counts as one variable at most, where it is an
/// operand, and a bound variable as three: so no body in it has more than 999 variables.
const MAX_SMALL: usize = 333;

/// What is left of a budget of which each node of a draft takes one, and each variable that it binds. Where nothing is
/// left, no further node is looked at.
#[cycle(spending)]
fn spend(budget: usize, e: &Draft<'_>) -> usize
    ensures { result ≡ budget - size (draft_of e.now) }
{
    if budget == 0 {
        return 0;
    }
    let left = budget - 1;
    match e {
        Draft::Constant(_) => left,
        Draft::Symbol(_) => left,
        Draft::Literal(_) => left,
        Draft::Local(_) => left,
        Draft::Global(_) => left,
        Draft::SetLocal(_, e) => spend(left, e),
        Draft::SetGlobal(_, e) => spend(left, e),
        Draft::Define(_, e) => spend(left, e),
        Draft::If(a, b, c) => {
            let left = spend(left, a);
            let left = spend(left, b);
            spend(left, c)
        }
        Draft::Seq(es) => spend_each(left, es.as_slice()),
        Draft::Let(_, es, e) => {
            let left = left.saturating_sub(es.len());
            let left = spend_each(left, es.as_slice());
            spend(left, e)
        }
        Draft::Letrec(_, _, es, e) => {
            let left = left.saturating_sub(es.len());
            let left = spend_each(left, es.as_slice());
            spend(left, e)
        }
        Draft::Lambda(formals, _, e) => spend(left.saturating_sub(*formals), e),
        Draft::Call(_, f, es) => {
            let left = spend(left, f);
            spend_each(left, es.as_slice())
        }
        Draft::Prim(_, es) => spend_each(left, es.as_slice()),
    }
}

/// What is left of a budget after each of some drafts.
#[cycle(spending)]
fn spend_each(budget: usize, es: &[Draft<'_>]) -> usize
    ensures { result ≡ budget - size_each (drafts_of es.now) }
{
    let mut left = budget;
    for e in es {
        left = spend(left, e);
    }
    left
}

/// Whether a definition has at most 333 nodes and bound variables. It looks at no more nodes than that.
pub(crate) fn is_small(d: &Definition<'_>) -> bool
    ensures { result ≡ is_small (definition_of d.now) }
{
    let left = MAX_SMALL.saturating_sub(d.formals);
    spend(left, &d.body) > 0
}
