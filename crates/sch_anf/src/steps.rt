//! What stands before an expression: values that are bound or dropped, the first outermost.

ghost use Rattle.std.specs.Prelude.{◌≡◌, true, IfOk};
ghost use Rattle.sch_control.specs.View.{expression};
ghost use Rattle.sch_anf.specs.Steps.{after, before};

use sch_control::Exp;
use sch_word::Mem;
use std::alloc::Global;

/// A value that is bound to a variable, or that is dropped where there is none.
#[derive(Drop)]
pub struct Step {
    pub variable: Option<u32>,
    pub value: Box<Exp<()>>,
}

// The expression after one step.
fn put_before(alloc: Global, step: Step, body: Box<Exp<()>>) -> Result<Box<Exp<()>>, Mem>
    ensures { IfOk result (λ q. expression q.value ≡ before step (expression body.value)) }
{
    let Step { variable, value } = step;
    let whole = match variable {
        Some(x) => Exp::Bind(x, value, body),
        None => Exp::Seq(value, body),
    };
    Ok(Box::new(alloc, whole)?)
}

/// The expression after some steps.
#[inline(never)]
pub fn put_after(alloc: Global, steps: Vec<Step>, body: Box<Exp<()>>) -> Result<Box<Exp<()>>, Mem>
    ensures { IfOk result (λ q. expression q.value ≡ after steps.items (expression body.value)) }
{
    let mut left = steps;
    let mut whole = body;
    while let Some(step) = left.pop() {
        whole = put_before(alloc, step, whole)?;
    }
    Ok(whole)
}
