//! What is done after some steps. It is made by functions of its own, so that the frames of a walk stay small.

ghost use Rattle.std.specs.Prelude.{◌≡◌, IfOk};
ghost use Rattle.sch_control.specs.declared.operation.Operation.TheVariants as does;
ghost use Rattle.sch_control.specs.Tree.{branch, fix, perform};
ghost use Rattle.sch_control.specs.View.{expression};
ghost use Rattle.sch_anf_laws.specs.Normal.{called, finished};
ghost use Rattle.sch_anf.specs.Steps.{after};

use crate::steps::{Step, put_after};
use sch_control as control;
use sch_control::{Application, Member, Operand, Operation, Source};
use sch_word::{List, Mem, Primitive};
use std::alloc::Global;

// An operation, which ends a body in a tail context with its value.
#[inline(never)]
pub(crate) fn finish(
    alloc: Global,
    tail: bool,
    o: Operation<u32>,
) -> Result<Box<control::Exp<()>>, Mem>
    ensures { IfOk result (λ q. expression q.value ≡ finished tail (perform o)) }
{
    let o = Box::new(alloc, control::Exp::Do(o))?;
    if tail {
        Ok(Box::new(alloc, control::Exp::Return(o))?)
    } else {
        Ok(o)
    }
}

// An operation after some steps.
fn finish_after(
    alloc: Global,
    tail: bool,
    steps: Vec<Step>,
    o: Operation<u32>,
) -> Result<Box<control::Exp<()>>, Mem>
    ensures { IfOk result (λ q. expression q.value ≡ after steps.items (finished tail (perform o))) }
{
    let e = finish(alloc, tail, o)?;
    put_after(alloc, steps, e)
}

/// A primitive over operands, after some steps.
#[inline(never)]
pub fn apply_after(
    alloc: Global,
    tail: bool,
    steps: Vec<Step>,
    applied: (u32, Primitive),
    operands: List<Operand<u32>>,
) -> Result<Box<control::Exp<()>>, Mem>
    ensures { IfOk result (λ q. expression q.value ≡ after steps.items (finished tail (perform (does.Prim applied.0 applied.1 operands)))) }
{
    let (site, which) = applied;
    finish_after(alloc, tail, steps, Operation::Prim(site, which, operands))
}

/// A global that gets the value of an operand, after some steps.
#[inline(never)]
pub fn set_after(
    alloc: Global,
    tail: bool,
    steps: Vec<Step>,
    global: u32,
    value: Operand<u32>,
) -> Result<Box<control::Exp<()>>, Mem>
    ensures { IfOk result (λ q. expression q.value ≡ after steps.items (finished tail (perform (does.SetGlobal global value)))) }
{
    finish_after(alloc, tail, steps, Operation::SetGlobal(global, value))
}

/// A cell that gets the value of an operand, after some steps.
#[inline(never)]
pub fn fill_after(
    alloc: Global,
    tail: bool,
    steps: Vec<Step>,
    cell: Source<u32>,
    value: Operand<u32>,
) -> Result<Box<control::Exp<()>>, Mem>
    ensures { IfOk result (λ q. expression q.value ≡ after steps.items (finished tail (perform (does.CellSet cell value)))) }
{
    finish_after(alloc, tail, steps, Operation::CellSet(cell, value))
}

/// Which call it is, whether its last operand is spread, and whether it stands in a tail context.
#[derive(Clone, Copy)]
pub struct Kind {
    pub site: u32,
    pub spread: bool,
    pub tail: bool,
}

/// A call of an operator with operands, after some steps.
#[inline(never)]
pub fn call_after(
    alloc: Global,
    steps: Vec<Step>,
    kind: Kind,
    operator: Operand<u32>,
    operands: List<Operand<u32>>,
) -> Result<Box<control::Exp<()>>, Mem>
    ensures { IfOk result (λ q. expression q.value ≡
        after steps.items (called kind.tail (record { site = kind.site; spread = kind.spread; operator = operator; operands = operands }))) }
{
    let a = Application {
        site: kind.site,
        spread: kind.spread,
        operator,
        operands,
    };
    let e = if kind.tail {
        control::Exp::TailCall(a)
    } else {
        control::Exp::Call(a, ())
    };
    let e = Box::new(alloc, e)?;
    put_after(alloc, steps, e)
}

/// A choice.
#[inline(never)]
pub fn branch_of(
    alloc: Global,
    test: Box<control::Exp<()>>,
    yes: Box<control::Exp<()>>,
    no: Box<control::Exp<()>>,
) -> Result<Box<control::Exp<()>>, Mem>
    ensures { IfOk result (λ q. expression q.value ≡ branch (expression test.value) (expression yes.value) (expression no.value)) }
{
    Ok(Box::new(alloc, control::Exp::If(test, yes, no))?)
}

/// A group of closures.
#[inline(never)]
pub fn group_of(
    alloc: Global,
    members: List<Member<u32>>,
    body: Box<control::Exp<()>>,
) -> Result<Box<control::Exp<()>>, Mem>
    ensures { IfOk result (λ q. expression q.value ≡ fix members (expression body.value)) }
{
    Ok(Box::new(alloc, control::Exp::Fix(members, body))?)
}
