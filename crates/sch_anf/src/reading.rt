//! What is done with variables alone: reads, the record of a procedure, and new cells.

ghost use Rattle.std.specs.Prelude.{◌≡◌, ◌+◌, ◌<◌, ◌^◌, [], map, length, IfOk};
ghost use Rattle.std.specs.List.Sorted.{IsNonDecreasing};
ghost use Rattle.sch_flat.specs.Tree.{variable};
ghost use Rattle.sch_flat.specs.View.{made, new_cell, used};
ghost use Rattle.sch_control.specs.declared.operation.Operand.TheVariants as operand;
ghost use Rattle.sch_control.specs.declared.operation.Operation.TheVariants as does;
ghost use Rattle.sch_control.specs.Tree.{perform};
ghost use Rattle.sch_control.specs.View.{expression};
ghost use Rattle.sch_anf_laws.specs.Normal.{finished, normal, with_new_cells};
ghost use Rattle.sch_anf_laws.specs.Normal as specs;
ghost use Rattle.sch_anf.specs.ScopeTable.{scope_of};
ghost use Rattle.sch_anf.specs.Steps.{Adds};

use crate::after::finish;
use crate::operands::{cell_operation, closure_of, source_of};
use crate::steps::Step;
use crate::variables::Variables;
use sch_control as control;
use sch_control::{Atom, Operand, Operation};
use sch_flat::{Made, NewCell, Variable};
use sch_word::{List, Mem};
use std::alloc::Global;

/// The value of an atom.
#[inline(never)]
pub fn read_atom(alloc: Global, tail: bool, a: Atom<u32>) -> Result<Box<control::Exp<()>>, Mem>
    ensures { IfOk result (λ q. expression q.value ≡ finished tail (perform (does.Operand (operand.Atom a)))) }
{
    finish(alloc, tail, Operation::Operand(Operand::Atom(a)))
}

/// The value of a variable, or of a field of the record.
#[inline(never)]
pub fn read_variable(
    alloc: Global,
    tail: bool,
    x: Variable,
    v: &Variables,
) -> Result<Box<control::Exp<()>>, Mem>
    ensures { IfOk result (λ q. expression q.value ≡ normal [] tail (variable (used x)) (scope_of v.now.bound.items) 0) }
{
    match x {
        Variable::Bound(x) => read_atom(alloc, tail, Atom::Variable(v.number(x))),
        Variable::Free(k) => finish(alloc, tail, Operation::Field(1, k)),
    }
}

/// The value of a global.
#[inline(never)]
pub fn read_global(alloc: Global, tail: bool, g: u32) -> Result<Box<control::Exp<()>>, Mem>
    ensures { IfOk result (λ q. expression q.value ≡ finished tail (perform (does.Global g))) }
{
    finish(alloc, tail, Operation::Global(g))
}

/// The value in a cell.
#[inline(never)]
pub fn read_cell(
    alloc: Global,
    tail: bool,
    x: Variable,
    v: &Variables,
) -> Result<Box<control::Exp<()>>, Mem>
    ensures { IfOk result (λ q. expression q.value ≡ finished tail (perform (does.CellGet (specs.source_of (scope_of v.now.bound.items) (used x))))) }
{
    finish(alloc, tail, Operation::CellGet(source_of(x, v)))
}

/// The record of a procedure.
#[inline(never)]
pub fn make_closure(
    alloc: Global,
    starts: &[u32],
    tail: bool,
    m: &Made,
    v: &Variables,
) -> Result<Box<control::Exp<()>>, Mem>
    requires sorted { IsNonDecreasing starts.now }
    requires labels { m.now.label + length starts.now < 2 ^ 32 }
    ensures { IfOk result (λ q. expression q.value ≡
        finished tail (perform (does.MakeClosure (specs.closure_of starts.now (scope_of v.now.bound.items) (made m.now))))) }
{
    let closure = closure_of(alloc, starts, m, v)?;
    finish(alloc, tail, Operation::MakeClosure(closure))
}

/// New cells, one after another, in variables that are not yet taken.
#[inline(never)]
pub fn make_cells(alloc: Global, cells: &List<NewCell>, v: &Variables) -> Result<Vec<Step>, Mem>
    requires { v.now.next + length (map new_cell cells.now) < 2 ^ 32 }
    ensures { IfOk result (λ steps. Adds [] steps.items (with_new_cells (scope_of v.now.bound.items) (map new_cell cells.now) v.now.next)) }
{
    let mut steps = Vec::with_capacity(alloc, cells.len())?;
    let mut at = v.next;
    for cell in cells.as_slice() {
        let value = Box::new(alloc, control::Exp::Do(cell_operation(cell, v)))?;
        steps.push(Step {
            variable: Some(at),
            value,
        })?;
        at += 1;
    }
    Ok(steps)
}
