//! Copies of what a body is made of, for a pass that builds its answer beside its argument.

ghost use Rattle.std.specs.Prelude.{◌≡◌, IfOk};

use crate::operation::{Application, Closure, Member, Operand, Operation};
use sch_word::{List, Mem};
use std::alloc::Global;

fn copy_operand(alloc: Global, o: &Operand<u32>) -> Result<Operand<u32>, Mem>
    ensures { IfOk result (λ made. made ≡ o.now) }
{
    match o {
        Operand::Atom(a) => Ok(Operand::Atom(*a)),
        Operand::Read(site, which, atoms) => {
            let atoms = List::from_slice(alloc, atoms.as_slice())?;
            Ok(Operand::Read(*site, *which, atoms))
        }
    }
}

fn copy_operands(alloc: Global, os: &List<Operand<u32>>) -> Result<List<Operand<u32>>, Mem>
    ensures { IfOk result (λ made. made ≡ os.now) }
{
    let mut all = List::from_vec(Vec::with_capacity(alloc, os.len())?);
    for o in os.as_slice() {
        all.push(copy_operand(alloc, o)?)?;
    }
    Ok(all)
}

fn copy_closure(alloc: Global, c: &Closure<u32>) -> Result<Closure<u32>, Mem>
    ensures { IfOk result (λ made. made ≡ c.now) }
{
    let fields = List::from_slice(alloc, c.fields.as_slice())?;
    Ok(Closure {
        label: c.label,
        fields,
    })
}

fn copy_member(alloc: Global, m: &Member<u32>) -> Result<Member<u32>, Mem>
    ensures { IfOk result (λ made. made ≡ m.now) }
{
    let closure = copy_closure(alloc, &m.closure)?;
    Ok(Member { at: m.at, closure })
}

/// A copy of a group.
pub(crate) fn copy_members(
    alloc: Global,
    members: &List<Member<u32>>,
) -> Result<List<Member<u32>>, Mem>
    ensures { IfOk result (λ made. made ≡ members.now) }
{
    let mut all = List::from_vec(Vec::with_capacity(alloc, members.len())?);
    for m in members.as_slice() {
        all.push(copy_member(alloc, m)?)?;
    }
    Ok(all)
}

/// A copy of an operation.
pub(crate) fn copy_operation(alloc: Global, o: &Operation<u32>) -> Result<Operation<u32>, Mem>
    ensures { IfOk result (λ made. made ≡ o.now) }
{
    match o {
        Operation::Operand(o) => Ok(Operation::Operand(copy_operand(alloc, o)?)),
        Operation::Prim(site, which, operands) => {
            let operands = copy_operands(alloc, operands)?;
            Ok(Operation::Prim(*site, *which, operands))
        }
        Operation::Global(g) => Ok(Operation::Global(*g)),
        Operation::SetGlobal(g, o) => Ok(Operation::SetGlobal(*g, copy_operand(alloc, o)?)),
        Operation::Field(v, k) => Ok(Operation::Field(*v, *k)),
        Operation::NewCell(s) => Ok(Operation::NewCell(*s)),
        Operation::UnsetCell => Ok(Operation::UnsetCell),
        Operation::CellGet(s) => Ok(Operation::CellGet(*s)),
        Operation::CellSet(s, o) => Ok(Operation::CellSet(*s, copy_operand(alloc, o)?)),
        Operation::MakeClosure(c) => Ok(Operation::MakeClosure(copy_closure(alloc, c)?)),
    }
}

/// A copy of an application.
pub fn copy_application(alloc: Global, a: &Application<u32>) -> Result<Application<u32>, Mem>
    ensures { IfOk result (λ made. made ≡ a.now) }
{
    let operator = copy_operand(alloc, &a.operator)?;
    let operands = copy_operands(alloc, &a.operands)?;
    Ok(Application {
        site: a.site,
        spread: a.spread,
        operator,
        operands,
    })
}
