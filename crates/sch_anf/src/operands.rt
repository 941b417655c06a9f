//! What stands for variables and simple parts of a flat body, and for the labels of bodies.

ghost use Rattle.std.specs.Prelude.{◌≡◌, ◌+◌, ◌<◌, ◌^◌, ℕ, map, length, slice_index, IfOk};
ghost use Rattle.std.specs.List.Sorted.{IsNonDecreasing};
ghost use Rattle.sch_flat.specs.View.{made, new_cell, tree, trees_of, used};
ghost use Rattle.sch_anf_laws.specs.LabelsFit.{LabelsOfMade};
ghost use Rattle.sch_anf_laws.specs.Normal as normal;
ghost use Rattle.sch_anf.specs.ScopeTable.{scope_of};

use crate::variables::Variables;
use sch_control::{Atom, Closure, Member, Operand, Operation, Source};
use sch_flat::{Exp, Made, NewCell, Variable};
use sch_word::{List, Mem};
use std::alloc::Global;

// The atom that an expression is, where it is one.
fn atom_of(e: &Exp, v: &Variables) -> Atom<u32>
    ensures { result ≡ normal.atom_of (scope_of v.now.bound.items) (tree e.now) }
{
    match e {
        Exp::Constant(c) => Atom::Constant(*c),
        Exp::Literal(k) => Atom::Literal(*k),
        Exp::Var(Variable::Bound(x)) => Atom::Variable(v.number(*x)),
        _ => Atom::Variable(0),
    }
}

fn atoms_of(alloc: Global, es: &List<Exp>, v: &Variables) -> Result<List<Atom<u32>>, Mem>
    ensures { IfOk result (λ atoms. atoms ≡ normal.atoms_of (scope_of v.now.bound.items) (trees_of es.now)) }
{
    let mut all = List::from_vec(Vec::with_capacity(alloc, es.len())?);
    for e in es.as_slice() {
        all.push(atom_of(e, v))?;
    }
    Ok(all)
}

/// The operand that an expression is, where it is simple.
pub fn simple_operand(alloc: Global, e: &Exp, v: &Variables) -> Result<Operand<u32>, Mem>
    ensures { IfOk result (λ o. o ≡ normal.simple_operand (scope_of v.now.bound.items) (tree e.now)) }
{
    match e {
        Exp::Prim(site, which, es) => {
            let atoms = atoms_of(alloc, es, v)?;
            Ok(Operand::Read(*site, *which, atoms))
        }
        _ => Ok(Operand::Atom(atom_of(e, v))),
    }
}

/// A variable of the body, or a field of the closure in variable 1.
pub fn source_of(x: Variable, v: &Variables) -> Source<u32>
    ensures { result ≡ normal.source_of (scope_of v.now.bound.items) (used x) }
{
    match x {
        Variable::Bound(x) => Source::Atom(Atom::Variable(v.number(x))),
        Variable::Free(k) => Source::Field(1, k),
    }
}

/// What a new cell is.
pub fn cell_operation(cell: &NewCell, v: &Variables) -> Operation<u32>
    ensures { result ≡ normal.cell_operation (scope_of v.now.bound.items) ((new_cell cell.now).content) }
{
    match cell.content {
        None => Operation::UnsetCell,
        Some(x) => Operation::NewCell(source_of(x, v)),
    }
}

/// The label that a body has among those of procedures and forms.
fn new_label(starts: &[u32], label: u32) -> u32
    requires sorted { IsNonDecreasing starts.now }
    requires few { label + length starts.now < 2 ^ 32 }
    ensures { result ≡ normal.new_label starts.now label }
{
    label + starts.partition_point(|start| *start <= label) as u32
}

/// Where some bodies stand among those of procedures and forms.
pub fn new_labels(alloc: Global, starts: &[u32], labels: &[u32]) -> Result<List<u32>, Mem>
    requires sorted { IsNonDecreasing starts.now }
    requires few { (k : ℕ) → k < length labels.now → slice_index labels.now k + length starts.now < 2 ^ 32 }
    ensures { IfOk result (λ all. all ≡ map (normal.new_label starts.now) labels.now) }
{
    let mut all = List::from_vec(Vec::with_capacity(alloc, labels.len())?);
    for label in labels {
        all.push(new_label(starts, *label))?;
    }
    Ok(all)
}

fn gather_sources(alloc: Global, xs: &[Variable], v: &Variables) -> Result<Vec<Source<u32>>, Mem>
    ensures { IfOk result (λ all. all.items ≡ map (λ x. normal.source_of (scope_of v.now.bound.items) (used x)) xs.now) }
{
    Ok(xs.iter().map(|x| source_of(*x, v)).collect(alloc)?)
}

fn sources_of(alloc: Global, xs: &[Variable], v: &Variables) -> Result<List<Source<u32>>, Mem>
    ensures { IfOk result (λ all. all ≡ map (normal.source_of (scope_of v.now.bound.items)) (map used xs.now)) }
{
    let all = gather_sources(alloc, xs, v)?;
    Ok(List::from_vec(all))
}

/// A closure that is made.
pub fn closure_of(
    alloc: Global,
    starts: &[u32],
    m: &Made,
    v: &Variables,
) -> Result<Closure<u32>, Mem>
    requires sorted { IsNonDecreasing starts.now }
    requires labels { m.now.label + length starts.now < 2 ^ 32 }
    ensures { IfOk result (λ q. q ≡ normal.closure_of starts.now (scope_of v.now.bound.items) (made m.now)) }
{
    let fields = sources_of(alloc, m.fields.as_slice(), v)?;
    Ok(Closure {
        label: new_label(starts, m.label),
        fields,
    })
}

/// A group of closures, each in a variable of its own from one on.
pub fn members_of(
    alloc: Global,
    starts: &[u32],
    ms: &List<Made>,
    first: u32,
    v: &Variables,
) -> Result<List<Member<u32>>, Mem>
    requires sorted { IsNonDecreasing starts.now }
    requires labels { LabelsOfMade (length starts.now) (map made ms.now) }
    requires few { first + length (map made ms.now) < 2 ^ 32 }
    ensures { IfOk result (λ q. q ≡ normal.members_of starts.now (scope_of v.now.bound.items) (map made ms.now) first) }
{
    let mut all = List::from_vec(Vec::with_capacity(alloc, ms.len())?);
    let mut at = first;
    for m in ms.as_slice() {
        let closure = closure_of(alloc, starts, m, v)?;
        all.push(Member { at, closure })?;
        at += 1;
    }
    Ok(all)
}
