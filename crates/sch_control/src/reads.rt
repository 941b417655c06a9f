//! The variables that operations and calls read.

ghost use Rattle.std.specs.Prelude.{◌≡◌, ◌*◌, ◌<◌, ℕ, true, ◌&&◌, not, nat_lt, [], ◌∷◌};
ghost use Rattle.std.specs.FinSet as set;
ghost use Rattle.std.specs.List.{list_all};
ghost use Rattle.sch_word.specs.trees.NumberSets.{has};
ghost use Rattle.sch_control.specs.AtomsAndSites as atoms;
ghost use Rattle.sch_control.specs.Valid.{member_variables};
ghost use Rattle.sch_control.specs.flow.Reads.{AtomsBelow, IsWith};

use crate::operation::{Application, Atom, Member, Operand, Operation, Source};
use sch_sets::Set;

fn read_atom<const N: usize>(a: &Atom<u32>, live: &mut Set<N>)
    requires { AtomsBelow (64 * N) (a.now ∷ []) }
    ensures { IsWith (a.now ∷ []) live.old live.new }
{
    if let Atom::Variable(x) = a {
        live.insert(*x);
    }
}

fn read_atoms<const N: usize>(atoms: &[Atom<u32>], live: &mut Set<N>)
    requires { AtomsBelow (64 * N) atoms.now }
    ensures { IsWith atoms.now live.old live.new }
{
    for a in atoms {
        read_atom(a, live);
    }
}

fn read_operand<const N: usize>(o: &Operand<u32>, live: &mut Set<N>)
    requires { AtomsBelow (64 * N) (atoms.operand_atoms o.now) }
    ensures { IsWith (atoms.operand_atoms o.now) live.old live.new }
{
    match o {
        Operand::Atom(a) => read_atom(a, live),
        Operand::Read(_, _, atoms) => read_atoms(atoms.as_slice(), live),
    }
}

fn read_operands<const N: usize>(operands: &[Operand<u32>], live: &mut Set<N>)
    requires { AtomsBelow (64 * N) (atoms.operands_atoms operands.now) }
    ensures { IsWith (atoms.operands_atoms operands.now) live.old live.new }
{
    for o in operands {
        read_operand(o, live);
    }
}

fn read_source<const N: usize>(s: &Source<u32>, live: &mut Set<N>)
    requires { AtomsBelow (64 * N) (atoms.source_atom s.now ∷ []) }
    ensures { IsWith (atoms.source_atom s.now ∷ []) live.old live.new }
{
    match s {
        Source::Atom(a) => read_atom(a, live),
        Source::Field(x, _) => live.insert(*x),
    }
}

fn read_sources<const N: usize>(sources: &[Source<u32>], live: &mut Set<N>)
    requires { AtomsBelow (64 * N) (atoms.source_atoms sources.now) }
    ensures { IsWith (atoms.source_atoms sources.now) live.old live.new }
{
    for s in sources {
        read_source(s, live);
    }
}

/// Adds the variables that an operation reads.
pub fn read_operation<const N: usize>(o: &Operation<u32>, live: &mut Set<N>)
    requires { AtomsBelow (64 * N) (atoms.operation_atoms o.now) }
    ensures { IsWith (atoms.operation_atoms o.now) live.old live.new }
{
    match o {
        Operation::Operand(o) => read_operand(o, live),
        Operation::Prim(_, _, operands) => read_operands(operands.as_slice(), live),
        Operation::Global(_) => {}
        Operation::SetGlobal(_, o) => read_operand(o, live),
        Operation::Field(x, _) => live.insert(*x),
        Operation::NewCell(s) => read_source(s, live),
        Operation::UnsetCell => {}
        Operation::CellGet(s) => read_source(s, live),
        Operation::CellSet(s, o) => {
            read_source(s, live);
            read_operand(o, live);
        }
        Operation::MakeClosure(c) => read_sources(c.fields.as_slice(), live),
    }
}

/// Adds the variables that a call reads.
pub fn read_application<const N: usize>(a: &Application<u32>, live: &mut Set<N>)
    requires { AtomsBelow (64 * N) (atoms.application_atoms a.now) }
    ensures { IsWith (atoms.application_atoms a.now) live.old live.new }
{
    read_operand(&a.operator, live);
    read_operands(a.operands.as_slice(), live);
}

/// Adds the variables that the closures of a group capture.
pub fn read_members<const N: usize>(members: &[Member<u32>], live: &mut Set<N>)
    requires { AtomsBelow (64 * N) (atoms.member_atoms members.now) }
    ensures { IsWith (atoms.member_atoms members.now) live.old live.new }
{
    for m in members {
        read_sources(m.closure.fields.as_slice(), live);
    }
}

/// Takes out the variables of a group.
pub fn remove_members<const N: usize>(members: &[Member<u32>], live: &mut Set<N>)
    requires { list_all (λ x. nat_lt x (64 * N)) (member_variables members.now) ≡ true }
    ensures { (x : ℕ) → set.contains live.new x ≡ (not (has x (member_variables members.now)) && set.contains live.old x) }
{
    for m in members {
        live.remove(m.at);
    }
}
