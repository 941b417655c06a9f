//! The places of what an operation reads.

ghost use Rattle.std.specs.Prelude.{◌≡◌, IfOk, take};
ghost use Rattle.sch_layout.specs.BodyLayout.{atom_at, atoms_at, operand_at, operands_at, source_at, sources_at, closure_at, member_at, members_at, operation_at};

use crate::variable_places::VariablePlaces;
use sch_control::{Atom, Closure, Member, Operand, Operation, Source};
use sch_word::{List, Mem, Place};
use std::alloc::Global;

fn atom_at<P: VariablePlaces>(places: &P, a: &Atom<u32>) -> Atom<Place>
    ensures { result ≡ atom_at (P.plan places.now).place a.now }
{
    match a {
        Atom::Constant(c) => Atom::Constant(*c),
        Atom::Literal(n) => Atom::Literal(*n),
        Atom::Variable(x) => Atom::Variable(places.place(*x)),
    }
}

fn atoms_at<P: VariablePlaces>(
    alloc: Global,
    places: &P,
    atoms: &[Atom<u32>],
) -> Result<List<Atom<Place>>, Mem>
    ensures { IfOk result (λ made. made ≡ atoms_at (P.plan places.now).place atoms.now) }
{
    let mut made = List::from_vec(Vec::with_capacity(alloc, atoms.len())?);
    for a in atoms {
        made.push(atom_at(places, a))?;
    }
    Ok(made)
}

/// An operand that reads the places of variables.
pub fn operand_at<P: VariablePlaces>(
    alloc: Global,
    places: &P,
    o: &Operand<u32>,
) -> Result<Operand<Place>, Mem>
    ensures { IfOk result (λ p. p ≡ operand_at (P.plan places.now).place o.now) }
{
    match o {
        Operand::Atom(a) => Ok(Operand::Atom(atom_at(places, a))),
        Operand::Read(site, which, atoms) => {
            let atoms = atoms_at(alloc, places, atoms.as_slice())?;
            Ok(Operand::Read(*site, *which, atoms))
        }
    }
}

fn operands_at<P: VariablePlaces>(
    alloc: Global,
    places: &P,
    operands: &[Operand<u32>],
) -> Result<List<Operand<Place>>, Mem>
    ensures { IfOk result (λ made. made ≡ operands_at (P.plan places.now).place operands.now) }
{
    let mut made = List::from_vec(Vec::with_capacity(alloc, operands.len())?);
    for o in operands {
        made.push(operand_at(alloc, places, o)?)?;
    }
    Ok(made)
}

fn source_at<P: VariablePlaces>(places: &P, c: &Source<u32>) -> Source<Place>
    ensures { result ≡ source_at (P.plan places.now).place c.now }
{
    match c {
        Source::Atom(a) => Source::Atom(atom_at(places, a)),
        Source::Field(x, k) => Source::Field(places.place(*x), *k),
    }
}

fn sources_at<P: VariablePlaces>(
    alloc: Global,
    places: &P,
    sources: &[Source<u32>],
) -> Result<List<Source<Place>>, Mem>
    ensures { IfOk result (λ made. made ≡ sources_at (P.plan places.now).place sources.now) }
{
    let mut made = List::from_vec(Vec::with_capacity(alloc, sources.len())?);
    for c in sources {
        made.push(source_at(places, c))?;
    }
    Ok(made)
}

fn closure_at<P: VariablePlaces>(
    alloc: Global,
    places: &P,
    c: &Closure<u32>,
) -> Result<Closure<Place>, Mem>
    ensures { IfOk result (λ d. d ≡ closure_at (P.plan places.now).place c.now) }
{
    let fields = sources_at(alloc, places, c.fields.as_slice())?;
    Ok(Closure {
        label: c.label,
        fields,
    })
}

fn member_at<P: VariablePlaces>(
    alloc: Global,
    places: &P,
    m: &Member<u32>,
) -> Result<Member<Place>, Mem>
    ensures { IfOk result (λ n. n ≡ member_at (P.plan places.now).place m.now) }
{
    let at = places.place(m.at);
    let closure = closure_at(alloc, places, &m.closure)?;
    Ok(Member { at, closure })
}

/// The members of a group, each put into the place of its variable.
pub(crate) fn members_at<P: VariablePlaces>(
    alloc: Global,
    places: &P,
    members: &[Member<u32>],
) -> Result<List<Member<Place>>, Mem>
    ensures { IfOk result (λ made. made ≡ members_at (P.plan places.now).place members.now) }
{
    let mut made = List::from_vec(Vec::with_capacity(alloc, members.len())?);
    for m in members {
        made.push(member_at(alloc, places, m)?)?;
    }
    Ok(made)
}

/// An operation that reads the places of variables.
pub(crate) fn operation_at<P: VariablePlaces>(
    alloc: Global,
    places: &P,
    o: &Operation<u32>,
) -> Result<Operation<Place>, Mem>
    ensures { IfOk result (λ p. p ≡ operation_at (P.plan places.now).place o.now) }
{
    match o {
        Operation::Operand(o) => Ok(Operation::Operand(operand_at(alloc, places, o)?)),
        Operation::Prim(site, which, operands) => {
            let operands = operands_at(alloc, places, operands.as_slice())?;
            Ok(Operation::Prim(*site, *which, operands))
        }
        Operation::Global(g) => Ok(Operation::Global(*g)),
        Operation::SetGlobal(g, o) => Ok(Operation::SetGlobal(*g, operand_at(alloc, places, o)?)),
        Operation::Field(x, k) => Ok(Operation::Field(places.place(*x), *k)),
        Operation::NewCell(c) => Ok(Operation::NewCell(source_at(places, c))),
        Operation::UnsetCell => Ok(Operation::UnsetCell),
        Operation::CellGet(c) => Ok(Operation::CellGet(source_at(places, c))),
        Operation::CellSet(c, o) => {
            let c = source_at(places, c);
            Ok(Operation::CellSet(c, operand_at(alloc, places, o)?))
        }
        Operation::MakeClosure(c) => Ok(Operation::MakeClosure(closure_at(alloc, places, c)?)),
    }
}
