//! Which parts of a flat program are bound at each of its sites.

ghost use Rattle.std.specs.Prelude.{◌≡◌, ◌≤◌, ◌<◌, ◌+◌, ◌^◌, ◌++◌, ℕ, [], List, map, replicate, slice_set, IfOk, OnOk};
ghost use Rattle.sch_word.specs.trees.Bindings.{numbers};
ghost use Rattle.sch_word.specs.trees.Shape.{max_operands};
ghost use Rattle.sch_flat.specs.ProgramView.{source};
ghost use Rattle.sch_flat.specs.Tree.{and_tree, count, no_trees};
ghost use Rattle.sch_flat.specs.View.{body, tree, trees_of};
ghost use Rattle.sch_anf_laws.specs.Normal as normal;
ghost use Rattle.sch_anf.specs.FewParts.{BodiesHaveFewParts, HasFewParts, HaveFewParts};
ghost use Rattle.sch_anf.specs.Placed.{placed, placed_bodies, placed_each};

use crate::simple::is_simple;
use sch_flat::{Body, Exp, FlatProgram};
use sch_word::{List, Mem};
use std::alloc::Global;

// Sets what is bound at a site, if there is one of that number.
fn set_places(bound: &mut Vec<List<u32>>, site: u32, places: List<u32>)
    ensures { bound.new.items ≡ slice_set bound.old.items site places }
{
    if (site as usize) < bound.len() {
        bound[site as usize] = places;
    }
}

// Adds a place where the part is not simple.
fn add_place(place: u32, e: &Exp, all: &mut List<u32>) -> Result<(), Mem>
    ensures { OnOk result ((last : List ℕ) → all.new ++ last ≡ all.old ++ normal.bound_places place (and_tree (tree e.now) no_trees) last) }
{
    if is_simple(e) {
        return Ok(());
    }
    all.push(place)
}

// Adds the places of the parts that are not simple, from one on.
#[tactic(auto, using(sch_flat::proofs::Rows::count_is))]
fn add_places(first: u32, es: &List<Exp>, all: &mut List<u32>) -> Result<(), Mem>
    requires few { first + count (trees_of es.now) < 2 ^ 32 }
    ensures { OnOk result ((last : List ℕ) → all.new ++ last ≡ all.old ++ normal.bound_places first (trees_of es.now) last) }
{
    let mut place = first;
    for e in es.as_slice() {
        add_place(place, e, all)?;
        place += 1;
    }
    Ok(())
}

// The parts of an operation that are bound.
fn operation_places(alloc: Global, es: &List<Exp>) -> Result<List<u32>, Mem>
    requires few { count (trees_of es.now) ≤ max_operands }
    ensures { IfOk result (λ all. all ≡ normal.bound_places 0 (trees_of es.now) []) }
{
    let mut all = List::new(alloc);
    add_places(0, es, &mut all)?;
    Ok(all)
}

// The parts of a call that are bound. The operator is the last.
fn call_places(alloc: Global, f: &Exp, es: &List<Exp>) -> Result<List<u32>, Mem>
    requires few { count (trees_of es.now) ≤ max_operands }
    ensures { IfOk result (λ all. all ≡ normal.bound_places 1 (trees_of es.now) (normal.operator_place (tree f.now))) }
{
    let mut all = List::new(alloc);
    add_places(1, es, &mut all)?;
    add_place(0, f, &mut all)?;
    Ok(all)
}

// All parts of a binding.
#[tactic(auto, using(sch_flat::proofs::Rows::count_is))]
fn init_places(alloc: Global, es: &List<Exp>) -> Result<List<u32>, Mem>
    requires few { count (trees_of es.now) ≤ max_operands }
    ensures { IfOk result (λ all. all ≡ numbers 0 (count (trees_of es.now))) }
{
    let mut all = List::from_vec(Vec::with_capacity(alloc, es.len())?);
    for place in 0..es.len() {
        all.push(place as u32)?;
    }
    Ok(all)
}

// Records which parts of an expression are bound at each of its sites.
#[cycle(placing)]
fn place_expression(alloc: Global, e: &Exp, bound: &mut Vec<List<u32>>) -> Result<(), Mem>
    requires few { HasFewParts (tree e.now) }
    ensures { OnOk result (bound.new.items ≡ placed (tree e.now) bound.old.items) }
{
    match e {
        Exp::Constant(_) | Exp::Literal(_) | Exp::Var(_) | Exp::Global(_) => Ok(()),
        Exp::MakeClosure(_) | Exp::CellGet(_) => Ok(()),
        Exp::SetGlobal(_, value) | Exp::Define(_, value) | Exp::CellSet(_, value) => {
            place_expression(alloc, value, bound)
        }
        Exp::If(test, yes, no) => {
            place_expression(alloc, no, bound)?;
            place_expression(alloc, yes, bound)?;
            place_expression(alloc, test, bound)
        }
        Exp::Seq(parts) => place_each(alloc, parts, bound),
        Exp::Let {
            site,
            inits,
            body,
            ..
        } => {
            place_expression(alloc, body, bound)?;
            place_each(alloc, inits, bound)?;
            set_places(bound, *site, init_places(alloc, inits)?);
            Ok(())
        }
        Exp::FixClosures { body, .. } | Exp::NewCells(_, body) => {
            place_expression(alloc, body, bound)
        }
        Exp::Call {
            site,
            operator,
            operands,
            ..
        } => {
            place_each(alloc, operands, bound)?;
            place_expression(alloc, operator, bound)?;
            set_places(bound, *site, call_places(alloc, operator, operands)?);
            Ok(())
        }
        Exp::Prim(site, _, operands) => {
            place_each(alloc, operands, bound)?;
            set_places(bound, *site, operation_places(alloc, operands)?);
            Ok(())
        }
    }
}

// The same for each of some expressions, from the last to the first.
#[cycle(placing)]
fn place_each(alloc: Global, es: &List<Exp>, bound: &mut Vec<List<u32>>) -> Result<(), Mem>
    requires few { HaveFewParts (trees_of es.now) }
    ensures { OnOk result (bound.new.items ≡ placed_each (trees_of es.now) bound.old.items) }
{
    let items = es.as_slice();
    let mut left = items.len();
    while left > 0 {
        left -= 1;
        place_expression(alloc, &items[left], bound)?;
    }
    Ok(())
}

// A table with nothing bound at each of `sites` sites.
fn nothing_bound(alloc: Global, sites: usize) -> Result<Vec<List<u32>>, Mem>
    ensures { IfOk result (λ bound. bound.items ≡ replicate sites []) }
{
    let mut bound = Vec::with_capacity(alloc, sites)?;
    for done in 0..sites {
        bound.push(List::new(alloc))?;
    }
    Ok(bound)
}

// The same for each of some bodies.
fn place_bodies(alloc: Global, bodies: &[Body], bound: &mut Vec<List<u32>>) -> Result<(), Mem>
    requires few { BodiesHaveFewParts (map body bodies.now) }
    ensures { OnOk result (bound.new.items ≡ placed_bodies (map body bodies.now) bound.old.items) }
{
    let mut left = bodies.len();
    while left > 0 {
        left -= 1;
        place_expression(alloc, &bodies[left].code, bound)?;
    }
    Ok(())
}

/// The numbers of the parts that are bound at each site of `p`, in the order in which they are bound.
pub fn bound_parts(alloc: Global, p: &FlatProgram) -> Result<List<List<u32>>, Mem>
    ensures { IfOk result (λ bound. bound ≡ normal.bound_parts (source p.now)) }
{
    let mut bound = nothing_bound(alloc, p.sites.len())?;
    place_each(alloc, &p.forms, &mut bound)?;
    place_bodies(alloc, p.bodies.as_slice(), &mut bound)?;
    Ok(List::from_vec(bound))
}
