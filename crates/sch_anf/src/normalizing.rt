//! Expressions in which every operand is simple: what is not is bound before.

ghost use Rattle.std.specs.Prelude.{◌+◌, ◌<◌, ◌^◌, suc, cond, length, IfOk, OnOk};
ghost use Rattle.std.specs.List.Sorted.{IsNonDecreasing};
ghost use Rattle.sch_flat.specs.View.{tree, trees_of};
ghost use Rattle.sch_control.specs.View.{expression};
ghost use Rattle.sch_anf_laws.specs.LabelsFit.{LabelsFit, LabelsFitEach};
ghost use Rattle.sch_anf_laws.specs.Normal.{binds, binds_parts, inits_bind, operand_binds, operands_bind};
ghost use Rattle.sch_anf_laws.specs.Normal as specs;
ghost use Rattle.sch_anf.specs.Kinds.{IsIf, IsLet, IsGroup, IsCall, IsCells};
ghost use Rattle.sch_anf.specs.Walked.{BindsPart, DropsPart, Normalizes, NormalizesEachOperand, NormalizesInits, NormalizesOperand, NormalizesSequence};

use crate::after::{Kind, apply_after, branch_of, call_after, fill_after, group_of, set_after};
use crate::operands::{members_of, simple_operand, source_of};
use crate::reading::{make_cells, make_closure, read_atom, read_cell, read_global, read_variable};
use crate::simple::{ends_in_call, is_bare_atom, is_simple};
use crate::steps::{Step, put_after};
use crate::variables::Variables;
use sch_control as control;
use sch_control::{Atom, Operand};
use sch_flat::Exp;
use sch_word::{Const, List, Mem};
use std::alloc::Global;

/// The expression in which every operand is simple.
#[cycle(normalizing)]
pub fn normalize_expression(
    alloc: Global,
    starts: &[u32],
    e: &Exp,
    tail: bool,
    v: &mut Variables,
) -> Result<Box<control::Exp<()>>, Mem>
    requires sorted { IsNonDecreasing starts.now }
    requires labels { LabelsFit (length starts.now) (tree e.now) }
    requires few { v.old.next + binds (tree e.now) < 2 ^ 32 }
    ensures { IfOk result (λ q. Normalizes starts.now tail (tree e.now) v.old v.new (expression q.value)) }
{
    match e {
        Exp::Constant(c) => read_atom(alloc, tail, Atom::Constant(*c)),
        Exp::Literal(k) => read_atom(alloc, tail, Atom::Literal(*k)),
        Exp::Var(x) => read_variable(alloc, tail, *x, v),
        Exp::Global(g) => read_global(alloc, tail, *g),
        Exp::SetGlobal(g, value) | Exp::Define(g, value) => {
            let mut steps = Vec::new(alloc);
            let value = normalize_part(alloc, starts, value, v, &mut steps)?;
            set_after(alloc, tail, steps, *g, value)
        }
        Exp::If(_, _, _) => normalize_if(alloc, starts, e, tail, v),
        Exp::Seq(parts) => normalize_parts(alloc, starts, parts, tail, v),
        Exp::Let { .. } => normalize_let(alloc, starts, e, tail, v),
        Exp::MakeClosure(m) => make_closure(alloc, starts, tail, m, v),
        Exp::FixClosures { .. } => normalize_group(alloc, starts, e, tail, v),
        Exp::Call { .. } => normalize_call(alloc, starts, e, tail, v),
        Exp::Prim(site, which, operands) => {
            let mut steps = Vec::new(alloc);
            let operands = normalize_operands(alloc, starts, operands, v, &mut steps)?;
            apply_after(alloc, tail, steps, (*site, *which), operands)
        }
        Exp::NewCells(_, _) => normalize_cells(alloc, starts, e, tail, v),
        Exp::CellGet(x) => read_cell(alloc, tail, *x, v),
        Exp::CellSet(x, value) => {
            let cell = source_of(*x, v);
            let mut steps = Vec::new(alloc);
            let value = normalize_part(alloc, starts, value, v, &mut steps)?;
            fill_after(alloc, tail, steps, cell, value)
        }
    }
}

// The same for an If. As functions of their own, this and the next four keep the frames of the walk small.
#[cycle(normalizing)]
fn normalize_if(
    alloc: Global,
    starts: &[u32],
    e: &Exp,
    tail: bool,
    v: &mut Variables,
) -> Result<Box<control::Exp<()>>, Mem>
    requires kind { IsIf (tree e.now) }
    requires sorted { IsNonDecreasing starts.now }
    requires labels { LabelsFit (length starts.now) (tree e.now) }
    requires few { v.old.next + binds (tree e.now) < 2 ^ 32 }
    ensures { IfOk result (λ q. Normalizes starts.now tail (tree e.now) v.old v.new (expression q.value)) }
{
    let Exp::If(test, yes, no) = e else {
        unreachable!();
    };
    let test = normalize_expression(alloc, starts, test, false, v)?;
    let yes = normalize_expression(alloc, starts, yes, tail, v)?;
    let no = normalize_expression(alloc, starts, no, tail, v)?;
    branch_of(alloc, test, yes, no)
}

// The same for a Let.
#[cycle(normalizing)]
fn normalize_let(
    alloc: Global,
    starts: &[u32],
    e: &Exp,
    tail: bool,
    v: &mut Variables,
) -> Result<Box<control::Exp<()>>, Mem>
    requires kind { IsLet (tree e.now) }
    requires sorted { IsNonDecreasing starts.now }
    requires labels { LabelsFit (length starts.now) (tree e.now) }
    requires few { v.old.next + binds (tree e.now) < 2 ^ 32 }
    ensures { IfOk result (λ q. Normalizes starts.now tail (tree e.now) v.old v.new (expression q.value)) }
{
    let Exp::Let {
        site: _,
        first,
        inits,
        body,
    } = e
    else {
        unreachable!();
    };
    let mut steps = Vec::with_capacity(alloc, inits.len())?;
    let numbers = normalize_inits(alloc, starts, inits, v, &mut steps)?;
    let depth = v.depth();
    v.bind_each(*first, &numbers)?;
    let body = normalize_expression(alloc, starts, body, tail, v)?;
    v.release(depth);
    put_after(alloc, steps, body)
}

// The same for a group of closures.
#[cycle(normalizing)]
fn normalize_group(
    alloc: Global,
    starts: &[u32],
    e: &Exp,
    tail: bool,
    v: &mut Variables,
) -> Result<Box<control::Exp<()>>, Mem>
    requires kind { IsGroup (tree e.now) }
    requires sorted { IsNonDecreasing starts.now }
    requires labels { LabelsFit (length starts.now) (tree e.now) }
    requires few { v.old.next + binds (tree e.now) < 2 ^ 32 }
    ensures { IfOk result (λ q. Normalizes starts.now tail (tree e.now) v.old v.new (expression q.value)) }
{
    let Exp::FixClosures {
        first,
        closures,
        body,
    } = e
    else {
        unreachable!();
    };
    let number = v.next;
    let depth = v.depth();
    v.bind_closures(*first, closures)?;
    let members = members_of(alloc, starts, closures, number, v)?;
    let body = normalize_expression(alloc, starts, body, tail, v)?;
    v.release(depth);
    group_of(alloc, members, body)
}

// The same for a call, whose operator comes after its operands.
#[cycle(normalizing)]
fn normalize_call(
    alloc: Global,
    starts: &[u32],
    e: &Exp,
    tail: bool,
    v: &mut Variables,
) -> Result<Box<control::Exp<()>>, Mem>
    requires kind { IsCall (tree e.now) }
    requires sorted { IsNonDecreasing starts.now }
    requires labels { LabelsFit (length starts.now) (tree e.now) }
    requires few { v.old.next + binds (tree e.now) < 2 ^ 32 }
    ensures { IfOk result (λ q. Normalizes starts.now tail (tree e.now) v.old v.new (expression q.value)) }
{
    let Exp::Call {
        site,
        spread,
        operator,
        operands,
    } = e
    else {
        unreachable!();
    };
    let mut steps = Vec::new(alloc);
    let operands = normalize_operands(alloc, starts, operands, v, &mut steps)?;
    let operator = normalize_part(alloc, starts, operator, v, &mut steps)?;
    let kind = Kind {
        site: *site,
        spread: *spread,
        tail,
    };
    call_after(alloc, steps, kind, operator, operands)
}

// The same for new cells.
#[cycle(normalizing)]
fn normalize_cells(
    alloc: Global,
    starts: &[u32],
    e: &Exp,
    tail: bool,
    v: &mut Variables,
) -> Result<Box<control::Exp<()>>, Mem>
    requires kind { IsCells (tree e.now) }
    requires sorted { IsNonDecreasing starts.now }
    requires labels { LabelsFit (length starts.now) (tree e.now) }
    requires few { v.old.next + binds (tree e.now) < 2 ^ 32 }
    ensures { IfOk result (λ q. Normalizes starts.now tail (tree e.now) v.old v.new (expression q.value)) }
{
    let Exp::NewCells(cells, body) = e else {
        unreachable!();
    };
    let steps = make_cells(alloc, cells, v)?;
    let depth = v.depth();
    v.bind_cells(cells)?;
    let body = normalize_expression(alloc, starts, body, tail, v)?;
    v.release(depth);
    put_after(alloc, steps, body)
}

// A part that is bound to a new variable.
#[cycle(normalizing)]
#[inline(never)]
fn normalize_bound(
    alloc: Global,
    starts: &[u32],
    e: &Exp,
    v: &mut Variables,
    steps: &mut Vec<Step>,
) -> Result<u32, Mem>
    requires sorted { IsNonDecreasing starts.now }
    requires labels { LabelsFit (length starts.now) (tree e.now) }
    requires few { v.old.next + suc (binds (tree e.now)) < 2 ^ 32 }
    ensures { IfOk result (λ x. BindsPart starts.now (tree e.now) v.old v.new steps.old.items steps.new.items x) }
{
    let number = v.fresh();
    let value = normalize_expression(alloc, starts, e, false, v)?;
    steps.push(Step {
        variable: Some(number),
        value,
    })?;
    Ok(number)
}

// The operand for a part. A part that is not simple is bound to a new variable.
#[cycle(normalizing)]
#[inline(never)]
fn normalize_part(
    alloc: Global,
    starts: &[u32],
    e: &Exp,
    v: &mut Variables,
    steps: &mut Vec<Step>,
) -> Result<Operand<u32>, Mem>
    requires sorted { IsNonDecreasing starts.now }
    requires labels { LabelsFit (length starts.now) (tree e.now) }
    requires few { v.old.next + operand_binds (tree e.now) < 2 ^ 32 }
    ensures { IfOk result (λ o. NormalizesOperand starts.now (tree e.now) v.old v.new steps.old.items steps.new.items o) }
{
    if is_simple(e) {
        return simple_operand(alloc, e, v);
    }
    let number = normalize_bound(alloc, starts, e, v, steps)?;
    Ok(Operand::Atom(Atom::Variable(number)))
}

// The operands for some parts, from left to right.
#[cycle(normalizing)]
#[inline(never)]
fn normalize_operands(
    alloc: Global,
    starts: &[u32],
    es: &List<Exp>,
    v: &mut Variables,
    steps: &mut Vec<Step>,
) -> Result<List<Operand<u32>>, Mem>
    requires sorted { IsNonDecreasing starts.now }
    requires labels { LabelsFitEach (length starts.now) (trees_of es.now) }
    requires few { v.old.next + operands_bind (trees_of es.now) < 2 ^ 32 }
    ensures { IfOk result (λ all. NormalizesEachOperand starts.now (trees_of es.now) v.old v.new steps.old.items steps.new.items all) }
{
    let mut all = List::from_vec(Vec::with_capacity(alloc, es.len())?);
    for e in es.as_slice() {
        all.push(normalize_part(alloc, starts, e, v, steps)?)?;
    }
    Ok(all)
}

// The variables to which inits are bound, from left to right.
#[cycle(normalizing)]
#[inline(never)]
fn normalize_inits(
    alloc: Global,
    starts: &[u32],
    es: &List<Exp>,
    v: &mut Variables,
    steps: &mut Vec<Step>,
) -> Result<List<u32>, Mem>
    requires sorted { IsNonDecreasing starts.now }
    requires labels { LabelsFitEach (length starts.now) (trees_of es.now) }
    requires few { v.old.next + inits_bind (trees_of es.now) < 2 ^ 32 }
    ensures { IfOk result (λ all. NormalizesInits starts.now (trees_of es.now) v.old v.new steps.old.items steps.new.items all) }
{
    let mut all = List::from_vec(Vec::with_capacity(alloc, es.len())?);
    for e in es.as_slice() {
        all.push(normalize_bound(alloc, starts, e, v, steps)?)?;
    }
    Ok(all)
}

// A part of a sequence before the last. It is bound where its value may be that of a call, and leaves nothing where only
// an atom is left of it.
#[cycle(normalizing)]
#[inline(never)]
fn normalize_dropped(
    alloc: Global,
    starts: &[u32],
    e: &Exp,
    v: &mut Variables,
    steps: &mut Vec<Step>,
) -> Result<(), Mem>
    requires sorted { IsNonDecreasing starts.now }
    requires labels { LabelsFit (length starts.now) (tree e.now) }
    requires few { v.old.next + cond (specs.ends_in_call (tree e.now)) (suc (binds (tree e.now))) (binds (tree e.now)) < 2 ^ 32 }
    ensures { OnOk result (DropsPart starts.now (tree e.now) v.old v.new steps.old.items steps.new.items) }
{
    if matches!(e, Exp::Constant(_) | Exp::Literal(_)) {
        return Ok(());
    }
    if ends_in_call(e) {
        normalize_bound(alloc, starts, e, v, steps)?;
        return Ok(());
    }
    let value = normalize_expression(alloc, starts, e, false, v)?;
    if is_bare_atom(&value) {
        return Ok(());
    }
    steps.push(Step {
        variable: None,
        value,
    })?;
    Ok(())
}

// The parts of a sequence. The last is in the context of the whole.
#[cycle(normalizing)]
#[inline(never)]
fn normalize_parts(
    alloc: Global,
    starts: &[u32],
    es: &List<Exp>,
    tail: bool,
    v: &mut Variables,
) -> Result<Box<control::Exp<()>>, Mem>
    requires sorted { IsNonDecreasing starts.now }
    requires labels { LabelsFitEach (length starts.now) (trees_of es.now) }
    requires few { v.old.next + binds_parts (trees_of es.now) < 2 ^ 32 }
    ensures { IfOk result (λ q. NormalizesSequence starts.now tail (trees_of es.now) v.old v.new (expression q.value)) }
{
    let items = es.as_slice();
    let count = items.len();
    if count == 0 {
        return read_atom(alloc, tail, Atom::Constant(Const::Unspecified));
    }
    let mut steps = Vec::new(alloc);
    for i in 0..count - 1 {
        normalize_dropped(alloc, starts, &items[i], v, &mut steps)?;
    }
    let last = normalize_expression(alloc, starts, &items[count - 1], tail, v)?;
    put_after(alloc, steps, last)
}
