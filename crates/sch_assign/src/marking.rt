//! Which variables get a cell: one walk over the text records them in a table.

ghost use Rattle.std.specs.Prelude.{◌≡◌, ◌+◌, ◌<◌, ◌^◌, length};
ghost use Rattle.sch_cells.specs.View.{tree, trees_of, lambdas_of};
ghost use Rattle.sch_assign.specs.Converted.{Low};
ghost use Rattle.sch_assign.specs.InRange.{InRange, EachInRange, LambdasInRange};
ghost use Rattle.sch_assign.specs.Table.{marked, each_marked, lambdas_marked, group_marked};

use sch_cells::{Exp, Lambda, count};
use sch_word::List;

/// The variable that has this place in a group.
pub(crate) fn variable_at(first: u32, place: usize) -> u32
    requires { first + place < 2 ^ 32 }
    ensures { result ≡ first + place }
{
    first + place as u32
}

// Each of `count` variables from the first on gets a cell.
fn mark_group(first: u32, count: usize, celled: &mut Vec<bool>)
    requires low { Low (length celled.old.items) first count }
    requires small { length celled.old.items < 2 ^ 32 }
    ensures marked { celled.new.items ≡ group_marked first count celled.old.items }
    ensures size { length celled.new.items ≡ length celled.old.items }
{
    for place in 0..count {
        let x = variable_at(first, place);
        celled[x as usize] = true;
    }
}

/// Records which variables of an expression get a cell.
#[cycle(marking)]
fn mark(e: &Exp, celled: &mut Vec<bool>)
    requires within { InRange (length celled.old.items) (tree e.now) }
    requires small { length celled.old.items < 2 ^ 32 }
    ensures marked { celled.new.items ≡ marked (tree e.now) celled.old.items }
    ensures size { length celled.new.items ≡ length celled.old.items }
{
    match e {
        Exp::Constant(_) | Exp::Literal(_) | Exp::Var(_) | Exp::Global(_) => {}
        Exp::SetVar(x, value) => {
            celled[*x as usize] = true;
            mark(value, celled);
        }
        Exp::SetGlobal(_, value) | Exp::Define(_, value) => mark(value, celled),
        Exp::If(test, yes, no) => {
            mark(test, celled);
            mark(yes, celled);
            mark(no, celled);
        }
        Exp::Seq(parts) => mark_each(parts, celled),
        Exp::Let { inits, body, .. } => {
            mark_each(inits, celled);
            mark(body, celled);
        }
        Exp::Fix { lambdas, body, .. } => {
            mark_lambdas(lambdas, celled);
            mark(body, celled);
        }
        Exp::Rec {
            first,
            inits,
            body,
            ..
        } => {
            mark_group(*first, count(inits), celled);
            mark_each(inits, celled);
            mark(body, celled);
        }
        Exp::Lambda(l) => mark(&l.body, celled),
        Exp::Call {
            operator,
            operands,
            ..
        } => {
            mark(operator, celled);
            mark_each(operands, celled);
        }
        Exp::Prim(_, _, operands) => mark_each(operands, celled),
        Exp::NewCells(_, _) | Exp::CellGet(_) | Exp::CellSet(_, _) => unreachable!(),
    }
}

/// The same for each of some expressions.
#[cycle(marking)]
pub(crate) fn mark_each(es: &List<Exp>, celled: &mut Vec<bool>)
    requires within { EachInRange (length celled.old.items) (trees_of es.now) }
    requires small { length celled.old.items < 2 ^ 32 }
    ensures marked { celled.new.items ≡ each_marked (trees_of es.now) celled.old.items }
    ensures size { length celled.new.items ≡ length celled.old.items }
{
    for e in es.as_slice() {
        mark(e, celled);
    }
}

/// The same for each of some lambdas.
#[cycle(marking)]
pub(crate) fn mark_lambdas(ls: &List<Lambda>, celled: &mut Vec<bool>)
    requires within { LambdasInRange (length celled.old.items) (lambdas_of ls.now) }
    requires small { length celled.old.items < 2 ^ 32 }
    ensures marked { celled.new.items ≡ lambdas_marked (lambdas_of ls.now) celled.old.items }
    ensures size { length celled.new.items ≡ length celled.old.items }
{
    for l in ls.as_slice() {
        mark(&l.body, celled);
    }
}
