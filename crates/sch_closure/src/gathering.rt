//! The free variables of each procedure, in the order in which its record has them.
//!
//! A list of variables is kept from its last to its first, so that a variable is put before the others by a
//! push, and the text is walked from its end. A list holds each variable once and is as long as a procedure has
//! free variables or a body variables, at most; each variable that is used is looked for in one list.

ghost use Rattle.std.specs.Prelude.{◌≡◌, reverse, IfOk, OnOk};
ghost use Rattle.sch_word.specs.trees.Bindings.{numbers, without};
ghost use Rattle.sch_word.specs.trees.NumberSets.{has};
ghost use Rattle.sch_cells.specs.Variables.{cells_bound, without_each};
ghost use Rattle.sch_cells.specs.View.{function, tree, trees_of, lambdas_of};
ghost use Rattle.sch_closure.specs.Closed.{program_fields};
ghost use Rattle.sch_closure.specs.Found.{found_cells, Finds, FindsEach, FindsLambda, FindsLambdas};
ghost use Rattle.sch_cells.specs.Kinds.{IsIf, IsLet, IsFix, IsRec, IsCall, IsNewCells};

use sch_cells::{Exp, Lambda, NewCell, count, count_lambdas};
use sch_word::{List, Mem, insert_number, insert_numbers};
use std::alloc::Global;

// Those that are none of the `count` variables from the first on.
fn outside_group(alloc: Global, first: u32, count: usize, xs: &[u32]) -> Result<Vec<u32>, Mem>
    ensures { IfOk result (λ left. reverse left.items ≡ without first count (reverse xs.now)) }
{
    let mut left = Vec::new(alloc);
    for x in xs {
        if !is_in_group(*x, first, count) {
            left.push(*x)?;
        }
    }
    Ok(left)
}

// Whether a variable is one of the `count` from the first on.
fn is_in_group(x: u32, first: u32, count: usize) -> bool
    ensures { result ≡ has x (numbers first count) }
{
    x >= first && ((x - first) as usize) < count
}

// Those that are none of the variables of new cells.
fn outside_cells(alloc: Global, cs: &[NewCell], xs: &[u32]) -> Result<Vec<u32>, Mem>
    ensures { IfOk result (λ left. reverse left.items ≡ without_each (cells_bound cs.now) (reverse xs.now)) }
{
    let mut left = Vec::new(alloc);
    for x in xs {
        if !is_cell(*x, cs) {
            left.push(*x)?;
        }
    }
    Ok(left)
}

// Whether a variable is that of a new cell.
fn is_cell(x: u32, cs: &[NewCell]) -> bool
    ensures { result ≡ has x (cells_bound cs.now) }
{
    for c in cs {
        if x == c.variable {
            return true;
        }
    }
    false
}

// Puts the variables whose values new cells hold before others.
fn insert_contents(cs: &[NewCell], xs: &mut Vec<u32>) -> Result<(), Mem>
    ensures { OnOk result (reverse xs.new.items ≡ found_cells cs.now (reverse xs.old.items)) }
{
    let mut left = cs.len();
    while left > 0 {
        left -= 1;
        if let Some(x) = cs[left].content {
            insert_number(x, xs)?;
        }
    }
    Ok(())
}

// Puts the free variables of an expression before others, and the fields of its procedures before those of
// the procedures after it.
#[cycle(gathering)]
fn find(alloc: Global, e: &Exp, free: &mut Vec<u32>, fields: &mut Vec<List<u32>>) -> Result<(), Mem>
    ensures { OnOk result (Finds (tree e.now) free.old.items free.new.items fields.old.items fields.new.items) }
{
    match e {
        Exp::Constant(_) | Exp::Literal(_) | Exp::Global(_) => Ok(()),
        Exp::Var(x) | Exp::CellGet(x) => insert_number(*x, free),
        Exp::SetVar(x, value) | Exp::CellSet(x, value) => {
            find(alloc, value, free, fields)?;
            insert_number(*x, free)
        }
        Exp::SetGlobal(_, value) | Exp::Define(_, value) => find(alloc, value, free, fields),
        Exp::If(_, _, _) => find_if(alloc, e, free, fields),
        Exp::Seq(parts) => find_each(alloc, parts, free, fields),
        Exp::Let { .. } => find_let(alloc, e, free, fields),
        Exp::Fix { .. } => find_fix(alloc, e, free, fields),
        Exp::Rec { .. } => find_rec(alloc, e, free, fields),
        Exp::Lambda(l) => find_lambda(alloc, l, free, fields),
        Exp::Call { .. } => find_call(alloc, e, free, fields),
        Exp::Prim(_, _, operands) => find_each(alloc, operands, free, fields),
        Exp::NewCells(_, _) => find_new_cells(alloc, e, free, fields),
    }
}

// The same for an If. As functions of their own, this and the next five keep the frames of the walk small.
#[cycle(gathering)]
fn find_if(
    alloc: Global,
    e: &Exp,
    free: &mut Vec<u32>,
    fields: &mut Vec<List<u32>>,
) -> Result<(), Mem>
    requires kind { IsIf (tree e.now) }
    ensures { OnOk result (Finds (tree e.now) free.old.items free.new.items fields.old.items fields.new.items) }
{
    let Exp::If(test, yes, no) = e else {
        unreachable!();
    };
    find(alloc, no, free, fields)?;
    find(alloc, yes, free, fields)?;
    find(alloc, test, free, fields)
}

// The same for a Let, whose inits stand outside.
#[cycle(gathering)]
fn find_let(
    alloc: Global,
    e: &Exp,
    free: &mut Vec<u32>,
    fields: &mut Vec<List<u32>>,
) -> Result<(), Mem>
    requires kind { IsLet (tree e.now) }
    ensures { OnOk result (Finds (tree e.now) free.old.items free.new.items fields.old.items fields.new.items) }
{
    let Exp::Let {
        site: _,
        first,
        inits,
        body,
    } = e
    else {
        unreachable!();
    };
    let mut inside = Vec::new(alloc);
    find(alloc, body, &mut inside, fields)?;
    let outer = outside_group(alloc, *first, count(inits), inside.as_slice())?;
    insert_numbers(outer.as_slice(), free)?;
    find_each(alloc, inits, free, fields)
}

// The same for procedures that know one another.
#[cycle(gathering)]
fn find_fix(
    alloc: Global,
    e: &Exp,
    free: &mut Vec<u32>,
    fields: &mut Vec<List<u32>>,
) -> Result<(), Mem>
    requires kind { IsFix (tree e.now) }
    ensures { OnOk result (Finds (tree e.now) free.old.items free.new.items fields.old.items fields.new.items) }
{
    let Exp::Fix {
        first,
        lambdas,
        body,
    } = e
    else {
        unreachable!();
    };
    let mut inside = Vec::new(alloc);
    find(alloc, body, &mut inside, fields)?;
    find_lambdas(alloc, lambdas, &mut inside, fields)?;
    let outer = outside_group(alloc, *first, count_lambdas(lambdas), inside.as_slice())?;
    insert_numbers(outer.as_slice(), free)
}

// The same for a Rec, whose inits stand inside.
#[cycle(gathering)]
fn find_rec(
    alloc: Global,
    e: &Exp,
    free: &mut Vec<u32>,
    fields: &mut Vec<List<u32>>,
) -> Result<(), Mem>
    requires kind { IsRec (tree e.now) }
    ensures { OnOk result (Finds (tree e.now) free.old.items free.new.items fields.old.items fields.new.items) }
{
    let Exp::Rec {
        site: _,
        first,
        inits,
        body,
    } = e
    else {
        unreachable!();
    };
    let mut inside = Vec::new(alloc);
    find(alloc, body, &mut inside, fields)?;
    find_each(alloc, inits, &mut inside, fields)?;
    let outer = outside_group(alloc, *first, count(inits), inside.as_slice())?;
    insert_numbers(outer.as_slice(), free)
}

// The same for a call.
#[cycle(gathering)]
fn find_call(
    alloc: Global,
    e: &Exp,
    free: &mut Vec<u32>,
    fields: &mut Vec<List<u32>>,
) -> Result<(), Mem>
    requires kind { IsCall (tree e.now) }
    ensures { OnOk result (Finds (tree e.now) free.old.items free.new.items fields.old.items fields.new.items) }
{
    let Exp::Call {
        site: _,
        spread: _,
        operator,
        operands,
    } = e
    else {
        unreachable!();
    };
    find_each(alloc, operands, free, fields)?;
    find(alloc, operator, free, fields)
}

// The same for new cells.
#[cycle(gathering)]
fn find_new_cells(
    alloc: Global,
    e: &Exp,
    free: &mut Vec<u32>,
    fields: &mut Vec<List<u32>>,
) -> Result<(), Mem>
    requires kind { IsNewCells (tree e.now) }
    ensures { OnOk result (Finds (tree e.now) free.old.items free.new.items fields.old.items fields.new.items) }
{
    let Exp::NewCells(cells, body) = e else {
        unreachable!();
    };
    let mut inside = Vec::new(alloc);
    find(alloc, body, &mut inside, fields)?;
    let outer = outside_cells(alloc, cells.as_slice(), inside.as_slice())?;
    insert_numbers(outer.as_slice(), free)?;
    insert_contents(cells.as_slice(), free)
}

// The same for each of some expressions, from the last to the first.
#[cycle(gathering)]
fn find_each(
    alloc: Global,
    es: &List<Exp>,
    free: &mut Vec<u32>,
    fields: &mut Vec<List<u32>>,
) -> Result<(), Mem>
    ensures { OnOk result (FindsEach (trees_of es.now) free.old.items free.new.items fields.old.items fields.new.items) }
{
    let items = es.as_slice();
    let mut left = items.len();
    while left > 0 {
        left -= 1;
        find(alloc, &items[left], free, fields)?;
    }
    Ok(())
}

#[cycle(gathering)]
fn find_lambda(
    alloc: Global,
    l: &Lambda,
    free: &mut Vec<u32>,
    fields: &mut Vec<List<u32>>,
) -> Result<(), Mem>
    ensures { OnOk result (FindsLambda (function l.now) free.old.items free.new.items fields.old.items fields.new.items) }
{
    let mut inside = Vec::new(alloc);
    find(alloc, &l.body, &mut inside, fields)?;
    let mut own = outside_group(alloc, l.first, l.formals as usize, inside.as_slice())?;
    insert_numbers(own.as_slice(), free)?;
    own.reverse();
    fields.push(List::from_vec(own))?;
    Ok(())
}

// The same for each of some lambdas, from the last to the first.
#[cycle(gathering)]
fn find_lambdas(
    alloc: Global,
    ls: &List<Lambda>,
    free: &mut Vec<u32>,
    fields: &mut Vec<List<u32>>,
) -> Result<(), Mem>
    ensures { OnOk result (FindsLambdas (lambdas_of ls.now) free.old.items free.new.items fields.old.items fields.new.items) }
{
    let items = ls.as_slice();
    let mut left = items.len();
    while left > 0 {
        left -= 1;
        find_lambda(alloc, &items[left], free, fields)?;
    }
    Ok(())
}

/// The fields of each procedure of a library and some forms, by the procedures' labels: the library's first, and
/// outer before inner.
///
/// `(lambda (x) (lambda (y) x))` -> none for the outer procedure, and x for the inner one.
///
/// A variable takes time in proportion to the free variables of its procedure, once for each procedure around it.
pub fn find_fields(
    alloc: Global,
    library: &List<Lambda>,
    forms: &List<Exp>,
) -> Result<Vec<List<u32>>, Mem>
    ensures { IfOk result (λ all. all.items ≡ program_fields (lambdas_of library.now) (trees_of forms.now)) }
{
    let mut free = Vec::new(alloc);
    let mut fields = Vec::new(alloc);
    find_each(alloc, forms, &mut free, &mut fields)?;
    find_lambdas(alloc, library, &mut free, &mut fields)?;
    fields.reverse();
    Ok(fields)
}
