//! Parts that need no variable of their own, or that leave nothing.

ghost use Rattle.std.specs.Prelude.{◌≡◌};
ghost use Rattle.sch_flat.specs.View.{tree, trees_of};
ghost use Rattle.sch_control.specs.Sizes as sizes;
ghost use Rattle.sch_control.specs.Valid as valid;
ghost use Rattle.sch_control.specs.View.{expression};
ghost use Rattle.sch_anf_laws.specs.Normal as normal;

use sch_control as control;
use sch_control::{Operand, Operation};
use sch_flat::{Exp, Variable};
use sch_word::{List, Primitive};

// Whether a primitive only reads its operands and cannot stop.
fn only_reads(which: Primitive) -> bool
    ensures { result ≡ valid.only_reads which }
{
    matches!(
        which,
        Primitive::Eq
            | Primitive::Eqv
            | Primitive::IsBoolean
            | Primitive::IsPair
            | Primitive::IsNull
            | Primitive::IsSymbol
            | Primitive::IsInteger
            | Primitive::IsChar
            | Primitive::IsString
            | Primitive::IsVector
            | Primitive::IsProcedure
    )
}

// Whether an expression is a constant, a literal or a variable of the body.
fn is_atom(e: &Exp) -> bool
    ensures { result ≡ normal.is_atom (tree e.now) }
{
    match e {
        Exp::Constant(_) | Exp::Literal(_) | Exp::Var(Variable::Bound(_)) => true,
        _ => false,
    }
}

fn are_atoms(es: &List<Exp>) -> bool
    ensures { result ≡ normal.are_atoms (trees_of es.now) }
{
    for e in es.as_slice() {
        if !is_atom(e) {
            return false;
        }
    }
    true
}

/// Whether an expression is an atom, or a primitive that only reads, over atoms.
pub fn is_simple(e: &Exp) -> bool
    ensures { result ≡ normal.is_simple (tree e.now) }
{
    match e {
        Exp::Prim(_, which, es) => only_reads(*which) && are_atoms(es),
        _ => is_atom(e),
    }
}

/// Whether the value of an expression may be that of a call.
#[cycle(ends)]
pub fn ends_in_call(e: &Exp) -> bool
    ensures { result ≡ normal.ends_in_call (tree e.now) }
{
    match e {
        Exp::If(_, yes, no) => ends_in_call(yes) || ends_in_call(no),
        Exp::Seq(parts) => last_in_call(parts),
        Exp::Let {
            site: _,
            first: _,
            inits: _,
            body,
        }
        | Exp::FixClosures {
            first: _,
            closures: _,
            body,
        }
        | Exp::NewCells(_, body) => ends_in_call(body),
        Exp::Call {
            site: _,
            spread: _,
            operator: _,
            operands: _,
        } => true,
        _ => false,
    }
}

#[cycle(ends)]
fn last_in_call(es: &List<Exp>) -> bool
    ensures { result ≡ normal.last_in_call (trees_of es.now) }
{
    let items = es.as_slice();
    let count = items.len();
    if count == 0 {
        return false;
    }
    ends_in_call(&items[count - 1])
}

/// Whether an expression of the language Control is an atom, or a field of the closure.
pub fn is_bare_atom(e: &control::Exp<()>) -> bool
    ensures { result ≡ sizes.is_bare_atom (expression e.now) }
{
    matches!(
        e,
        control::Exp::Do(Operation::Operand(Operand::Atom(_)) | Operation::Field(_, _))
    )
}
