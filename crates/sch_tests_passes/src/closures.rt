//! Each kind of binding, its cells, and its closures, of programs of one form.

ghost use Rattle.std.specs.Prelude.{◌+◌, ◌-◌, ◌*◌, ◌^◌, ◌<◌, ◌≤◌, length};
ghost use Rattle.sch_lang.specs.Measures.{nodes_and_bound};
ghost use Rattle.sch_lang.specs.ProgramView.{source};
ghost use Rattle.sch_cells.specs.ProgramView as cells;
ghost use Rattle.sch_cells.specs.Bodies.{bodies_of};

use crate::texts::{control_of, small_program_of};
use sch_assign::convert_assign;
use sch_cells::{Boxed, CellProgram, Exp as Cell, Unboxed};
use sch_closure::close;
use sch_control::Body as ControlBody;
use sch_core::CoreError;
use sch_flat::{Body, Exp as Flat, Variable};
use sch_lang::Program;
use sch_rename::rename;
use sch_word::{List, Mem};
use std::alloc::Global;
use std::test::Fail;

// What the first passes make of a program: how many variables have a number, how many cells its one form makes, and whether
// its closures are three, one in another.
#[derive(Drop)]
struct Made {
    variables: u32,
    cells: usize,
    is_nest: bool,
}

// What closing makes of a program with cells, whose variables have this many numbers.
fn made_of_cells(alloc: Global, variables: u32, converted: &CellProgram<Boxed>) -> Result<Made, Mem>
    requires { length (bodies_of (cells.source converted.now)) < 2 ^ 32 - 2 ^ 10 }
{
    let closed = close(alloc, converted)?;
    Ok(Made {
        variables,
        cells: cells_of(converted.forms.as_slice()),
        is_nest: is_nest(closed.bodies.as_slice()),
    })
}

// What converting and closing make of a program whose variables have numbers.
fn made_of_numbered(alloc: Global, renamed: &CellProgram<Unboxed>) -> Result<Made, Mem>
    requires variables { renamed.now.variables + renamed.now.variables < 2 ^ 32 - 2 ^ 10 }
    requires bodies { length (bodies_of (cells.source renamed.now)) < 2 ^ 32 - 2 ^ 10 }
{
    let converted = convert_assign(alloc, renamed)?;
    made_of_cells(alloc, renamed.variables, &converted)
}

// What the first passes make of a program.
fn made_of_program(alloc: Global, program: &Program) -> Result<Made, Mem>
    requires { nodes_and_bound (source program.now) ≤ 112 * 8192 }
{
    let renamed = rename(alloc, program)?;
    made_of_numbered(alloc, &renamed)
}

// What they make of the program of a text.
fn made_of(alloc: Global, text: &[u8]) -> Result<Made, CoreError> {
    let program = small_program_of(alloc, text)?;
    Ok(made_of_program(alloc, &program)?)
}

// How many new cells an expression makes at its top.
fn new_cells_at(e: &Cell) -> usize {
    match e {
        Cell::NewCells(cs, _) => cs.len(),
        _ => 0,
    }
}

// The same, or at the top of its body.
fn new_cells(e: &Cell) -> usize {
    match e {
        Cell::NewCells(cs, _) => cs.len(),
        Cell::Lambda(l) => new_cells_at(&l.body),
        Cell::Let {
            site: _,
            first: _,
            inits: _,
            body,
        } => new_cells_at(body),
        _ => 0,
    }
}

// How many new cells the one form of a program makes.
fn cells_of(forms: &[Cell]) -> usize {
    match forms {
        [form] => new_cells(form),
        _ => 100,
    }
}

// Whether a body makes a record with this label and this one field.
fn makes(b: &Body, label: u32, bound: bool) -> bool {
    match &b.code {
        Flat::MakeClosure(m) => match m.fields.as_slice() {
            [Variable::Bound(x)] => m.label == label && bound && *x == 0,
            [Variable::Free(k)] => m.label == label && !bound && *k == 0,
            _ => false,
        },
        _ => false,
    }
}

// Whether a procedure with a rest list makes one that makes one, whose value is its free variable.
fn is_nest(bodies: &[Body]) -> bool {
    match bodies {
        [outer, middle, inner] => {
            makes(outer, 1, true)
                && makes(middle, 2, false)
                && outer.rest
                && inner.fields == 1
                && matches!(&inner.code, Flat::Var(Variable::Free(0)))
        }
        _ => false,
    }
}

#[test]
fn renames_each_kind_of_binding(rt: HostRuntime) -> Result<(), Fail> {
    let text =
        b"(letrec ((f (lambda () (letrec ((x x)) (let ((y x)) (lambda (a . b) (set! b a))))))) f)";
    let made = made_of(rt.alloc(), text)?;
    assert!(rt; made.variables == 5);
    Ok(())
}

// A rest list and a variable of a `let` that are assigned, an init that reads itself unset, groups of procedures in which
// nothing is assigned, and a variable that is free in a procedure in a procedure.
const CELLS: &[(&str, usize)] = &[
    ("(lambda (x . y) (set! y x))", 1),
    ("(let ((x '())) (set! x x))", 1),
    ("(letrec ((x x)) x)", 1),
    (
        "(letrec ((f (lambda () (letrec ((g (lambda () g))) f)))) f)",
        0,
    ),
    ("(lambda (x) (lambda () (lambda () (set! x x))))", 1),
];

#[test]
fn gives_cells_to_what_is_assigned(rt: HostRuntime) -> Result<(), Fail> {
    for (text, cells) in CELLS {
        let made = made_of(rt.alloc(), text.as_bytes())?;
        assert!(rt; made.cells == *cells, "at {text}");
    }
    Ok(())
}

#[test]
fn a_free_variable_of_a_free_variable(rt: HostRuntime) -> Result<(), Fail> {
    let made = made_of(rt.alloc(), b"(lambda (x . y) (lambda () (lambda () x)))")?;
    assert!(rt; made.is_nest);
    Ok(())
}

// How many variables each body has.
fn counts_of(alloc: Global, bodies: &[ControlBody]) -> Result<List<u32>, Mem> {
    let mut all = List::new(alloc);
    for b in bodies {
        all.push(b.variables)?;
    }
    Ok(all)
}

// How many variables each body of a text has.
fn variables_in(alloc: Global, text: &[u8]) -> Result<List<u32>, CoreError> {
    let q = control_of(alloc, text)?;
    Ok(counts_of(alloc, q.bodies.as_slice())?)
}

// Procedures have their return address, their closure and their formals.
const BODIES: &[(&str, &[u32])] = &[
    ("(lambda (x . y) (lambda () (lambda () x)))", &[2, 4, 2, 2]),
    // The cell of the rest list is one variable more.
    ("(lambda (x . y) (set! y x))", &[2, 5]),
    // A cell that holds nothing yet, its value, and what is read of it.
    ("(letrec ((x x)) x)", &[4]),
    (
        "(letrec ((f (lambda () (letrec ((g (lambda () g))) f)))) f)",
        &[3, 3, 2],
    ),
];

#[test]
fn normalizes_each_body(rt: HostRuntime) -> Result<(), Fail> {
    for (text, variables) in BODIES {
        let found = variables_in(rt.alloc(), text.as_bytes())?;
        assert!(rt; found.as_slice() == *variables, "at {text}");
    }
    Ok(())
}
