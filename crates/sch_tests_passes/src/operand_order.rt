//! The parts of a call: each is bound whole before the next, the operands from left to right and the operator last.

use crate::texts::control_of;
use crate::trees::write_number;
use sch_control::{Application, Atom, ControlProgram, Exp as Control, Operand, Operation};
use sch_core::CoreError;
use sch_word::{Bytes, List, Mem};
use std::alloc::Global;
use std::test::Fail;

// An operation: a primitive by its site, and a value, what a cell holds, a cell that is set and a field by a word.
fn write_operation(operation: &Operation<u32>, out: &mut Bytes) -> Result<(), Mem> {
    match operation {
        Operation::Prim(site, _, _) => write_number(*site, out),
        Operation::Operand(_) => out.extend_from_slice(b" value"),
        Operation::CellGet(_) => out.extend_from_slice(b" get"),
        Operation::CellSet(_, _) => out.extend_from_slice(b" set"),
        Operation::Field(1, 0) => out.extend_from_slice(b" field"),
        _ => out.extend_from_slice(b" other"),
    }
}

fn write_operand(operand: &Operand<u32>, out: &mut Bytes) -> Result<(), Mem> {
    match operand {
        Operand::Atom(Atom::Variable(x)) => write_number(*x, out),
        _ => out.extend_from_slice(b" other"),
    }
}

// A call by its operator and its operands.
fn write_call(a: &Application<u32>, out: &mut Bytes) -> Result<(), Mem> {
    write_operand(&a.operator, out)?;
    for operand in a.operands.as_slice() {
        write_operand(operand, out)?;
    }
    Ok(())
}

// `( 5 ..)` for what is bound to variable 5, `;` behind what is done for its effect, and ` call` for a tail call.
fn write_parts(e: &Control<()>, out: &mut Bytes) -> Result<(), Mem> {
    match e {
        Control::Do(operation) => write_operation(operation, out),
        Control::Bind(x, first, rest) => {
            out.push(b'(')?;
            write_number(*x, out)?;
            write_parts(first, out)?;
            out.push(b')')?;
            write_parts(rest, out)
        }
        Control::Seq(first, rest) => {
            write_parts(first, out)?;
            out.push(b';')?;
            write_parts(rest, out)
        }
        Control::TailCall(a) => {
            out.extend_from_slice(b" call")?;
            write_call(a, out)
        }
        _ => out.extend_from_slice(b" other"),
    }
}

const TEXT: &[u8] =
    b"(lambda (f) (lambda (x p) (f (+ x (car p)) (begin (set! x 20) (set-car! p 5) 0))))";

// The cell of x is variable 4. What it holds and what `car` gives are bound before they are added; then the cell is set, and
// the pair, and a constant is the value; then the operator is a field of the closure.
const PARTS: &[u8] = b"( 4 other)( 5( 6 get)( 7 2) 1)( 8 set; 3; value)( 9 field) call 9 5 8";

// The parts of the one procedure inside another.
fn parts_of(alloc: Global, q: &ControlProgram) -> Result<Bytes, Mem> {
    let mut out = List::new(alloc);
    if let [_, _, procedure] = q.bodies.as_slice() {
        write_parts(&procedure.exp, &mut out)?;
    }
    Ok(out)
}

// Of the call: both operands, and then the operator.
fn is_order(q: &ControlProgram) -> bool {
    match q.bound.as_slice() {
        [call, ..] => call.as_slice() == [1, 2, 0].as_slice(),
        _ => false,
    }
}

// Whether the parts of a program are these, and their order is listed so.
fn binds_whole(alloc: Global, q: &ControlProgram) -> Result<bool, CoreError> {
    let parts = parts_of(alloc, q)?;
    Ok(parts.as_slice() == PARTS && is_order(q))
}

// The same of the program of the text.
fn is_bound_whole(alloc: Global) -> Result<bool, CoreError> {
    let q = control_of(alloc, TEXT)?;
    let bound = binds_whole(alloc, &q);
    drop(q);
    bound
}

#[test]
fn binds_each_operand_whole(rt: HostRuntime) -> Result<(), Fail> {
    assert!(rt; is_bound_whole(rt.alloc())?);
    Ok(())
}
