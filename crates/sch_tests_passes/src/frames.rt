//! Frame bodies and frame programs.

use crate::straight::is_straight;
use crate::texts::{control_of, frames_of};
use sch_control::Body;
use sch_core::CoreError;
use sch_registers::frame_body;
use sch_word::List;
use std::alloc::Global;
use std::test::Fail;

// Whether a body tests nothing, has instructions, and uses no word of a frame.
fn is_laid_out(alloc: Global, b: &Body) -> Result<bool, CoreError> {
    if !is_straight(&b.exp) {
        return Ok(false);
    }
    let f = frame_body(alloc, b, &mut List::new(alloc))?;
    Ok(f.words == 0 && !f.instructions.is_empty())
}

// Whether there is one body, and it is so.
fn are_laid_out(alloc: Global, bodies: &[Body]) -> Result<bool, CoreError> {
    match bodies {
        [form] => is_laid_out(alloc, form),
        _ => Ok(false),
    }
}

// The same of the bodies of a text.
fn is_text_laid_out(alloc: Global, text: &[u8]) -> Result<bool, CoreError> {
    let q = control_of(alloc, text)?;
    let laid_out = are_laid_out(alloc, q.bodies.as_slice());
    drop(q);
    laid_out
}

// Nothing is called and nothing saved.
#[test]
fn lays_out_a_form(rt: HostRuntime) -> Result<(), Fail> {
    assert!(rt; is_text_laid_out(rt.alloc(), b"(char? #\\a)")?);
    Ok(())
}

#[test]
fn makes_a_program(rt: HostRuntime) -> Result<(), Fail> {
    let frames = frames_of(rt.alloc(), b"")?;
    assert!(rt; frames.bodies.is_empty());
    Ok(())
}
