//! Texts, and what the expander and the passes behind it make of them.

ghost use Rattle.std.specs.Prelude.{◌≤◌, ◌*◌, length, IfOk, IsTrue};
ghost use Rattle.sch_lang.specs.Measures.{nodes_and_bound};
ghost use Rattle.sch_lang.specs.ProgramView.{source};
ghost use Rattle.sch_control.specs.Covered.{is_covered_program};
ghost use Rattle.sch_control.specs.ProgramView as control;
ghost use Rattle.sch_frames.specs.Covered as frames;
ghost use Rattle.sch_frames.specs.ProgramView as view;

use crate::straight::are_straight;
use sch_control::ControlProgram;
use sch_core::{CoreError, Library, core};
use sch_frames::FrameProgram;
use sch_lang::Program;
use sch_passes::control_program;
use sch_read::read_all;
use sch_registers::frame_program;
use std::alloc::{AllocError, Global};

/// The longest text that is read.
pub(crate) const MOST_BYTES: usize = 1_048_576;

// The longest text whose program goes through all passes: what is made of it has fewer procedures than a library may have.
const FEW_BYTES: usize = 8_192;

// The program of a text, or why it has none.
pub(crate) fn program_of(alloc: Global, text: &[u8]) -> Result<Program, CoreError>
    ensures { IfOk result (λ p. nodes_and_bound (source p) ≤ 112 * length text.now) }
{
    if text.len() > MOST_BYTES {
        return Err(CoreError::Memory);
    }
    let Ok(items) = read_all(alloc, text) else {
        return Err(CoreError::Memory);
    };
    let program = core(alloc, &Library::empty(alloc), items.as_slice())?;
    Ok(program)
}

// The same of a short text.
pub(crate) fn small_program_of(alloc: Global, text: &[u8]) -> Result<Program, CoreError>
    ensures { IfOk result (λ p. nodes_and_bound (source p) ≤ 112 * 8192) }
{
    if text.len() > FEW_BYTES {
        return Err(CoreError::Memory);
    }
    let program = program_of(alloc, text)?;
    Ok(program)
}

// The control program of a program.
fn control_of_program(alloc: Global, program: &Program) -> Result<ControlProgram, CoreError>
    requires { nodes_and_bound (source program.now) ≤ 112 * 8192 }
    ensures { IfOk result (λ q. IsTrue (is_covered_program (control.source q))) }
{
    let control = control_program(alloc, program)?;
    Ok(control)
}

// The control program of a short text.
pub(crate) fn control_of(alloc: Global, text: &[u8]) -> Result<ControlProgram, CoreError>
    ensures { IfOk result (λ q. IsTrue (is_covered_program (control.source q))) }
{
    let program = small_program_of(alloc, text)?;
    let control = control_of_program(alloc, &program);
    drop(program);
    control
}

// The frame program of a control program that is one form at most, which tests nothing.
fn frames_of_program(alloc: Global, p: &ControlProgram) -> Result<FrameProgram, CoreError>
    requires { IsTrue (is_covered_program (control.source p.now)) }
    ensures { IfOk result (λ f. IsTrue (frames.is_covered_program (view.source f))) }
{
    if !are_straight(p.bodies.as_slice()) {
        return Err(CoreError::Memory);
    }
    let made = frame_program(alloc, p)?;
    Ok(made.frames)
}

// The same of a short text.
pub(crate) fn frames_of(alloc: Global, text: &[u8]) -> Result<FrameProgram, CoreError>
    ensures { IfOk result (λ f. IsTrue (frames.is_covered_program (view.source f))) }
{
    let control = control_of(alloc, text)?;
    let frames = frames_of_program(alloc, &control);
    drop(control);
    frames
}

/// A text, and how often it stands there.
pub(crate) type Piece<'a> = (&'a str, u32);

// Pushes a text so often.
fn repeat(out: &mut String, (text, times): Piece) -> Result<(), AllocError> {
    for _ in 0..times {
        out.push_str(text)?;
    }
    Ok(())
}

/// One text of some, which stand one behind the other.
pub(crate) fn joined(alloc: Global, pieces: &[Piece]) -> Result<String, AllocError> {
    let mut out = String::new(alloc);
    for piece in pieces {
        repeat(&mut out, *piece)?;
    }
    Ok(out)
}
