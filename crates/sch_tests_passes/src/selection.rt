//! The items of a text.

ghost use Rattle.std.specs.Prelude.{◌≤◌, IsTrue, OnOk};
ghost use Rattle.sch_frames.specs.Covered.{is_covered_program};
ghost use Rattle.sch_frames.specs.ProgramView.{source};
ghost use Rattle.sch_frames.specs.SourceView.{codes_of};
ghost use Rattle.sch_select.specs.Program.{labels_of};
ghost use Rattle.sch_select_memory.specs.Addresses.{max_labels};

use crate::texts::frames_of;
use sch_core::CoreError;
use sch_frames::{FrameBody, FrameProgram};
use sch_select::select;
use sch_word::Limits;
use std::alloc::Global;
use std::test::Fail;

// The most labels of jumps, and the most instructions, of a body here.
const MOST: u32 = 1_000;

// That there is one body, which is short.
fn check_short(bodies: &[FrameBody]) -> Result<(), CoreError>
    ensures { OnOk result (labels_of (codes_of bodies.now) ≤ max_labels) }
{
    let [body] = bodies else {
        return Err(CoreError::Memory);
    };
    if body.labels > MOST || body.instructions.len() > MOST as usize {
        return Err(CoreError::Memory);
    }
    Ok(())
}

// How many items a program has that is one short body and takes no word of a frame.
fn count_items(alloc: Global, p: &FrameProgram, limits: Limits) -> Result<usize, CoreError>
    requires { IsTrue (is_covered_program (source p.now)) }
{
    if p.words > 0 {
        return Err(CoreError::Memory);
    }
    check_short(p.bodies.as_slice())?;
    let a = select(alloc, p, limits)?;
    Ok(a.items.len())
}

// The same of the program of a text.
fn count_items_of(alloc: Global, text: &[u8], limits: Limits) -> Result<usize, CoreError> {
    let frames = frames_of(alloc, text)?;
    let count = count_items(alloc, &frames, limits);
    drop(frames);
    count
}

#[test]
fn selects_a_form(rt: HostRuntime) -> Result<(), Fail> {
    let limits = Limits::new(4_096, 1).ok_or("no limits")?;
    let count = count_items_of(rt.alloc(), b"(char? #\\a)", limits)?;
    assert!(rt; count > 12);
    Ok(())
}
