//! The frame program of a program, by registers.

ghost use Rattle.std.specs.Prelude.{◌≡◌, ◌≤◌, ◌<◌, ◌+◌, ◌*◌, ◌^◌, ◌++◌, map, max, IfOk, IsTrue, OnOk};
ghost use Rattle.sch_word.specs.trees.Shape.{max_operands};
ghost use Rattle.sch_word.specs.values.StaticsView.{statics};
ghost use Rattle.sch_word.specs.runs.Orders.{is_order_table};
ghost use Rattle.sch_control.specs.Covered as control_covered;
ghost use Rattle.sch_control.specs.Fits.{table_fits};
ghost use Rattle.sch_control.specs.ProgramView as control;
ghost use Rattle.sch_control.specs.Sizes.{most_variables, tests_of};
ghost use Rattle.sch_control.specs.SourceView as control_bodies;
ghost use Rattle.sch_control.specs.Work.{codes_work};
ghost use Rattle.sch_frames.specs.Covered.{each_begins, is_covered_program};
ghost use Rattle.sch_frames.specs.Does.{FramesOf, SameRuns};
ghost use Rattle.sch_frames.specs.ProgramView.{source};
ghost use Rattle.sch_frames.specs.Sizes.{program_copies, program_work, spread_words};
ghost use Rattle.sch_frames.specs.SourceView.{codes_of};
ghost use Rattle.sch_frames.specs.Standing.{all_marks_stand};
ghost use Rattle.sch_registers.specs.FramedBodies.{AreFramedBodies};
ghost use Rattle.sch_registers.specs.MadeFrom.{AreMadeFrom};
ghost use Rattle.sch_registers.specs.OwnMarks.{EachSaveCalled};
ghost use Rattle.sch_registers.specs.Registers.{all_calls, registers_code, registers_orders, registers_words};

use crate::one_body::frame_body;
use sch_control::{Body, ControlProgram};
use sch_frames::{FrameBody, FrameProgram};
use sch_orders::{ListedCall, listed_orders};
use sch_word::{List, Mem};
use std::alloc::Global;

/// A program in frames, and what is listed of its calls.
#[derive(Drop)]
pub struct FramedProgram {
    pub frames: FrameProgram,
    /// In which order the parts of each site are evaluated.
    pub orders: List<List<u32>>,
    /// The calls of all bodies, one body after the other, each body's in the order of its tree.
    pub calls: List<ListedCall>,
}

/// A frame body for each body, in their order. What is listed of their calls is added to `calls`.
fn frame_bodies(
    alloc: Global,
    bodies: &[Body],
    calls: &mut List<ListedCall>,
) -> Result<List<FrameBody>, Mem>
    requires tests { 2 * tests_of (control_bodies.codes_of bodies.now) < 2 ^ 32 }
    ensures bodies { IfOk result (λ made. AreFramedBodies (control_bodies.codes_of bodies.now) (codes_of made)) }
    ensures calls { OnOk result (calls.new ≡ calls.old ++ all_calls (control_bodies.codes_of bodies.now)) }
{
    let mut made = List::new(alloc);
    for b in bodies {
        made.push(frame_body(alloc, b, calls)?)?;
    }
    Ok(made)
}

/// The frame program of a program, in which the variables of each body live in registers while there are any.
///
/// Time and memory are linear in the program, but for sets of variables: a call, a binding and an arm of a test have a few
/// each, of as many bits as the body has variables.
pub fn frame_program(alloc: Global, p: &ControlProgram) -> Result<FramedProgram, Mem>
    // Each test takes two labels.
    requires tests { 2 * tests_of (control_bodies.codes_of p.now.bodies) < 2 ^ 32 }
    ensures same { IfOk result (λ f. SameRuns (control.source p.now) (source f.frames)) }
    // What the passes of bodies are defined to make.
    ensures made { IfOk result (λ f. codes_of f.frames.bodies ≡ map registers_code (control_bodies.codes_of p.now.bodies)) }
    // One frame body for each body, in their order, which does what the body does.
    ensures frames { IfOk result (λ f. FramesOf (control_bodies.codes_of p.now.bodies) (codes_of f.frames.bodies)) }
    ensures library { IfOk result (λ f. f.frames.library ≡ p.now.library) }
    ensures statics { IfOk result (λ f. statics f.frames.statics ≡ statics p.now.statics) }
    ensures begin { IfOk result (λ f. IsTrue (each_begins (source f.frames))) }
    // Each write of a slot and each call, return and tail call stands directly behind one mark, of its kind, and each mark
    // directly before an instruction of its kind.
    ensures stand { IfOk result (λ f. IsTrue (all_marks_stand (codes_of f.frames.bodies))) }
    ensures covered { IfOk result (λ f.
        IsTrue (control_covered.is_covered_program (control.source p.now)) → IsTrue (is_covered_program (source f.frames))) }
    // Its text, 64 bytes for what there is to do, with its closures, its calls and the jumps over its procedures, and 8 for each
    // copy, is within 72 bytes for each unit of the work of `p`.
    ensures fits { IfOk result (λ f.
        64 * program_work (source f.frames) + 8 * program_copies (source f.frames) ≤ 72 * codes_work (control.source p.now).bodies) }
    ensures words { IfOk result (λ f. f.frames.words ≡ registers_words (control_bodies.codes_of p.now.bodies)) }
    // Beside the variables of a body its frame has at most as many words as a call may have operands, and it counts
    // with 216 at least where a call spreads its last operand, which no call of covered code does.
    ensures frame_words { IfOk result (λ f.
        f.frames.words ≤ max spread_words (max_operands + most_variables (control_bodies.codes_of p.now.bodies))) }
    ensures covered_words { IfOk result (λ f. IsTrue (control_covered.is_covered_program (control.source p.now))
        → f.frames.words ≤ max_operands + most_variables (control_bodies.codes_of p.now.bodies)) }
    // In each activation that has ended a call of its own follows each save, and each restore comes after a call with only
    // restores between.
    ensures called { IfOk result (λ f. EachSaveCalled (codes_of f.frames.bodies)) }
    // Each frame body is the layout of its body's tree with lazy saves, eager restores, places and moves. This speaks of paths and
    // not of the passes.
    ensures chain { IfOk result (λ f. AreMadeFrom (control_bodies.codes_of p.now.bodies) (codes_of f.frames.bodies)) }
    // What is listed of its calls, and the order table by them, which fits the program.
    ensures calls { IfOk result (λ f. f.calls ≡ all_calls (control_bodies.codes_of p.now.bodies)) }
    ensures orders { IfOk result (λ f. f.orders ≡ registers_orders (control.source p.now)) }
    ensures table { IfOk result (λ f. IsTrue (table_fits (control.source p.now) f.orders)) }
    ensures permutations { IfOk result (λ f. IsTrue (is_order_table p.now.sites f.orders)) }
{
    let mut calls = List::new(alloc);
    let bodies = frame_bodies(alloc, p.bodies.as_slice(), &mut calls)?;
    let orders = listed_orders(alloc, p, calls.as_slice())?;
    let frames = FrameProgram::new(alloc, p, bodies)?;
    Ok(FramedProgram {
        frames,
        orders,
        calls,
    })
}
