//! From a control program to an image.

ghost use Rattle.std.specs.Prelude.{◌≡◌, ◌+◌, ◌*◌, ◌<◌, ◌≤◌, map, IfOk, IfErr, IsTrue, OnOk};
ghost use Rattle.sch_word.specs.runs.ProgramLayout.{data_address};
ghost use Rattle.sch_word.specs.declared.limits.TheConstants.{MAX_DEPTH};
ghost use Rattle.sch_control.specs.Covered.{is_covered_program};
ghost use Rattle.sch_control.specs.ProgramView.{source};
ghost use Rattle.sch_registers.specs.MadeFrom.{AreMadeFrom};
ghost use Rattle.sch_registers.specs.Registers.{all_calls, registers_code, registers_orders};
ghost use Rattle.sch_frames.specs.Standing.{all_marks_stand};
ghost use Rattle.sch_frames.specs.Valid.{max_words};
ghost use Rattle.sch_select_memory.specs.Addresses.{max_heap_end, max_labels};
ghost use Rattle.sch_select.specs.Program.{frames_bytes, max_stack};
ghost use Rattle.sch_select.specs.Sizes.{kinds_of};
ghost use Rattle.sch_driver.specs.Assembled.{IsAssembled, IsUnfit, labels_bound};
ghost use Rattle.sch_driver.specs.ListedCycles.{listed_cycles};
ghost use Rattle.sch_control.specs.Fits.{table_fits};
ghost use Rattle.sch_word.specs.runs.Orders.{is_order_table};
ghost use Rattle.sch_driver.specs.declared.error.CompileError.TheVariants as error;

use crate::cycles::cycles_of;
use crate::error::CompileError;
use crate::listing::{names_of, room_for_names};
use sch_asm::{Mark, resolve};
use sch_control::ControlProgram;
use sch_elf::{Image, program_image};
use sch_listing::Cycle;
use sch_registers::{FramedProgram, frame_program};
use sch_runtime::routines;
use sch_select::select;
use sch_word::{Bytes, DATA_ADDRESS, Limits, List};
use std::alloc::Global;

/// The most bytes that the frames of calls may take.
const MAX_STACK: u64 = 1_073_741_824;

/// An image, with the names of its bodies, the orders of its sites, the cycles of its calls, how many words its largest frame has,
/// and how many instructions and which marks its text.
#[derive(Drop)]
pub(crate) struct Assembled {
    pub(crate) image: Image,
    pub(crate) bodies: List<Bytes>,
    pub(crate) orders: List<List<u32>>,
    pub(crate) cycles: List<Cycle>,
    pub(crate) frame_words: u32,
    pub(crate) instructions: u64,
    pub(crate) marks: List<Mark>,
}

/// Checks that frames of `words` words have room on the stack at a depth.
fn check_stack(words: u32, depth: u64) -> Result<(), CompileError>
    requires few { words ≤ max_words }
    requires depth { depth ≤ MAX_DEPTH }
    ensures fits { OnOk result (frames_bytes words depth ≤ max_stack) }
    ensures refused { IfErr result (λ e. (e ≡ error.StackTooLarge words) × (max_stack < frames_bytes words depth)) }
{
    if 8 * words as u64 * (depth + 1) > MAX_STACK {
        return Err(CompileError::StackTooLarge(words as u64));
    }
    Ok(())
}

/// Where a heap of this size ends, behind words of data.
fn end_of_heap(words: usize, heap: u64) -> u32
    requires near { data_address + 8 * words + heap ≤ max_heap_end }
    ensures { result ≡ data_address + 8 * words + heap }
{
    (DATA_ADDRESS + 8 * words as u64 + heap) as u32
}

/// The image of a control program none of whose calls spreads a list, under limits of heap and depth. The
/// stack is looked at before the text.
pub(crate) fn assemble(
    alloc: Global,
    p: ControlProgram,
    limits: Limits,
) -> Result<Assembled, CompileError>
    requires covered { IsTrue (is_covered_program (source p)) }
    requires labels { labels_bound (source p) ≤ max_labels }
    ensures does { IfOk result (λ a. IsAssembled (source p) limits.heap limits.depth a.frame_words a.instructions a.marks a.image) }
    ensures names { IfOk result (λ a. a.bodies ≡ map (λ b. b.name) p.bodies) }
    ensures orders { IfOk result (λ a. a.orders ≡ registers_orders (source p)) }
    ensures table { IfOk result (λ a. IsTrue (table_fits (source p) a.orders)) }
    ensures permutations { IfOk result (λ a. IsTrue (is_order_table p.sites a.orders)) }
    ensures cycles { IfOk result (λ a. a.cycles ≡ listed_cycles (all_calls (source p).bodies)) }
    ensures marks { IfOk result (λ a. map (λ m. m.kind) a.marks ≡ kinds_of 0 (map registers_code (source p).bodies)) }
    ensures stand { IfOk result (λ _. IsTrue (all_marks_stand (map registers_code (source p).bodies))) }
    ensures chain { IfOk result (λ _. AreMadeFrom (source p).bodies (map registers_code (source p).bodies)) }
    ensures refused { IfErr result (IsUnfit (source p) limits.depth) }
{
    // The names outlive the bodies and the frames. Their room is taken first, so that it lies below these on the heap: what
    // is let go then lies in one piece at its end, and the passes behind take their memory from it again.
    let room = room_for_names(alloc, &p)?;
    let framed = frame_program(alloc, &p)?;
    let bodies = names_of(room, p)?;
    let FramedProgram {
        frames,
        orders,
        calls,
    } = framed;
    check_stack(frames.words, limits.depth)?;
    let code = select(alloc, &frames, limits)?;
    let frame_words = frames.words;
    drop(frames);
    let cycles = cycles_of(alloc, calls)?;
    let heap_end = end_of_heap(code.words.len(), limits.heap);
    let routines = routines(alloc, heap_end)?;
    let resolved = resolve(alloc, &code, &routines)?;
    drop(code);
    let instructions = resolved.code.len() as u64;
    let text = resolved.code.into_bytes();
    let image = program_image(alloc, text, resolved.words, resolved.zeros)?;
    Ok(Assembled {
        image,
        bodies,
        orders,
        cycles,
        frame_words,
        instructions,
        marks: resolved.marks,
    })
}
