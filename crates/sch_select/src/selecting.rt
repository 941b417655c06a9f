//! A frame program's items and data: `select`.

ghost use Rattle.std.specs.Prelude.{◌≡◌, ◌+◌, ◌*◌, ◌^◌, ◌<◌, ◌≤◌, ◌++◌, [], ◌∷◌, false, true, IfOk, IsTrue, OnOk, length};
ghost use Rattle.std.specs.List.{list_all};
ghost use Rattle.sch_word.specs.runs.ProgramLayout.{data_address, max_data_size};
ghost use Rattle.sch_word.specs.declared.limits.TheConstants.{MAX_DEPTH};
ghost use Rattle.sch_word.specs.runs.Runs.{max_statics};
ghost use Rattle.sch_asm.specs.Codes.{instructions_in, text_size};
ghost use Rattle.sch_asm.specs.Items.{AreOwn};
ghost use Rattle.sch_asm.specs.Narrow.{is_narrow_item, narrowed};
ghost use Rattle.sch_asm.specs.Routines.{label_of};
ghost use Rattle.sch_asm.specs.declared.routine.Routine.TheVariants as routine;
ghost use Rattle.sch_asm.specs.declared.item.Item.TheVariants as item;
ghost use Rattle.sch_frames.specs.Covered.{is_covered_program};
ghost use Rattle.sch_frames.specs.ProgramView.{source};
ghost use Rattle.sch_frames.specs.Sizes.{program_copies, program_work};
ghost use Rattle.sch_frames.specs.SourceView.{codes_of};
ghost use Rattle.sch_frames.specs.Standing.{all_marks_stand};
ghost use Rattle.sch_frames.specs.Valid.{max_words};
ghost use Rattle.sch_select.specs.Follows.{EndsFrames, EntersFrames, FollowsFrames, PassesFrames, TakesFrames};
ghost use Rattle.sch_select.specs.Jumps.{jumps_ahead};
ghost use Rattle.sch_select.specs.Reach.{is_reached_code};
ghost use Rattle.sch_select_data.specs.Data.{heap_of, max_heap_address};
ghost use Rattle.sch_select.specs.Program.{frames_bytes, forms_code, labels_of, laid_code, max_stack, own_label};
ghost use Rattle.sch_select.specs.Program.{own_labels, program_code, program_zeros, stack_bytes};
ghost use Rattle.sch_select_memory.specs.Addresses.{max_heap_end, max_labels};
ghost use Rattle.sch_select.specs.MarkedStores.{stores_marked};
ghost use Rattle.sch_select.specs.FrameWords.{keeps_frames};
ghost use Rattle.sch_select.specs.KnownBases.{bases_known};
ghost use Rattle.sch_select.specs.SlotAddress.{overwrites_slot};
ghost use Rattle.sch_select.specs.Sizes.{kinds_in, kinds_of, steps_size};

use crate::body_items::{Frames, forms};
use sch_asm::{Asm, Item, ItemList, Routine, narrowed};
use sch_frames::{FrameBody, FrameProgram};
use sch_insn::Insn;
use sch_select_data::{lay_out, literal_words, words_of};
use sch_select_memory::addresses::body_label;
use sch_word::{DEPTH_REGISTER, FRAME_REGISTER, HEAP_REGISTER, Limits, Mem};
use std::alloc::Global;

/// The bytes of the stack.
fn stack_of(words: u32, depth: u64) -> u64
    requires words { words ≤ max_words }
    requires fits { frames_bytes words depth ≤ max_stack }
    ensures bytes { result ≡ stack_bytes words depth }
    ensures few { result ≤ max_stack + 8 * max_words }
{
    let frame = 8 * words as u64;
    frame * depth + 2 * frame
}

/// Where the heap begins, behind objects from a unit on that take this many words.
fn heap_behind(unit: u64, words: usize) -> u64
    requires low { 16 * unit + 8 * words ≤ max_heap_address }
    ensures start { result ≡ 16 * unit + 8 * words }
    ensures low { result ≤ max_heap_address }
{
    16 * unit + 8 * words as u64
}

/// Where the heap and the stack begin, with this depth.
#[derive(Clone, Copy)]
struct Ends {
    heap: u64,
    stack: u32,
    depth: u64,
}

/// The bodies, with labels of their own from n on, and a jump to the end behind them.
fn put_bodies(items: &mut ItemList, frames: Frames, n: u32, bodies: &[FrameBody]) -> Result<(), Mem>
    requires words { frames.words ≤ max_words }
    requires low { frames.heap_end ≤ max_heap_end }
    requires reached { IsTrue (list_all is_reached_code (codes_of bodies.now)) }
    requires count { length bodies.now ≤ max_labels }
    requires labels { n + own_labels (codes_of bodies.now) + 12 ≤ 2 ^ 32 }
    ensures { OnOk result (items.new ≡ items.old ++ forms_code frames.words frames.heap_end frames.literals 0 n
        (codes_of bodies.now) (item.Jump (label_of routine.End) ∷ [])) }
{
    forms(items, frames, n, bodies)?;
    items.push(Item::Jump(Routine::End.label()))
}

/// What the instructions of a program are selected to, whose heap and stack begin so.
fn selected_items(alloc: Global, p: &FrameProgram, ends: Ends) -> Result<ItemList, Mem>
    requires heap { ends.heap < 2 ^ 31 }
    requires stack { ends.stack ≤ max_heap_end }
    requires depth { ends.depth ≤ MAX_DEPTH }
    requires reached { IsTrue (list_all is_reached_code (codes_of p.now.bodies)) }
    requires few { length p.now.statics.literals ≤ max_statics }
    requires labels { length p.now.bodies + own_labels (codes_of p.now.bodies) ≤ max_labels }
    ensures { IfOk result (λ items. items ≡ laid_code p.now.words ends.stack (length p.now.statics.literals) ends.heap
        ends.depth (length p.now.bodies) (codes_of p.now.bodies)) }
{
    let bodies = p.bodies.as_slice();
    let own = body_label(bodies.len() as u32);
    let mut items = ItemList::new(alloc);
    items.extend_from_slice(&[
        Item::Plain(Insn::MovWord(FRAME_REGISTER, ends.stack as i64)),
        Item::Plain(Insn::MovWord(HEAP_REGISTER, ends.heap as i64)),
        Item::Plain(Insn::MovWord(DEPTH_REGISTER, ends.depth as i64)),
    ])?;
    let frames = Frames {
        words: p.words,
        heap_end: ends.stack,
        literals: p.statics.literals.len() as u32,
    };
    put_bodies(&mut items, frames, own, bodies)?;
    Ok(items)
}

/// Its items: each instruction has its shortest form.
fn items_of(alloc: Global, p: &FrameProgram, ends: Ends) -> Result<ItemList, Mem>
    requires heap { ends.heap < 2 ^ 31 }
    requires stack { ends.stack ≤ max_heap_end }
    requires depth { ends.depth ≤ MAX_DEPTH }
    requires reached { IsTrue (list_all is_reached_code (codes_of p.now.bodies)) }
    requires few { length p.now.statics.literals ≤ max_statics }
    requires labels { length p.now.bodies + own_labels (codes_of p.now.bodies) ≤ max_labels }
    ensures { IfOk result (λ items. items ≡ narrowed (laid_code p.now.words ends.stack (length p.now.statics.literals) ends.heap
        ends.depth (length p.now.bodies) (codes_of p.now.bodies))) }
{
    let items = selected_items(alloc, p, ends)?;
    Ok(narrowed(items))
}

/// The items and data of a frame program under limits of heap and depth. The registers of the frame, the heap and the depth are set,
/// and the bodies follow one after the other, those of procedures jumped over.
///
/// Resolved with the run-time routines for where its heap ends, they do what the program does, whatever the machine is given and
/// whatever the kernel answers, and pass the program's marks. No call spreads its last operand. The frames of a form
/// and of the calls that may be pending take at most 2^30 bytes. Time and memory are linear in the
/// instructions, the labels, what is static and the library.
pub fn select(alloc: Global, p: &FrameProgram, limits: Limits) -> Result<Asm, Mem>
    requires covered { IsTrue (is_covered_program (source p.now)) }
    requires stack { frames_bytes p.now.words limits.depth ≤ max_stack }
    // All labels have numbers of 32 bits.
    requires labels { labels_of (source p.now).bodies ≤ max_labels }
    ensures follows { IfOk result (λ a. FollowsFrames (source p.now) limits.heap limits.depth a.items a.words a.zeros) }
    ensures steps { IfOk result (λ a. EndsFrames (source p.now) limits.heap limits.depth a.items a.words a.zeros) }
    ensures passes { IfOk result (λ a. PassesFrames (source p.now) limits.heap limits.depth a.items a.words a.zeros) }
    ensures entries { IfOk result (λ a. EntersFrames (source p.now) limits.heap limits.depth a.items a.words a.zeros) }
    // The items are those that the program is defined to have.
    ensures items { IfOk result (λ a. a.items ≡ program_code (source p.now) limits.heap limits.depth) }
    // No displacement and no number of an instruction has four bytes where one byte has it too.
    ensures narrow { IfOk result (λ a. IsTrue (list_all is_narrow_item a.items)) }
    ensures takes { IfOk result (λ a. TakesFrames (source p.now) limits.heap limits.depth a.items a.words a.zeros) }
    ensures own { IfOk result (λ a. AreOwn a.items) }
    ensures text { IfOk result (λ a. text_size a.items ≤ 64 + (64 * program_work (source p.now) + 8 * program_copies (source p.now))) }
    // What the bound of steps counts has no more than three units for each instruction.
    ensures instructions { IfOk result (λ a. steps_size (source p.now) ≤ 3 * instructions_in a.items) }
    ensures ahead { IfOk result (λ a. IsTrue (jumps_ahead (own_label (source p.now)) a.items)) }
    ensures marks { IfOk result (λ a. kinds_in a.items ≡ kinds_of 0 (source p.now).bodies) }
    // Where each mark of a body stands at its instruction, each write of memory through the frame's register stands behind one.
    ensures stores { IfOk result (λ a. IsTrue (all_marks_stand (source p.now).bodies) → IsTrue (stores_marked None a.items)) }
    // The address that the frame's register has goes into no other register and no word of memory. The first two items set that register to
    // where the frames begin, and the heap's to where the heap does: behind them neither gets a number, and the heap's goes on by
    // multiples of 16 bytes, or by what RDX has. Each word that is named by its number ends before the heap begins.
    ensures frame { IfOk result (λ a. IsTrue (keeps_frames (source p.now) limits.heap a.items)) }
    // The address of a slot that the routine of lists leaves in RCX is overwritten before an item reads it, and before a jump to a routine
    // that is handed a word in RCX.
    ensures slot { IfOk result (λ a. IsTrue (overwrites_slot (own_label (source p.now)) true [] a.items)) }
    // Each base of an operand in memory is the frame's register, the heap's, or one that has got a word of memory, of the heap's register or of
    // one in which bodies have words, or whose tag was tested not to be 0: none was set to a number since.
    ensures bases { IfOk result (λ a. IsTrue (bases_known false false false a.items)) }
    // The words end where the heap begins.
    ensures words { IfOk result (λ a. data_address + 8 * length a.words ≡ heap_of (source p.now)) }
    ensures low { IfOk result (λ a. heap_of (source p.now) ≤ max_heap_address) }
    ensures zeros { IfOk result (λ a. a.zeros ≡ program_zeros (source p.now) limits.heap limits.depth) }
    ensures ends { IfOk result (λ a. 8 * length a.words + a.zeros ≤ max_data_size) }
{
    let zeros = limits.heap + stack_of(p.words, limits.depth);
    let places = lay_out(&p.statics, p.library.len() as u64);
    let literals = literal_words(alloc, &p.statics.literals, places.unit)?;
    let heap = heap_behind(places.unit, literals.objects.len());
    let ends = Ends {
        heap,
        stack: (heap + limits.heap) as u32,
        depth: limits.depth,
    };
    let items = items_of(alloc, p, ends)?;
    let words = words_of(alloc, p, places, literals)?;
    Ok(Asm {
        items,
        words,
        zeros,
    })
}
