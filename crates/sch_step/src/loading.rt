//! A machine from an image: `load`.

ghost use Rattle.std.specs.Prelude.{◌≡◌, ◌+◌, ◌<◌, ◌≤◌, ◌^◌, ◌++◌, ℕ, List, length, drop, replicate, IfOk};
ghost use Rattle.sch_word.specs.declared.answer.Answer.{Answer};
ghost use Rattle.sch_insn.specs.Step.{Runs};
ghost use Rattle.sch_elf.specs.Layout.{end_of, memory, memory_of};
ghost use Rattle.sch_step.specs.Layout.{segment_view, segments_view};
ghost use Rattle.sch_step.specs.Machine.{standing_of, loaded};
ghost use Rattle.sch_step.specs.Run.{state_of};

use crate::fetched::none_fetched;
use crate::flags::LastFlags;
use crate::machine::Machine;
use crate::processor::Processor;
use crate::segment::Segment;
use sch_elf::Image;
use sch_insn::Regs;
use sch_word::Mem;
use std::alloc::Global;

/// A machine that starts with an image: all registers are 0, no flag is known, and there are no spare
/// words.
pub fn load(alloc: Global, image: &Image) -> Result<Machine, Mem>
    ensures starts { IfOk result (λ m. (bytes : List ℕ) (answers : List Answer) → standing_of m bytes answers
        ≡ Runs (state_of (loaded image.now.entry (memory image.now.segments)) bytes answers)) }
{
    let segments = load_segments(alloc, image)?;
    let fetched = none_fetched(alloc)?;
    // Where operands are looked for first: what is written lies last in an image.
    let data = segments.len().saturating_sub(1);
    Ok(Machine {
        processor: Processor {
            regs: Regs { words: [0; 16] },
            flags: LastFlags::Unknown,
            at: image.entry,
            segments,
            code: 0,
            data,
            fetched,
        },
        exited: None,
    })
}

fn load_segments(alloc: Global, image: &Image) -> Result<Vec<Segment>, Mem>
    ensures { IfOk result (λ segments. segments_view segments ≡ memory image.now.segments) }
{
    let mut segments = Vec::new(alloc);
    for segment in image.segments.as_slice() {
        let loaded = load_segment(alloc, segment)?;
        segments.push(loaded)?;
    }
    Ok(segments)
}

/// The bytes of a segment and the zeros behind them.
fn load_segment(alloc: Global, segment: &sch_elf::Segment) -> Result<Segment, Mem>
    requires { end_of segment.now ≤ 2 ^ 47 }
    ensures { IfOk result (λ g. segment_view g ≡ memory_of segment.now) }
{
    let bytes = with_zeros(alloc, segment.bytes.as_slice(), segment.zeros as usize)?;
    Ok(Segment {
        address: segment.address,
        readable: segment.read,
        writable: segment.write,
        executable: segment.execute,
        bytes,
    })
}

/// Some bytes and zeros behind them, which are filled at once.
fn with_zeros(alloc: Global, bytes: &[u8], zeros: usize) -> Result<Vec<u8>, Mem>
    requires { length bytes.now + zeros < 2 ^ 63 }
    ensures { IfOk result (λ v. v.items ≡ bytes.now ++ replicate zeros 0) }
{
    let mut all = vec![in alloc; 0u8; bytes.len() + zeros]?;
    overwrite(all.as_mut_slice(), bytes);
    Ok(all)
}

/// Puts some bytes over the first of others.
fn overwrite(all: &mut [u8], bytes: &[u8])
    requires { length bytes.now ≤ length all.old }
    ensures { all.new ≡ bytes.now ++ drop (length bytes.now) all.old }
{
    all[..bytes.len()].copy_from_slice(bytes);
}
