//! Calls of the kernel, and a step of the machine.

ghost use Rattle.std.specs.Prelude.{◌≡◌, ◌+◌, ◌==◌, ◌&&◌, true, ◌<◌, ◌≤◌, ◌^◌, ℕ, List, length, take, option_map, IfSome};
ghost use Rattle.sch_insn.specs.declared.system_call.TheConstants.{STDOUT, SYS_WRITE};
ghost use Rattle.sch_insn.specs.Spelling.{IsValid};
ghost use Rattle.sch_insn.specs.Machine.{bytes_from, with_place};
ghost use Rattle.sch_insn.specs.Step.{moved, kernel as kernel_of, perform, step as step_of, standing};
ghost use Rattle.sch_word.specs.declared.answer.Answer.{Answer};
ghost use Rattle.sch_step.specs.Kernel.{written_core, rax_of as rax_of_answer};
ghost use Rattle.sch_step.specs.declared.ends.StepEnd.TheVariants as step_end;

use crate::ends::{StepEnd, Stuck};
use crate::fetched::KEPT;
use crate::flags::LastFlags;
use crate::processor::Processor;
use sch_insn::system_call::{STDOUT, SYS_EXIT, SYS_WRITE};
use sch_insn::{Insn, StuckCause};
use sch_io::Outlet;
use sch_word::Answer;
use sch_word::registers::{R11, RAX, RCX, RDI, RDX, RSI};

impl Processor {
    ghost use Rattle.sch_step.specs.View.{core_of, act as act_of};
    ghost use Rattle.sch_step.specs.Run.{state_of, reached_by_step, looked, Does, IsAt, KernelTo, PerformsTo, StepsTo};

    /// After a write: rax has the answer, rcx and r11 have no spare words, and no flag is known.
    fn after_write(&mut self, next: u64, rax: u64)
        ensures { core_of self.new ≡ written_core (core_of self.old) next rax }
    {
        self.set_reg(RAX, rax);
        self.set_reg(RCX, 0);
        self.set_reg(R11, 0);
        self.flags = LastFlags::Unknown;
        self.at = next;
    }

    #[inline(always)]
    fn stuck(&self, cause: StuckCause) -> StepEnd
        ensures { result ≡ step_end.Stuck (record { at = (core_of self.now).place; cause = cause }) }
    {
        StepEnd::Stuck(Stuck { at: self.at, cause })
    }

    /// The bytes of a write that the machine asks for, where they may be read.
    fn piece(&self) -> Option<&[u8]>
        requires some { 0 < (core_of self.now).registers RDX }
        ensures found { option_map (λ piece. piece.now) result
            ≡ option_map (take ((core_of self.now).registers RDX)) (bytes_from (λ g. g.readable) (core_of self.now).segments ((core_of self.now).registers RSI) ((core_of self.now).registers RDX)) }
        ensures size { IfSome result (λ piece. length piece.now ≡ (core_of self.now).registers RDX) }
    {
        let n = self.reg(RDX);
        let bytes = self.bytes_from(self.reg(RSI), n)?;
        Some(&bytes[..n as usize])
    }

    /// The call is a write to standard output.
    fn asks_to_write(&self) -> bool
        ensures { result ≡ (((core_of self.now).registers RAX == SYS_WRITE) && ((core_of self.now).registers RDI == STDOUT)) }
    {
        self.reg(RAX) == SYS_WRITE as u64 && self.reg(RDI) == STDOUT as u64
    }

    /// A write of at least one byte to standard output.
    fn write<O: Outlet>(&mut self, out: &mut O, next: u64) -> StepEnd
        requires call { (((core_of self.old).registers RAX == SYS_WRITE) && ((core_of self.old).registers RDI == STDOUT)) ≡ true }
        requires some { 0 < (core_of self.old).registers RDX }
        ensures at { IsAt result (core_of self.new).place }
        ensures did { Does (KernelTo next result (core_of self.old) (core_of self.new)) (O.bytes out.old) (O.bytes out.new) (O.left out.old) (O.left out.new) (O.faults out.old) (O.faults out.new) }
    {
        let answer = match self.piece() {
            Some(piece) => out.write(piece),
            None => return self.stuck(StuckCause::Kernel(self.reg(RAX))),
        };
        self.after_write(next, rax_of(answer));
        StepEnd::Ran
    }

    /// The kernel's rows.
    fn kernel<O: Outlet>(&mut self, out: &mut O, next: u64) -> StepEnd
        ensures at { IsAt result (core_of self.new).place }
        ensures did { Does (KernelTo next result (core_of self.old) (core_of self.new)) (O.bytes out.old) (O.bytes out.new) (O.left out.old) (O.left out.new) (O.faults out.old) (O.faults out.new) }
    {
        if self.reg(RAX) == SYS_EXIT as u64 {
            return StepEnd::Exited((self.reg(RDI) % 256) as u8);
        }
        if !self.asks_to_write() {
            return self.stuck(StuckCause::Kernel(self.reg(RAX)));
        }
        if self.reg(RDX) == 0 {
            self.after_write(next, 0);
            return StepEnd::Ran;
        }
        self.write(out, next)
    }

    /// An instruction that is no call of the kernel.
    #[inline(always)]
    fn go(&mut self, insn: &Insn, next: u64) -> StepEnd
        requires valid { IsValid insn.now }
        ensures at { IsAt result (core_of self.new).place }
        ensures went { (bytes : List ℕ) (answers : List Answer) → moved (state_of (core_of self.old) bytes answers) (act_of insn.now (with_place next (core_of self.old)))
            ≡ reached_by_step result (core_of self.new) bytes answers }
    {
        match self.act(insn, next) {
            Ok(place) => {
                self.at = place;
                StepEnd::Ran
            }
            Err(cause) => self.stuck(cause),
        }
    }

    #[inline(always)]
    fn perform<O: Outlet>(&mut self, insn: &Insn, size: usize, out: &mut O) -> StepEnd
        requires valid { IsValid insn.now }
        requires low { (core_of self.old).place + size ≤ 2 ^ 47 }
        ensures at { IsAt result (core_of self.new).place }
        ensures did { Does (PerformsTo insn.now ((core_of self.old).place + size) result (core_of self.old) (core_of self.new))
            (O.bytes out.old) (O.bytes out.new) (O.left out.old) (O.left out.new) (O.faults out.old) (O.faults out.new) }
    {
        let next = self.at + size as u64;
        match insn {
            Insn::Syscall => self.kernel(out, next),
            _ => self.go(insn, next),
        }
    }

    /// One step. The instruction is looked for among those that are kept first, and goes from there as it is, without an
    /// `Option` round it, which would be copied in parts.
    #[inline(always)]
    pub(crate) fn step<O: Outlet>(&mut self, out: &mut O) -> StepEnd
        ensures at { IsAt result (core_of self.new).place }
        ensures did { Does (StepsTo result (core_of self.old) (core_of self.new)) (O.bytes out.old) (O.bytes out.new) (O.left out.old) (O.left out.new) (O.faults out.old) (O.faults out.new) }
    {
        let kept = self.fetched[self.at as usize % KEPT];
        if kept.at == self.at && kept.size != 0 {
            return self.perform(&kept.insn, kept.size, out);
        }
        self.step_anew(out)
    }

    /// A step of an instruction that is not kept.
    #[inline(never)]
    fn step_anew<O: Outlet>(&mut self, out: &mut O) -> StepEnd
        ensures at { IsAt result (core_of self.new).place }
        ensures did { Does (StepsTo result (core_of self.old) (core_of self.new)) (O.bytes out.old) (O.bytes out.new) (O.left out.old) (O.left out.new) (O.faults out.old) (O.faults out.new) }
    {
        match self.fetch() {
            Some((insn, size)) => self.perform(&insn, size, out),
            None => self.stuck(StuckCause::Fetch),
        }
    }

    /// Why the kernel has no row for the call that the machine makes.
    fn refused(&self) -> Option<StuckCause>
        ensures { (next : ℕ) (bytes : List ℕ) (answers : List Answer) → standing (state_of (core_of self.now) bytes answers) (kernel_of (state_of (core_of self.now) bytes answers) next)
            ≡ looked result (core_of self.now) bytes answers }
    {
        if self.reg(RAX) == SYS_EXIT as u64 {
            return None;
        }
        if !self.asks_to_write() {
            return Some(StuckCause::Kernel(self.reg(RAX)));
        }
        if self.reg(RDX) == 0 {
            return None;
        }
        match self.piece() {
            Some(_) => None,
            None => Some(StuckCause::Kernel(self.reg(RAX))),
        }
    }

    fn stuck_cause_at(&self, insn: &Insn, size: usize) -> Option<StuckCause>
        requires valid { IsValid insn.now }
        requires low { (core_of self.now).place + size ≤ 2 ^ 47 }
        ensures { (bytes : List ℕ) (answers : List Answer) → standing (state_of (core_of self.now) bytes answers)
            (perform insn.now ((core_of self.now).place + size) (state_of (core_of self.now) bytes answers))
            ≡ looked result (core_of self.now) bytes answers }
    {
        let next = self.at + size as u64;
        match insn {
            Insn::Syscall => self.refused(),
            _ => self.stuck_cause(insn, next),
        }
    }

    /// Why the processor has no row, where it has none.
    pub(crate) fn look(&mut self) -> Option<StuckCause>
        ensures same { core_of self.new ≡ core_of self.old }
        ensures looked { (bytes : List ℕ) (answers : List Answer) → standing (state_of (core_of self.old) bytes answers) (step_of (state_of (core_of self.old) bytes answers))
            ≡ looked result (core_of self.old) bytes answers }
    {
        match self.fetch() {
            Some((insn, size)) => self.stuck_cause_at(&insn, size),
            None => Some(StuckCause::Fetch),
        }
    }
}

fn rax_of(answer: Answer) -> u64
    ensures { result ≡ rax_of_answer answer }
{
    match answer {
        Answer::Took(k) => k as u64,
        Answer::Failed => 0xFFFF_FFFF_FFFF_FFFB,
    }
}
