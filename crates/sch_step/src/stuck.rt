//! Why an instruction has no next step.

ghost use Rattle.std.specs.Prelude.{◌≡◌, ◌+◌, ◌<◌, ◌≤◌, ◌^◌, ℕ, List, length, None, Ok};
ghost use Rattle.std.specs.Result.{result_err};
ghost use Rattle.sch_word.specs.values.Options.{when_ok};
ghost use Rattle.sch_insn.specs.Spelling.{IsArg, IsValid};
ghost use Rattle.sch_insn.specs.Machine.{Core, Computed, with_place, load as load_of, store as store_of, write_bytes};
ghost use Rattle.sch_insn.specs.Step.{change};

use crate::division::divided;
use crate::processor::Processor;
use sch_insn::{Arg, Insn, StuckCause};
use sch_word::registers::{RAX, RDX};

impl Processor {
    ghost use Rattle.sch_step.specs.View.{core_of, act as act_of};

    /// Why the operand cannot be read.
    fn unreadable(&self, m: &Arg, next: u64) -> Option<StuckCause>
        requires { IsArg m.now }
        ensures read { result ≡ result_err (load_of (with_place next (core_of self.now)) m.now) }
        ensures used { (f : ℕ → Core) → result ≡ result_err (when_ok (load_of (with_place next (core_of self.now)) m.now) (λ value. Ok (f value))) }
    {
        match self.load(m, next) {
            Ok(_) => None,
            Err(cause) => Some(cause),
        }
    }

    /// Why n bytes from an address on cannot be written.
    fn closed(&self, address: u64, n: u64) -> Option<StuckCause>
        requires some { 0 < n }
        ensures { (place : ℕ) (ys : List ℕ) → length ys ≡ n → result ≡ result_err (write_bytes (with_place place (core_of self.now)) address ys) }
    {
        match self.place_to_write(address, n) {
            Some(_) => None,
            None => Some(StuckCause::Access(address)),
        }
    }

    /// Why a word cannot be put into the operand.
    fn unwritable(&self, m: &Arg, next: u64) -> Option<StuckCause>
        requires { IsArg m.now }
        ensures { (value : ℕ) → result ≡ result_err (store_of (with_place next (core_of self.now)) m.now value) }
    {
        match *m {
            Arg::Reg(_) => None,
            _ => self.closed(self.address(m, next), 8),
        }
    }

    /// Why the operand cannot be read and written.
    fn unchangeable(&self, m: &Arg, next: u64) -> Option<StuckCause>
        requires { IsArg m.now }
        ensures { (f : ℕ → Computed) → result ≡ result_err (change (with_place next (core_of self.now)) m.now f) }
    {
        match self.unreadable(m, next) {
            Some(cause) => Some(cause),
            None => self.unwritable(m, next),
        }
    }

    /// Why the processor has no row for an instruction that is no call of the kernel.
    pub(crate) fn stuck_cause(&self, insn: &Insn, next: u64) -> Option<StuckCause>
        requires valid { IsValid insn.now }
        ensures { result ≡ result_err (act_of insn.now (with_place next (core_of self.now))) }
    {
        match insn {
            Insn::MovTo(m, _) | Insn::MovNumber(m, _) => self.unwritable(m, next),
            Insn::StoreByte(m, _) => self.closed(self.address(m, next), 1),
            Insn::LoadByte(_, m) => self.byte(self.address(m, next)).err(),
            Insn::AddTo(m, _)
            | Insn::OrTo(m, _)
            | Insn::AndTo(m, _)
            | Insn::SubTo(m, _)
            | Insn::XorTo(m, _)
            | Insn::AddNumber(m, _)
            | Insn::OrNumber(m, _)
            | Insn::AndNumber(m, _)
            | Insn::SubNumber(m, _)
            | Insn::XorNumber(m, _)
            | Insn::AddNumber8(m, _)
            | Insn::OrNumber8(m, _)
            | Insn::AndNumber8(m, _)
            | Insn::SubNumber8(m, _)
            | Insn::XorNumber8(m, _)
            | Insn::Neg(m)
            | Insn::Shl(m, _)
            | Insn::Shr(m, _)
            | Insn::Sar(m, _) => self.unchangeable(m, next),
            Insn::MovFrom(_, m) => self.unreadable(m, next),
            Insn::CmpTo(m, _) => self.unreadable(m, next),
            Insn::AddFrom(_, m) => self.unreadable(m, next),
            Insn::OrFrom(_, m) => self.unreadable(m, next),
            Insn::AndFrom(_, m) => self.unreadable(m, next),
            Insn::SubFrom(_, m) => self.unreadable(m, next),
            Insn::XorFrom(_, m) => self.unreadable(m, next),
            Insn::CmpFrom(_, m) => self.unreadable(m, next),
            Insn::CmpNumber(m, _) => self.unreadable(m, next),
            Insn::CmpNumber8(m, _) => self.unreadable(m, next),
            Insn::TestTo(m, _) => self.unreadable(m, next),
            Insn::Imul(_, m) => self.unreadable(m, next),
            Insn::JumpTo(m) => self.unreadable(m, next),
            Insn::Idiv(m) => match self.load(m, next) {
                Ok(v) => divided(self.reg(RDX), self.reg(RAX), v).err(),
                Err(cause) => Some(cause),
            },
            Insn::JumpIf(c, _) | Insn::JumpIf8(c, _) => match self.flags.condition(*c) {
                Some(_) => None,
                None => Some(StuckCause::Flag),
            },
            // never reached: `stuck_cause_at` answers the call of the kernel
            Insn::Syscall => Some(StuckCause::Kernel(self.reg(RAX))),
            Insn::MovWord(_, _) | Insn::Lea(_, _) | Insn::Cqo | Insn::Jump(_) | Insn::Jump8(_) =>
                None,
        }
    }
}
