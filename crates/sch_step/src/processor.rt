//! What a machine computes with, and its operands.

ghost use Rattle.std.specs.Prelude.{ℕ, List, [], ◌∷◌, option_map, ◌≡◌, ◌+◌, ◌<◌, ◌≤◌, ◌^◌, length, IfSome, None, OnErr, Ok, Err, true, false, vec_len};
ghost use Rattle.std.specs.Int.{w64, to_le_bytes};
ghost use Rattle.sch_insn.specs.Spelling.{IsArg};
ghost use Rattle.sch_insn.specs.Machine.{holds, stored, bytes_from, with_register, with_flags, with_place, word_at, byte_at, write_bytes, address_of};
ghost use Rattle.sch_insn.specs.Machine.{load as load_of, store as store_of, word as word_of};
ghost use Rattle.sch_step.specs.Layout.{IsMemory, segments_view, segment_at, NoneHolds};
ghost use Rattle.sch_step.specs.Fetched.{AreFetched};
ghost use Rattle.sch_step.specs.Propositions.{AreFetched-prop};
ghost use Rattle.sch_step.specs.declared.fetched.TheConstants.{KEPT};

use crate::fetched::Fetched;
use crate::flags::LastFlags;
use crate::segment::Segment;
use sch_insn::{Arg, Regs, StuckCause};

/// What a machine computes with: registers, flags, the address of its next instruction, memory. It remembers in which
/// segments it found its last instruction and its last operand, and keeps instructions that it fetched.
#[derive(Drop)]
pub struct Processor {
    pub(crate) regs: Regs,
    pub(crate) flags: LastFlags,
    pub(crate) at: u64,
    pub(crate) segments: Vec<Segment>,
    pub(crate) code: usize,
    pub(crate) data: usize,
    pub(crate) fetched: Vec<Fetched>,
    ghost laid_out: { IsMemory (segments_view segments) },
    ghost counted: { length fetched.items ≡ KEPT },
    ghost kept: { AreFetched (segments_view segments) fetched.items } by { AreFetched-prop (segments_view segments) fetched.items },
}

impl Processor {
    ghost use Rattle.sch_step.specs.View.{core_of, gone_on, changed, flags_of};

    #[inline(always)]
    fn holds_at(&self, i: usize, address: u64, n: u64) -> bool
        requires { i < vec_len self.now.segments }
        ensures { result ≡ holds (segment_at (segments_view self.now.segments) i) address n }
    {
        self.segments[i].holds(address, n)
    }

    /// A segment that holds these bytes; the hint is looked at first.
    #[inline(always)]
    pub(crate) fn find(&self, hint: usize, address: u64, n: u64) -> Option<usize>
        ensures within { IfSome result (λ i. i < length self.now.segments.items) }
        ensures some { IfSome result (λ i. holds (segment_at (segments_view self.now.segments) i) address n ≡ true) }
        ensures none { result ≡ None → NoneHolds (segments_view self.now.segments) address n }
    {
        if hint < self.segments.len() && self.holds_at(hint, address, n) {
            return Some(hint);
        }
        self.search(address, n)
    }

    /// A segment that holds these bytes, where there is no hint.
    #[inline(never)]
    fn search(&self, address: u64, n: u64) -> Option<usize>
        ensures within { IfSome result (λ i. i < length self.now.segments.items) }
        ensures some { IfSome result (λ i. holds (segment_at (segments_view self.now.segments) i) address n ≡ true) }
        ensures none { result ≡ None → NoneHolds (segments_view self.now.segments) address n }
    {
        for i in 0..self.segments.len() {
            if self.holds_at(i, address, n) {
                return Some(i);
            }
        }
        None
    }

    #[inline(always)]
    pub(crate) fn reg(&self, r: u8) -> u64
        requires { r < 16 }
        ensures { result ≡ (core_of self.now).registers r }
    {
        self.regs.words[r as usize]
    }

    #[inline(always)]
    pub(crate) fn set_reg(&mut self, r: u8, value: u64)
        requires { r < 16 }
        ensures { core_of self.new ≡ with_register r value (core_of self.old) }
    {
        self.regs.words[r as usize] = value;
    }

    #[inline(always)]
    pub(crate) fn set_flags(&mut self, flags: LastFlags)
        ensures { core_of self.new ≡ with_flags (flags_of flags) (core_of self.old) }
    {
        self.flags = flags;
    }

    /// The bytes from an address on, to the end of their segment, where n of them may be read.
    #[inline(always)]
    pub(crate) fn bytes_from(&self, address: u64, n: u64) -> Option<&[u8]>
        requires some { 0 < n }
        ensures found { option_map (λ bytes. bytes.now) result ≡ bytes_from (λ g. g.readable) (core_of self.now).segments address n }
        ensures enough { IfSome result (λ bytes. n ≤ length bytes.now) }
    {
        let i = self.find(self.data, address, n)?;
        let s = &self.segments[i];
        if !s.readable {
            return None;
        }
        Some(s.tail((address - s.address) as usize))
    }

    #[inline(always)]
    fn word(&self, address: u64) -> Result<u64, StuckCause>
        ensures { result ≡ word_at (core_of self.now).segments address }
    {
        match self.bytes_from(address, 8) {
            Some(b) => Ok(u64::from_le_bytes([b[0], b[1], b[2], b[3], b[4], b[5], b[6], b[7]])),
            None => Err(StuckCause::Access(address)),
        }
    }

    #[inline(always)]
    pub(crate) fn byte(&self, address: u64) -> Result<u64, StuckCause>
        ensures { result ≡ byte_at (core_of self.now).segments address }
    {
        match self.bytes_from(address, 1) {
            Some(b) => Ok(b[0] as u64),
            None => Err(StuckCause::Access(address)),
        }
    }

    #[inline(always)]
    pub(crate) fn address(&self, m: &Arg, next: u64) -> u64
        requires { IsArg m.now }
        ensures { result ≡ address_of (with_place next (core_of self.now)) m.now }
    {
        match *m {
            Arg::Reg(_) => 0,
            Arg::Base(b) => self.reg(b),
            Arg::Base8(b, d) => self.reg(b).wrapping_add(word_of(d as i32)),
            Arg::Base32(b, d) => self.reg(b).wrapping_add(word_of(d)),
            Arg::Rip(d) => next.wrapping_add(word_of(d)),
        }
    }

    /// The word in an operand, where the next instruction has the address `next`.
    #[inline(always)]
    pub(crate) fn load(&self, m: &Arg, next: u64) -> Result<u64, StuckCause>
        requires { IsArg m.now }
        ensures { result ≡ load_of (with_place next (core_of self.now)) m.now }
    {
        match *m {
            Arg::Reg(r) => Ok(self.reg(r)),
            _ => self.word(self.address(m, next)),
        }
    }

    /// Where n bytes from an address on may be written: the index of their segment.
    #[inline(always)]
    pub(crate) fn place_to_write(&self, address: u64, n: u64) -> Option<usize>
        ensures within { IfSome result (λ i. i < length self.now.segments.items) }
        ensures some { IfSome result (λ i. holds (segment_at (segments_view self.now.segments) i) address n ≡ true) }
        ensures writable { IfSome result (λ i. (segment_at (segments_view self.now.segments) i).writable ≡ true) }
        ensures none { result ≡ None → (ys : List ℕ) → length ys ≡ n → 0 < n → stored (core_of self.now).segments address ys ≡ None }
    {
        let i = self.find(self.data, address, n)?;
        if !self.segments[i].writable {
            return None;
        }
        Some(i)
    }

    #[inline(always)]
    fn set_word(&mut self, address: u64, value: u64) -> Result<(), StuckCause>
        ensures value { (place : ℕ) → changed result (with_place place (core_of self.new)) ≡ write_bytes (with_place place (core_of self.old)) address (to_le_bytes w64 value) }
        ensures same { OnErr result (core_of self.new ≡ core_of self.old) }
    {
        let i = match self.place_to_write(address, 8) {
            Some(i) => i,
            None => return Err(StuckCause::Access(address)),
        };
        self.data = i;
        let s = &mut self.segments[i];
        s.put_word((address - s.address) as usize, value);
        Ok(())
    }

    #[inline(always)]
    pub(crate) fn set_byte(&mut self, address: u64, value: u8) -> Result<(), StuckCause>
        ensures value { (place : ℕ) → changed result (with_place place (core_of self.new)) ≡ write_bytes (with_place place (core_of self.old)) address (value ∷ []) }
        ensures same { OnErr result (core_of self.new ≡ core_of self.old) }
    {
        let i = match self.place_to_write(address, 1) {
            Some(i) => i,
            None => return Err(StuckCause::Access(address)),
        };
        self.data = i;
        let s = &mut self.segments[i];
        s.put_byte((address - s.address) as usize, value);
        Ok(())
    }

    /// Puts a word into an operand, where the next instruction has the address `next`.
    #[inline(always)]
    pub(crate) fn store(&mut self, m: &Arg, value: u64, next: u64) -> Result<(), StuckCause>
        requires { IsArg m.now }
        ensures value { changed result (with_place next (core_of self.new)) ≡ store_of (with_place next (core_of self.old)) m.now value }
        ensures same { OnErr result (core_of self.new ≡ core_of self.old) }
    {
        match *m {
            Arg::Reg(r) => {
                self.set_reg(r, value);
                Ok(())
            }
            _ => {
                let address = self.address(m, next);
                self.set_word(address, value)
            }
        }
    }
}

/// The word of a signed number.
#[inline(always)]
pub(crate) fn word_of(n: i32) -> u64
    ensures { result ≡ word_of n }
{
    (n as i64).cast_unsigned()
}
