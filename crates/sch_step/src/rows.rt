//! What each instruction does, a row for each form.

ghost use Rattle.std.specs.Prelude.{◌≡◌, ◌+◌, ◌*◌, ◌/◌, ◌%◌, ◌<◌, ◌≤◌, ◌^◌, ◌∷◌, [], Ok, bit_and, bit_or, bit_xor};
ghost use Rattle.sch_word.specs.values.Options.{when_ok};
ghost use Rattle.sch_insn.specs.Spelling.{IsArg, IsValid};
ghost use Rattle.sch_insn.specs.Machine.{with_register, with_flags, byte_at, write_bytes, address_of, load as load_of, store as store_of};
ghost use Rattle.sch_insn.specs.Machine.{sum_of, difference_of, bits_of, product_of, shifted, shift_right_signed as shift_right_signed_of};
ghost use Rattle.sch_insn.specs.Machine.{word as word_of_number, condition as condition_of};
ghost use Rattle.sch_insn.specs.Kinds.{EndsInNumber};
ghost use Rattle.sch_step.specs.Kinds.{IsOnTwo};
ghost use Rattle.sch_insn.specs.Step.{change, gather, compare, divide, sign_word, jump_if};

use crate::division::divided;
use crate::flags::{LastFlags, is_negative};
use crate::processor::{Processor, word_of};
use sch_insn::{Arg, Insn, StuckCause};
use sch_word::registers::{RAX, RDX};

/// One row for each form: the call that does it.
macro_rules! rows {
    ($insn:expr, $this:ident, $next:ident; {
        $($form:pat => $call:ident($($arg:expr),*);)*
    } {
        $($jump:pat => $answer:expr;)*
    }) => {
        match $insn {
            $($form => $this.$call($($arg,)* $next),)*
            $($jump => $answer,)*
        }
    };
}

impl Processor {
    ghost use Rattle.sch_step.specs.View.{core_of, flags_of, act as act_of, Goes};

    /// What an instruction does, and the place where it goes on, where the next instruction has the
    /// address `next`. A call of the kernel is not done here.
    pub(crate) fn act(&mut self, insn: &Insn, next: u64) -> Result<u64, StuckCause>
        requires valid { IsValid insn.now }
        ensures { Goes result next (core_of self.old) (core_of self.new) (act_of insn.now) }
    {
        rows! { insn, self, next; {
            Insn::MovTo(m, r) => mov_to(m, self.reg(*r));
            Insn::MovFrom(r, m) => mov_from(*r, m);
            Insn::MovNumber(m, n) => mov_to(m, word_in(n));
            Insn::MovWord(r, n) => set(*r, n.cast_unsigned());
            Insn::StoreByte(m, r) => store_byte(m, *r);
            Insn::LoadByte(r, m) => load_byte(*r, m);
            Insn::Lea(r, m) => set(*r, self.address(m, next));
            Insn::Imul(r, m) => imul(*r, m);
            Insn::Neg(m) => neg(m);
            Insn::Idiv(m) => idiv(m);
            Insn::Cqo => cqo();
            Insn::Shl(m, k) => shl(m, *k);
            Insn::Shr(m, k) => shr(m, *k);
            Insn::Sar(m, k) => sar(m, *k);
            Insn::JumpIf(c, d) => jump_if(*c, *d);
            Insn::JumpIf8(c, d) => jump_if(*c, *d as i32);
        } {
            Insn::Jump(d) => Ok(next.wrapping_add(word_in(d)));
            Insn::Jump8(d) => Ok(next.wrapping_add(word_in_byte(d)));
            Insn::JumpTo(m) => self.load(m, next);
            // never reached: `perform` answers the call of the kernel
            Insn::Syscall => Err(StuckCause::Kernel(self.reg(RAX)));
            _ => self.act_on_two(insn, next);
        } }
    }

    /// The same for an add, a subtraction, a comparison, or one that goes bit by bit, of two words.
    #[inline(always)]
    fn act_on_two(&mut self, insn: &Insn, next: u64) -> Result<u64, StuckCause>
        requires kind { IsOnTwo insn.now }
        requires valid { IsValid insn.now }
        ensures { Goes result next (core_of self.old) (core_of self.new) (act_of insn.now) }
    {
        rows! { insn, self, next; {
            Insn::AddTo(m, r) => add_to(m, self.reg(*r));
            Insn::OrTo(m, r) => or_to(m, self.reg(*r));
            Insn::AndTo(m, r) => and_to(m, self.reg(*r));
            Insn::SubTo(m, r) => sub_to(m, self.reg(*r));
            Insn::XorTo(m, r) => xor_to(m, self.reg(*r));
            Insn::CmpTo(m, r) => cmp_to(m, self.reg(*r));
            Insn::TestTo(m, r) => test_to(m, self.reg(*r));
            Insn::AddFrom(r, m) => add_from(*r, m);
            Insn::OrFrom(r, m) => or_from(*r, m);
            Insn::AndFrom(r, m) => and_from(*r, m);
            Insn::SubFrom(r, m) => sub_from(*r, m);
            Insn::XorFrom(r, m) => xor_from(*r, m);
            Insn::CmpFrom(r, m) => cmp_from(self.reg(*r), m);
        } {
            _ => self.act_with_number(insn, next);
        } }
    }

    /// The same for one of these whose second word is a number.
    #[inline(always)]
    fn act_with_number(&mut self, insn: &Insn, next: u64) -> Result<u64, StuckCause>
        requires kind { EndsInNumber insn.now }
        requires valid { IsValid insn.now }
        ensures { Goes result next (core_of self.old) (core_of self.new) (act_of insn.now) }
    {
        rows! { insn, self, next; {
            Insn::AddNumber(m, n) => add_to(m, word_in(n));
            Insn::OrNumber(m, n) => or_to(m, word_in(n));
            Insn::AndNumber(m, n) => and_to(m, word_in(n));
            Insn::SubNumber(m, n) => sub_to(m, word_in(n));
            Insn::XorNumber(m, n) => xor_to(m, word_in(n));
            Insn::CmpNumber(m, n) => cmp_to(m, word_in(n));
            Insn::AddNumber8(m, n) => add_to(m, word_in_byte(n));
            Insn::OrNumber8(m, n) => or_to(m, word_in_byte(n));
            Insn::AndNumber8(m, n) => and_to(m, word_in_byte(n));
            Insn::SubNumber8(m, n) => sub_to(m, word_in_byte(n));
            Insn::XorNumber8(m, n) => xor_to(m, word_in_byte(n));
            Insn::CmpNumber8(m, n) => cmp_to(m, word_in_byte(n));
        } {
            _ => unreachable!();
        } }
    }

    /// `mov` into an operand.
    #[inline(always)]
    fn mov_to(&mut self, m: &Arg, value: u64, next: u64) -> Result<u64, StuckCause>
        requires arg { IsArg m.now }
        ensures { Goes result next (core_of self.old) (core_of self.new) (λ d. store_of d m.now value) }
    {
        self.store(m, value, next)?;
        Ok(next)
    }

    /// `mov` from an operand.
    #[inline(always)]
    fn mov_from(&mut self, r: u8, m: &Arg, next: u64) -> Result<u64, StuckCause>
        requires arg { IsArg m.now }
        requires reg { r < 16 }
        ensures { Goes result next (core_of self.old) (core_of self.new) (λ d. when_ok (load_of d m.now) (λ v. Ok (with_register r v d))) }
    {
        let value = self.load(m, next)?;
        self.set_reg(r, value);
        Ok(next)
    }

    /// A register becomes a word.
    #[inline(always)]
    fn set(&mut self, r: u8, value: u64, next: u64) -> Result<u64, StuckCause>
        requires reg { r < 16 }
        ensures { Goes result next (core_of self.old) (core_of self.new) (λ d. Ok (with_register r value d)) }
    {
        self.set_reg(r, value);
        Ok(next)
    }

    /// `movb` into memory.
    #[inline(always)]
    fn store_byte(&mut self, m: &Arg, r: u8, next: u64) -> Result<u64, StuckCause>
        requires arg { IsArg m.now }
        requires reg { r < 16 }
        ensures { Goes result next (core_of self.old) (core_of self.new)
            (λ d. write_bytes d (address_of d m.now) (d.registers r % 256 ∷ [])) }
    {
        let address = self.address(m, next);
        let value = (self.reg(r) % 256) as u8;
        self.set_byte(address, value)?;
        Ok(next)
    }

    /// `movzx` from memory.
    #[inline(always)]
    fn load_byte(&mut self, r: u8, m: &Arg, next: u64) -> Result<u64, StuckCause>
        requires arg { IsArg m.now }
        requires reg { r < 16 }
        ensures { Goes result next (core_of self.old) (core_of self.new)
            (λ d. when_ok (byte_at d.segments (address_of d m.now)) (λ v. Ok (with_register r v d))) }
    {
        let value = self.byte(self.address(m, next))?;
        self.set_reg(r, value);
        Ok(next)
    }

    /// Puts a result into an operand, and sets the flags.
    #[inline(always)]
    fn put_back(
        &mut self,
        m: &Arg,
        value: u64,
        flags: LastFlags,
        next: u64,
    ) -> Result<u64, StuckCause>
        requires arg { IsArg m.now }
        ensures { Goes result next (core_of self.old) (core_of self.new)
            (λ d. when_ok (store_of d m.now value) (λ e. Ok (with_flags (flags_of flags) e))) }
    {
        self.store(m, value, next)?;
        self.set_flags(flags);
        Ok(next)
    }

    /// Puts a result into a register, and sets the flags.
    #[inline(always)]
    fn put_in(&mut self, r: u8, value: u64, flags: LastFlags, next: u64) -> Result<u64, StuckCause>
        requires reg { r < 16 }
        ensures { Goes result next (core_of self.old) (core_of self.new) (λ d. Ok (with_flags (flags_of flags) (with_register r value d))) }
    {
        self.set_reg(r, value);
        self.set_flags(flags);
        Ok(next)
    }

    /// `add` of a word to an operand.
    #[inline(always)]
    fn add_to(&mut self, m: &Arg, b: u64, next: u64) -> Result<u64, StuckCause>
        requires arg { IsArg m.now }
        ensures { Goes result next (core_of self.old) (core_of self.new) (λ d. change d m.now (λ v. sum_of v b)) }
    {
        let a = self.load(m, next)?;
        self.put_back(m, a.wrapping_add(b), LastFlags::Sum(a, b), next)
    }

    /// `sub` of a word to an operand.
    #[inline(always)]
    fn sub_to(&mut self, m: &Arg, b: u64, next: u64) -> Result<u64, StuckCause>
        requires arg { IsArg m.now }
        ensures { Goes result next (core_of self.old) (core_of self.new) (λ d. change d m.now (λ v. difference_of v b)) }
    {
        let a = self.load(m, next)?;
        self.put_back(m, a.wrapping_sub(b), LastFlags::Difference(a, b), next)
    }

    /// `or` of a word to an operand.
    #[inline(always)]
    fn or_to(&mut self, m: &Arg, b: u64, next: u64) -> Result<u64, StuckCause>
        requires arg { IsArg m.now }
        ensures { Goes result next (core_of self.old) (core_of self.new) (λ d. change d m.now (λ v. bits_of (bit_or v b))) }
    {
        let a = self.load(m, next)?;
        self.put_back(m, a | b, LastFlags::Bits(a | b), next)
    }

    /// `and` of a word to an operand.
    #[inline(always)]
    fn and_to(&mut self, m: &Arg, b: u64, next: u64) -> Result<u64, StuckCause>
        requires arg { IsArg m.now }
        ensures { Goes result next (core_of self.old) (core_of self.new) (λ d. change d m.now (λ v. bits_of (bit_and v b))) }
    {
        let a = self.load(m, next)?;
        self.put_back(m, a & b, LastFlags::Bits(a & b), next)
    }

    /// `xor` of a word to an operand.
    #[inline(always)]
    fn xor_to(&mut self, m: &Arg, b: u64, next: u64) -> Result<u64, StuckCause>
        requires arg { IsArg m.now }
        ensures { Goes result next (core_of self.old) (core_of self.new) (λ d. change d m.now (λ v. bits_of (bit_xor v b))) }
    {
        let a = self.load(m, next)?;
        self.put_back(m, a ^ b, LastFlags::Bits(a ^ b), next)
    }

    /// `add` of an operand to a register.
    #[inline(always)]
    fn add_from(&mut self, r: u8, m: &Arg, next: u64) -> Result<u64, StuckCause>
        requires arg { IsArg m.now }
        requires reg { r < 16 }
        ensures { Goes result next (core_of self.old) (core_of self.new) (λ d. gather d r m.now (λ v. sum_of (d.registers r) v)) }
    {
        let a = self.reg(r);
        let b = self.load(m, next)?;
        self.put_in(r, a.wrapping_add(b), LastFlags::Sum(a, b), next)
    }

    /// `sub` of an operand to a register.
    #[inline(always)]
    fn sub_from(&mut self, r: u8, m: &Arg, next: u64) -> Result<u64, StuckCause>
        requires arg { IsArg m.now }
        requires reg { r < 16 }
        ensures { Goes result next (core_of self.old) (core_of self.new) (λ d. gather d r m.now (λ v. difference_of (d.registers r) v)) }
    {
        let a = self.reg(r);
        let b = self.load(m, next)?;
        self.put_in(r, a.wrapping_sub(b), LastFlags::Difference(a, b), next)
    }

    /// `or` of an operand to a register.
    #[inline(always)]
    fn or_from(&mut self, r: u8, m: &Arg, next: u64) -> Result<u64, StuckCause>
        requires arg { IsArg m.now }
        requires reg { r < 16 }
        ensures { Goes result next (core_of self.old) (core_of self.new) (λ d. gather d r m.now (λ v. bits_of (bit_or (d.registers r) v))) }
    {
        let a = self.reg(r);
        let b = self.load(m, next)?;
        self.put_in(r, a | b, LastFlags::Bits(a | b), next)
    }

    /// `and` of an operand to a register.
    #[inline(always)]
    fn and_from(&mut self, r: u8, m: &Arg, next: u64) -> Result<u64, StuckCause>
        requires arg { IsArg m.now }
        requires reg { r < 16 }
        ensures { Goes result next (core_of self.old) (core_of self.new)
            (λ d. gather d r m.now (λ v. bits_of (bit_and (d.registers r) v))) }
    {
        let a = self.reg(r);
        let b = self.load(m, next)?;
        self.put_in(r, a & b, LastFlags::Bits(a & b), next)
    }

    /// `xor` of an operand to a register.
    #[inline(always)]
    fn xor_from(&mut self, r: u8, m: &Arg, next: u64) -> Result<u64, StuckCause>
        requires arg { IsArg m.now }
        requires reg { r < 16 }
        ensures { Goes result next (core_of self.old) (core_of self.new)
            (λ d. gather d r m.now (λ v. bits_of (bit_xor (d.registers r) v))) }
    {
        let a = self.reg(r);
        let b = self.load(m, next)?;
        self.put_in(r, a ^ b, LastFlags::Bits(a ^ b), next)
    }

    /// `imul` of an operand to a register.
    #[inline(always)]
    fn imul(&mut self, r: u8, m: &Arg, next: u64) -> Result<u64, StuckCause>
        requires arg { IsArg m.now }
        requires reg { r < 16 }
        ensures { Goes result next (core_of self.old) (core_of self.new) (λ d. gather d r m.now (λ v. product_of (d.registers r) v)) }
    {
        let a = self.reg(r);
        let b = self.load(m, next)?;
        self.put_in(r, a.wrapping_mul(b), LastFlags::Product(a, b), next)
    }

    /// `cmp` of an operand with a word.
    #[inline(always)]
    fn cmp_to(&mut self, m: &Arg, b: u64, next: u64) -> Result<u64, StuckCause>
        requires arg { IsArg m.now }
        ensures { Goes result next (core_of self.old) (core_of self.new) (λ d. compare d m.now (λ v. difference_of v b)) }
    {
        let a = self.load(m, next)?;
        self.set_flags(LastFlags::Difference(a, b));
        Ok(next)
    }

    /// `cmp` of a word with an operand.
    #[inline(always)]
    fn cmp_from(&mut self, a: u64, m: &Arg, next: u64) -> Result<u64, StuckCause>
        requires arg { IsArg m.now }
        ensures { Goes result next (core_of self.old) (core_of self.new) (λ d. compare d m.now (λ v. difference_of a v)) }
    {
        let b = self.load(m, next)?;
        self.set_flags(LastFlags::Difference(a, b));
        Ok(next)
    }

    /// `test` of an operand with a word.
    #[inline(always)]
    fn test_to(&mut self, m: &Arg, b: u64, next: u64) -> Result<u64, StuckCause>
        requires arg { IsArg m.now }
        ensures { Goes result next (core_of self.old) (core_of self.new) (λ d. compare d m.now (λ v. bits_of (bit_and v b))) }
    {
        let a = self.load(m, next)?;
        self.set_flags(LastFlags::Bits(a & b));
        Ok(next)
    }

    /// `neg` of an operand.
    #[inline(always)]
    fn neg(&mut self, m: &Arg, next: u64) -> Result<u64, StuckCause>
        requires arg { IsArg m.now }
        ensures { Goes result next (core_of self.old) (core_of self.new) (λ d. change d m.now (λ v. difference_of 0 v)) }
    {
        let a = self.load(m, next)?;
        let zero: u64 = 0;
        self.put_back(m, zero.wrapping_sub(a), LastFlags::Difference(0, a), next)
    }

    /// `shl` of an operand.
    #[inline(always)]
    fn shl(&mut self, m: &Arg, k: u8, next: u64) -> Result<u64, StuckCause>
        requires arg { IsArg m.now }
        requires count { k < 64 }
        ensures { Goes result next (core_of self.old) (core_of self.new) (λ d. change d m.now (λ v. shifted (v * 2 ^ k % 2 ^ 64))) }
    {
        let a = self.load(m, next)?;
        self.put_back(m, a << k, LastFlags::Unknown, next)
    }

    /// `shr` of an operand.
    #[inline(always)]
    fn shr(&mut self, m: &Arg, k: u8, next: u64) -> Result<u64, StuckCause>
        requires arg { IsArg m.now }
        requires count { k < 64 }
        ensures { Goes result next (core_of self.old) (core_of self.new) (λ d. change d m.now (λ v. shifted (v / 2 ^ k))) }
    {
        let a = self.load(m, next)?;
        self.put_back(m, a >> k, LastFlags::Unknown, next)
    }

    /// `sar` of an operand.
    #[inline(always)]
    fn sar(&mut self, m: &Arg, k: u8, next: u64) -> Result<u64, StuckCause>
        requires arg { IsArg m.now }
        requires count { k < 64 }
        ensures { Goes result next (core_of self.old) (core_of self.new) (λ d. change d m.now (λ v. shifted (shift_right_signed_of v k))) }
    {
        let a = self.load(m, next)?;
        self.put_back(m, shift_right_signed(a, k), LastFlags::Unknown, next)
    }

    /// `cqo`.
    #[inline(always)]
    fn cqo(&mut self, next: u64) -> Result<u64, StuckCause>
        ensures { Goes result next (core_of self.old) (core_of self.new) (λ d. Ok (with_register RDX (sign_word (d.registers RAX)) d)) }
    {
        let value = if is_negative(self.reg(RAX)) {
            u64::MAX
        } else {
            0
        };
        self.set_reg(RDX, value);
        Ok(next)
    }

    /// `idiv` by an operand.
    #[inline(always)]
    fn idiv(&mut self, m: &Arg, next: u64) -> Result<u64, StuckCause>
        requires arg { IsArg m.now }
        ensures { Goes result next (core_of self.old) (core_of self.new) (λ d. when_ok (load_of d m.now) (divide d)) }
    {
        let v = self.load(m, next)?;
        let (quotient, remainder) = divided(self.reg(RDX), self.reg(RAX), v)?;
        self.set_reg(RAX, quotient);
        self.set_reg(RDX, remainder);
        self.set_flags(LastFlags::Unknown);
        Ok(next)
    }

    /// A jump where a condition holds.
    #[inline(always)]
    fn jump_if(&mut self, c: u8, displacement: i32, next: u64) -> Result<u64, StuckCause>
        ensures { Goes result next (core_of self.old) (core_of self.new) (λ d. jump_if d displacement (condition_of d.flags c)) }
    {
        match self.flags.condition(c) {
            None => Err(StuckCause::Flag),
            Some(true) => Ok(next.wrapping_add(word_of(displacement))),
            Some(false) => Ok(next),
        }
    }
}

/// The word of a number of four bytes, as it stands in an instruction.
#[inline(always)]
fn word_in(n: &i32) -> u64
    ensures { result ≡ word_of_number n.now }
{
    word_of(*n)
}

/// The word of a number of one byte, as it stands in an instruction.
#[inline(always)]
fn word_in_byte(n: &i8) -> u64
    ensures { result ≡ word_of_number n.now }
{
    word_of(*n as i32)
}

/// A word shifted right, the sign shifted in.
#[inline(always)]
fn shift_right_signed(a: u64, k: u8) -> u64
    requires { k < 64 }
    ensures { result ≡ shift_right_signed_of a k }
{
    if is_negative(a) {
        u64::MAX - ((u64::MAX - a) >> k)
    } else {
        a >> k
    }
}
