//! The items of tests of types, comparisons and arithmetic.

ghost use Rattle.std.specs.Prelude.{◌≡◌, ◌+◌, ◌^◌, ◌≤◌, ◌++◌, IsTrue, OnOk, List, int_le, nat_abs, pos};
ghost use Rattle.sch_word.specs.declared.primitive.Primitive.TheVariants.{CharToInteger, IntegerToChar, Multiply, Quotient};
ghost use Rattle.sch_word.specs.declared.primitive.Primitive.TheVariants.{Remainder};
ghost use Rattle.sch_asm.specs.declared.item.Item.{Item};
ghost use Rattle.sch_select_operations.specs.OperandCode.{binary_code, unary_code};
ghost use Rattle.sch_select_memory.specs.Checks.{boolean_code, check_fixnum, overflow_code, test_code};
ghost use Rattle.sch_select_operations.specs.ArithmeticCode.{compare_code, comparison_code, division_code, modulo_code};

use sch_asm::{Item, ItemList};
use sch_insn::condition::{A, E, GE, L, NE, O};
use sch_insn::{Arg, Insn};
use sch_select_memory::addresses::stop;
use sch_select_memory::word::{
    BYTE_MASK, CHARACTER, CHARACTER_SHIFT, FALSE, FIXNUM_SHIFT, TAG_MASK, TRUE,
};
use sch_word::registers::{RAX, RCX, RDX};
use sch_word::{Mem, Stop};

/// The word of 255, the greatest number that is a character's.
const MAX_BYTE_WORD: i32 = 8 * 255;

/// A check that a register has a fixnum, or stop 65.
fn check(register: u8) -> [Item; 3]
    ensures { (rest : List Item) → result ++ rest ≡ check_fixnum register rest }
{
    [
        Item::Plain(Insn::MovTo(Arg::Reg(RDX), register)),
        Item::Plain(Insn::AndNumber(Arg::Reg(RDX), TAG_MASK)),
        Item::JumpIf(NE, stop(Stop::WrongType)),
    ]
}

/// RAX becomes `#t` where a condition holds, and `#f` elsewhere.
fn boolean(n: u32, condition: u8) -> [Item; 4]
    ensures { (rest : List Item) → result ++ rest ≡ boolean_code n condition rest }
{
    [
        Item::Plain(Insn::MovNumber(Arg::Reg(RAX), TRUE)),
        Item::JumpIf(condition, n),
        Item::Plain(Insn::MovNumber(Arg::Reg(RAX), FALSE)),
        Item::Label(n),
    ]
}

/// Whether the low bits of RAX are these.
pub(crate) fn test(out: &mut ItemList, n: u32, mask: i32, tag: i32) -> Result<(), Mem>
    requires mask { IsTrue (int_le (pos 0) mask) }
    requires tag { IsTrue (int_le (pos 0) tag) }
    ensures { OnOk result ((rest : List Item) → out.new ++ rest ≡ out.old ++ test_code n (nat_abs mask) (nat_abs tag) rest) }
{
    out.extend_from_slice(&[
        Item::Plain(Insn::MovTo(Arg::Reg(RDX), RAX)),
        Item::Plain(Insn::AndNumber(Arg::Reg(RDX), mask)),
        Item::Plain(Insn::CmpNumber(Arg::Reg(RDX), tag)),
    ])?;
    out.extend_from_slice(&boolean(n, E))
}

/// RAX and RCX are compared.
pub(crate) fn compare(out: &mut ItemList, n: u32, condition: u8) -> Result<(), Mem>
    ensures { OnOk result ((rest : List Item) → out.new ++ rest ≡ out.old ++ compare_code n condition rest) }
{
    out.push(Item::Plain(Insn::CmpTo(Arg::Reg(RAX), RCX)))?;
    out.extend_from_slice(&boolean(n, condition))
}

/// RAX and RCX have fixnums, or stop 65.
fn check_both(out: &mut ItemList) -> Result<(), Mem>
    ensures { OnOk result ((rest : List Item) → out.new ++ rest ≡ out.old ++ check_fixnum RAX (check_fixnum RCX rest)) }
{
    out.extend_from_slice(&check(RAX))?;
    out.extend_from_slice(&check(RCX))
}

/// Two fixnums are compared.
pub(crate) fn comparison(out: &mut ItemList, n: u32, condition: u8) -> Result<(), Mem>
    ensures { OnOk result ((rest : List Item) → out.new ++ rest ≡ out.old ++ comparison_code n condition rest) }
{
    check_both(out)?;
    compare(out, n, condition)
}

/// What computes a fixnum from two, with its overflow.
pub(crate) fn arithmetic(out: &mut ItemList, insns: &[Item]) -> Result<(), Mem>
    ensures { OnOk result ((rest : List Item) → out.new ++ rest
        ≡ out.old ++ check_fixnum RAX (check_fixnum RCX (insns.now ++ overflow_code rest))) }
{
    check_both(out)?;
    out.extend_from_slice(insns)?;
    out.push(Item::JumpIf(O, stop(Stop::Overflow)))
}

/// The quotient into RAX and the remainder into RDX, or stop 69.
fn division(out: &mut ItemList) -> Result<(), Mem>
    ensures { OnOk result ((rest : List Item) → out.new ++ rest ≡ out.old ++ division_code rest) }
{
    check_both(out)?;
    out.extend_from_slice(&[
        Item::Plain(Insn::CmpNumber(Arg::Reg(RCX), 0)),
        Item::JumpIf(E, stop(Stop::DivideByZero)),
        Item::Plain(Insn::Cqo),
        Item::Plain(Insn::Idiv(Arg::Reg(RCX))),
    ])
}

/// A remainder in RAX becomes a modulus. The two labels are those behind n.
fn adjusted(n: u32) -> [Item; 12]
    requires { n + 4 ≤ 2 ^ 32 }
    ensures { (rest : List Item) → result ++ rest ≡ modulo_code n rest }
{
    let negative = n + 1;
    let add = n + 2;
    [
        Item::Plain(Insn::CmpNumber(Arg::Reg(RAX), 0)),
        Item::JumpIf(E, n),
        Item::JumpIf(L, negative),
        Item::Plain(Insn::CmpNumber(Arg::Reg(RCX), 0)),
        Item::JumpIf(GE, n),
        Item::Jump(add),
        Item::Label(negative),
        Item::Plain(Insn::CmpNumber(Arg::Reg(RCX), 0)),
        Item::JumpIf(L, n),
        Item::Label(add),
        Item::Plain(Insn::AddTo(Arg::Reg(RAX), RCX)),
        Item::Label(n),
    ]
}

pub(crate) fn modulo(out: &mut ItemList, n: u32) -> Result<(), Mem>
    requires { n + 4 ≤ 2 ^ 32 }
    ensures { OnOk result ((rest : List Item) → out.new ++ rest ≡ out.old ++ modulo_code n rest) }
{
    out.extend_from_slice(&adjusted(n))
}

/// A character becomes its number.
pub(crate) fn character_number(out: &mut ItemList) -> Result<(), Mem>
    ensures { OnOk result ((rest : List Item) → out.new ++ rest ≡ out.old ++ unary_code 0 CharToInteger rest) }
{
    out.extend_from_slice(&[
        Item::Plain(Insn::MovTo(Arg::Reg(RDX), RAX)),
        Item::Plain(Insn::AndNumber(Arg::Reg(RDX), BYTE_MASK)),
        Item::Plain(Insn::CmpNumber(Arg::Reg(RDX), CHARACTER)),
        Item::JumpIf(NE, stop(Stop::WrongType)),
        Item::Plain(Insn::Shr(Arg::Reg(RAX), CHARACTER_SHIFT)),
        Item::Plain(Insn::Shl(Arg::Reg(RAX), FIXNUM_SHIFT)),
    ])
}

/// A number from 0 to 255 becomes its character.
pub(crate) fn number_character(out: &mut ItemList) -> Result<(), Mem>
    ensures { OnOk result ((rest : List Item) → out.new ++ rest ≡ out.old ++ unary_code 0 IntegerToChar rest) }
{
    out.extend_from_slice(&check(RAX))?;
    out.extend_from_slice(&[
        Item::Plain(Insn::CmpNumber(Arg::Reg(RAX), MAX_BYTE_WORD)),
        Item::JumpIf(A, stop(Stop::OutOfRange)),
        Item::Plain(Insn::Shl(Arg::Reg(RAX), CHARACTER_SHIFT - FIXNUM_SHIFT)),
        Item::Plain(Insn::AddNumber(Arg::Reg(RAX), CHARACTER)),
    ])
}

/// A quotient, or stop 69 or 70.
pub(crate) fn quotient(out: &mut ItemList) -> Result<(), Mem>
    ensures { OnOk result ((rest : List Item) → out.new ++ rest ≡ out.old ++ binary_code 0 Quotient rest) }
{
    division(out)?;
    out.extend_from_slice(&[
        Item::Plain(Insn::MovNumber(Arg::Reg(RCX), 8)),
        Item::Plain(Insn::Imul(RAX, Arg::Reg(RCX))),
        Item::JumpIf(O, stop(Stop::Overflow)),
    ])
}

/// A remainder, or stop 69.
pub(crate) fn remainder(out: &mut ItemList) -> Result<(), Mem>
    ensures { OnOk result ((rest : List Item) → out.new ++ rest ≡ out.old ++ binary_code 0 Remainder rest) }
{
    division(out)?;
    out.push(Item::Plain(Insn::MovTo(Arg::Reg(RAX), RDX)))
}

/// A product, or stop 70.
pub(crate) fn product(out: &mut ItemList) -> Result<(), Mem>
    ensures { OnOk result ((rest : List Item) → out.new ++ rest ≡ out.old ++ binary_code 0 Multiply rest) }
{
    arithmetic(
        out,
        &[
            Item::Plain(Insn::Sar(Arg::Reg(RAX), FIXNUM_SHIFT)),
            Item::Plain(Insn::Imul(RAX, Arg::Reg(RCX))),
        ],
    )
}
