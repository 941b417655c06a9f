//! The items of atoms, of primitives over registers, and of operands.

ghost use Rattle.std.specs.Prelude.{◌≡◌, ◌+◌, ◌^◌, ◌≤◌, ◌++◌, IsTrue, OnOk, List};
ghost use Rattle.std.specs.List.{list_all};
ghost use Rattle.sch_word.specs.declared.primitive.Primitive.TheVariants.{CharToInteger, IntegerToChar, Multiply, Quotient};
ghost use Rattle.sch_word.specs.declared.primitive.Primitive.TheVariants.{Remainder};
ghost use Rattle.sch_asm.specs.declared.item.Item.{Item};
ghost use Rattle.sch_select_operations.specs.Reach.{is_reached_atom, is_reached_operand};
ghost use Rattle.sch_select_operations.specs.OperandCode.{atom_code, binary_code, operand_code, put_code, read_code, second_code, unary_code};

use crate::arithmetic::{
    arithmetic, character_number, compare, comparison, modulo, number_character, product, quotient,
    remainder, test,
};
use crate::pairs::{CAR, CDR, part_of_pair, set_part_of_pair};
use crate::strings::{make_string, string_length, string_ref, symbol_length, symbol_ref};
use crate::vectors::{make_vector, vector_length, vector_ref};
use sch_asm::{Item, ItemList, Routine};
use sch_control::{Atom, Operand};
use sch_insn::condition::{E, G, GE, L, LE};
use sch_insn::{Arg, Insn};
use sch_select_memory::addresses::{literal_address, place_operand};
use sch_select_memory::constant_number;
use sch_select_memory::word::{
    BOOLEAN_MASK, BYTE_MASK, CHARACTER, FALSE, FIXNUM, NIL, PAIR, PROCEDURE, STRING, SYMBOL,
    TAG_MASK, UNSPECIFIED, VECTOR,
};
use sch_word::registers::{R11, RAX, RCX};
use sch_word::{Mem, Place, Primitive};

/// An atom into a register.
pub(crate) fn atom(out: &mut ItemList, register: u8, a: &Atom<Place>) -> Result<(), Mem>
    requires { IsTrue (is_reached_atom a.now) }
    ensures { OnOk result ((rest : List Item) → out.new ++ rest ≡ out.old ++ atom_code register a.now rest) }
{
    match a {
        Atom::Constant(c) => out.push(Item::Plain(Insn::MovWord(register, constant_number(*c)))),
        Atom::Variable(p) => {
            let place = place_operand(*p);
            out.push(Item::Plain(Insn::MovFrom(register, place)))
        }
        Atom::Literal(n) => out.push(Item::LoadWord(register, literal_address(*n))),
    }
}

/// RAX is put.
fn put(out: &mut ItemList, n: u32) -> Result<(), Mem>
    ensures { OnOk result ((rest : List Item) → out.new ++ rest ≡ out.old ++ put_code n rest) }
{
    out.extend_from_slice(&[
        Item::LoadLabel(R11, n),
        Item::Jump(Routine::PutValue.label()),
        Item::Label(n),
        Item::Plain(Insn::MovNumber(Arg::Reg(RAX), UNSPECIFIED)),
    ])
}

/// A primitive of one operand, in RAX.
pub(crate) fn unary(out: &mut ItemList, n: u32, which: Primitive) -> Result<(), Mem>
    ensures { OnOk result ((rest : List Item) → out.new ++ rest ≡ out.old ++ unary_code n which rest) }
{
    match which {
        Primitive::IsBoolean => test(out, n, BOOLEAN_MASK, FALSE),
        Primitive::IsPair => test(out, n, TAG_MASK, PAIR),
        Primitive::IsNull => test(out, n, BYTE_MASK, NIL),
        Primitive::IsSymbol => test(out, n, TAG_MASK, SYMBOL),
        Primitive::IsInteger => test(out, n, TAG_MASK, FIXNUM),
        Primitive::IsChar => test(out, n, BYTE_MASK, CHARACTER),
        Primitive::IsString => test(out, n, TAG_MASK, STRING),
        Primitive::IsVector => test(out, n, TAG_MASK, VECTOR),
        Primitive::IsProcedure => test(out, n, TAG_MASK, PROCEDURE),
        Primitive::CharToInteger => character_number(out),
        Primitive::IntegerToChar => number_character(out),
        Primitive::Put => put(out, n),
        Primitive::Car => part_of_pair(out, CAR),
        Primitive::Cdr => part_of_pair(out, CDR),
        Primitive::StringLength => string_length(out),
        Primitive::VectorLength => vector_length(out),
        Primitive::SymbolLength => symbol_length(out),
        _ => Ok(()),
    }
}

/// A primitive of two operands, in RAX and RCX.
pub(crate) fn binary(out: &mut ItemList, n: u32, which: Primitive) -> Result<(), Mem>
    requires { n + 4 ≤ 2 ^ 32 }
    ensures { OnOk result ((rest : List Item) → out.new ++ rest ≡ out.old ++ binary_code n which rest) }
{
    match which {
        Primitive::Eq | Primitive::Eqv => compare(out, n, E),
        Primitive::Add => arithmetic(out, &[Item::Plain(Insn::AddTo(Arg::Reg(RAX), RCX))]),
        Primitive::Subtract => arithmetic(out, &[Item::Plain(Insn::SubTo(Arg::Reg(RAX), RCX))]),
        Primitive::Multiply => product(out),
        Primitive::Quotient => quotient(out),
        Primitive::Remainder => remainder(out),
        Primitive::Modulo => {
            remainder(out)?;
            modulo(out, n)
        }
        Primitive::Equal => comparison(out, n, E),
        Primitive::Less => comparison(out, n, L),
        Primitive::Greater => comparison(out, n, G),
        Primitive::LessEqual => comparison(out, n, LE),
        Primitive::GreaterEqual => comparison(out, n, GE),
        Primitive::SetCar => set_part_of_pair(out, CAR),
        Primitive::SetCdr => set_part_of_pair(out, CDR),
        Primitive::StringRef => string_ref(out),
        Primitive::VectorRef => vector_ref(out),
        Primitive::SymbolRef => symbol_ref(out),
        Primitive::MakeString => make_string(out, n),
        Primitive::MakeVector => make_vector(out, n),
        _ => Ok(()),
    }
}

/// A primitive that reads, over atoms.
fn read(out: &mut ItemList, n: u32, which: Primitive, atoms: &[Atom<Place>]) -> Result<(), Mem>
    requires labels { n + 4 ≤ 2 ^ 32 }
    requires reached { IsTrue (list_all is_reached_atom atoms.now) }
    ensures { OnOk result ((rest : List Item) → out.new ++ rest ≡ out.old ++ read_code n which atoms.now rest) }
{
    match atoms {
        [a] => {
            atom(out, RAX, a)?;
            unary(out, n, which)
        }
        [a, b] => {
            atom(out, RAX, a)?;
            atom(out, RCX, b)?;
            binary(out, n, which)
        }
        _ => Ok(()),
    }
}

/// An operand into RAX.
pub(crate) fn operand(out: &mut ItemList, n: u32, o: &Operand<Place>) -> Result<(), Mem>
    requires labels { n + 4 ≤ 2 ^ 32 }
    requires reached { IsTrue (is_reached_operand o.now) }
    ensures { OnOk result ((rest : List Item) → out.new ++ rest ≡ out.old ++ operand_code n o.now rest) }
{
    match o {
        Operand::Atom(a) => atom(out, RAX, a),
        Operand::Read(_, which, atoms) => read(out, n, *which, atoms.as_slice()),
    }
}

/// A second operand into RCX, while RAX keeps the first.
pub(crate) fn second(out: &mut ItemList, n: u32, o: &Operand<Place>) -> Result<(), Mem>
    requires labels { n + 4 ≤ 2 ^ 32 }
    requires reached { IsTrue (is_reached_operand o.now) }
    ensures { OnOk result ((rest : List Item) → out.new ++ rest ≡ out.old ++ second_code n o.now rest) }
{
    match o {
        Operand::Atom(a) => atom(out, RCX, a),
        Operand::Read(_, which, atoms) => {
            out.push(Item::Plain(Insn::MovTo(Arg::Reg(R11), RAX)))?;
            read(out, n, *which, atoms.as_slice())?;
            out.extend_from_slice(&[
                Item::Plain(Insn::MovTo(Arg::Reg(RCX), RAX)),
                Item::Plain(Insn::MovTo(Arg::Reg(RAX), R11)),
            ])
        }
    }
}
