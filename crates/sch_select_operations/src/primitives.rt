//! The items of primitives over operands.

ghost use Rattle.std.specs.Prelude.{◌≡◌, ◌≤◌, ◌+◌, ◌^◌, ◌++◌, IsTrue, OnOk, List};
ghost use Rattle.std.specs.List.{list_all};
ghost use Rattle.sch_select_memory.specs.Addresses.{max_heap_end};
ghost use Rattle.sch_asm.specs.declared.item.Item.{Item};
ghost use Rattle.sch_select_operations.specs.Reach.{is_reached_operand};
ghost use Rattle.sch_select_operations.specs.PrimitiveCode.{index_operand, pair_or_binary, primitive_code, ternary_code, three_code};

use crate::operands::{atom, binary, operand, second, unary};
use crate::pairs::pair;
use crate::strings::set_string;
use crate::vectors::set_vector;
use sch_asm::{Item, ItemList};
use sch_control::{Atom, Operand};
use sch_insn::{Arg, Insn};
use sch_select_memory::addresses::stop;
use sch_word::registers::{R11, RAX, RCX};
use sch_word::{Mem, Place, Primitive, Stop};

/// An index into RCX. What a primitive reads is no number: stop 65.
fn index(out: &mut ItemList, o: &Operand<Place>) -> Result<(), Mem>
    requires { IsTrue (is_reached_operand o.now) }
    ensures { OnOk result ((rest : List Item) → out.new ++ rest ≡ out.old ++ index_operand o.now rest) }
{
    match o {
        Operand::Atom(a) => atom(out, RCX, a),
        Operand::Read(_, _, _) => out.push(Item::Jump(stop(Stop::WrongType))),
    }
}

/// Three operands into R11, RAX and RCX, the last one first.
fn three(
    out: &mut ItemList,
    n: u32,
    a: &Operand<Place>,
    b: &Operand<Place>,
    c: &Operand<Place>,
) -> Result<(), Mem>
    requires labels { n + 12 ≤ 2 ^ 32 }
    requires first { IsTrue (is_reached_operand a.now) }
    requires second { IsTrue (is_reached_operand b.now) }
    requires third { IsTrue (is_reached_operand c.now) }
    ensures { OnOk result ((rest : List Item) → out.new ++ rest ≡ out.old ++ three_code n a.now b.now c.now rest) }
{
    operand(out, n, c)?;
    out.push(Item::Plain(Insn::MovTo(Arg::Reg(R11), RAX)))?;
    operand(out, n + 4, a)?;
    index(out, b)
}

/// What R11 has is stored at the index in RCX.
fn ternary(out: &mut ItemList, which: Primitive) -> Result<(), Mem>
    ensures { OnOk result ((rest : List Item) → out.new ++ rest ≡ out.old ++ ternary_code which rest) }
{
    match which {
        Primitive::StringSet => set_string(out),
        Primitive::VectorSet => set_vector(out),
        _ => Ok(()),
    }
}

/// A primitive of two operands, or a new pair.
fn pair_or_binary(out: &mut ItemList, heap_end: u32, n: u32, which: Primitive) -> Result<(), Mem>
    requires low { heap_end ≤ max_heap_end }
    requires labels { n + 4 ≤ 2 ^ 32 }
    ensures { OnOk result ((rest : List Item) → out.new ++ rest ≡ out.old ++ pair_or_binary heap_end n which rest) }
{
    match which {
        Primitive::Cons => pair(out, heap_end),
        _ => binary(out, n, which),
    }
}

/// A primitive. Its labels are from n to n + 11.
pub fn primitive(
    out: &mut ItemList,
    heap_end: u32,
    n: u32,
    which: Primitive,
    operands: &[Operand<Place>],
) -> Result<(), Mem>
    requires low { heap_end ≤ max_heap_end }
    requires labels { n + 12 ≤ 2 ^ 32 }
    requires reached { IsTrue (list_all is_reached_operand operands.now) }
    ensures { OnOk result ((rest : List Item) → out.new ++ rest
        ≡ out.old ++ primitive_code heap_end n which operands.now rest) }
{
    match operands {
        [o] => {
            operand(out, n, o)?;
            unary(out, n + 8, which)
        }
        [o, q] => {
            operand(out, n, o)?;
            second(out, n + 4, q)?;
            pair_or_binary(out, heap_end, n + 8, which)
        }
        [o, q, r] => {
            three(out, n, o, q, r)?;
            ternary(out, which)
        }
        _ => Ok(()),
    }
}
