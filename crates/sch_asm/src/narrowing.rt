//! The narrow forms of instructions: a displacement and a number have one byte where they fit.

ghost use Rattle.std.specs.Prelude.{◌≡◌, List};
ghost use Rattle.sch_asm.specs.ItemParts.{items_in_parts};
ghost use Rattle.sch_asm.specs.Narrow.{is_byte, narrow, narrow_arg, narrow_item, narrow_number, narrow_operand, narrowed};

use crate::item::Item;
use crate::item_list::ItemList;
use sch_insn::{Arg, Insn};

/// Whether a number fits one byte.
fn is_byte(n: i32) -> bool
    ensures { result ≡ is_byte n }
{
    -128 <= n && n <= 127
}

/// Gives an operand's displacement one byte, where it fits.
fn narrow_arg(m: &mut Arg)
    ensures { m.new ≡ narrow_arg m.old }
{
    match *m {
        Arg::Base32(b, d) if is_byte(d) => *m = Arg::Base8(b, d as i8),
        _ => {}
    }
}

/// Gives an instruction's number one byte, where it fits and there is such a form.
fn narrow_number(insn: &mut Insn)
    ensures { insn.new ≡ narrow_number insn.old }
{
    match *insn {
        Insn::AddNumber(m, n) if is_byte(n) => *insn = Insn::AddNumber8(m, n as i8),
        Insn::OrNumber(m, n) if is_byte(n) => *insn = Insn::OrNumber8(m, n as i8),
        Insn::AndNumber(m, n) if is_byte(n) => *insn = Insn::AndNumber8(m, n as i8),
        Insn::SubNumber(m, n) if is_byte(n) => *insn = Insn::SubNumber8(m, n as i8),
        Insn::XorNumber(m, n) if is_byte(n) => *insn = Insn::XorNumber8(m, n as i8),
        Insn::CmpNumber(m, n) if is_byte(n) => *insn = Insn::CmpNumber8(m, n as i8),
        _ => {}
    }
}

/// Gives the displacement of an instruction's operand one byte, where it fits.
fn narrow_operand(insn: &mut Insn)
    ensures { insn.new ≡ narrow_operand insn.old }
{
    match insn {
        Insn::MovTo(m, _) => narrow_arg(m),
        Insn::MovFrom(_, m) => narrow_arg(m),
        Insn::MovNumber(m, _) => narrow_arg(m),
        Insn::StoreByte(m, _) => narrow_arg(m),
        Insn::LoadByte(_, m) => narrow_arg(m),
        Insn::Lea(_, m) => narrow_arg(m),
        Insn::AddTo(m, _) => narrow_arg(m),
        Insn::OrTo(m, _) => narrow_arg(m),
        Insn::AndTo(m, _) => narrow_arg(m),
        Insn::SubTo(m, _) => narrow_arg(m),
        Insn::XorTo(m, _) => narrow_arg(m),
        Insn::CmpTo(m, _) => narrow_arg(m),
        Insn::AddFrom(_, m) => narrow_arg(m),
        Insn::OrFrom(_, m) => narrow_arg(m),
        Insn::AndFrom(_, m) => narrow_arg(m),
        Insn::SubFrom(_, m) => narrow_arg(m),
        Insn::XorFrom(_, m) => narrow_arg(m),
        Insn::CmpFrom(_, m) => narrow_arg(m),
        Insn::AddNumber(m, _) => narrow_arg(m),
        Insn::OrNumber(m, _) => narrow_arg(m),
        Insn::AndNumber(m, _) => narrow_arg(m),
        Insn::SubNumber(m, _) => narrow_arg(m),
        Insn::XorNumber(m, _) => narrow_arg(m),
        Insn::CmpNumber(m, _) => narrow_arg(m),
        Insn::AddNumber8(m, _) => narrow_arg(m),
        Insn::OrNumber8(m, _) => narrow_arg(m),
        Insn::AndNumber8(m, _) => narrow_arg(m),
        Insn::SubNumber8(m, _) => narrow_arg(m),
        Insn::XorNumber8(m, _) => narrow_arg(m),
        Insn::CmpNumber8(m, _) => narrow_arg(m),
        Insn::TestTo(m, _) => narrow_arg(m),
        Insn::Imul(_, m) => narrow_arg(m),
        Insn::Neg(m) => narrow_arg(m),
        Insn::Idiv(m) => narrow_arg(m),
        Insn::Shl(m, _) => narrow_arg(m),
        Insn::Shr(m, _) => narrow_arg(m),
        Insn::Sar(m, _) => narrow_arg(m),
        Insn::JumpTo(m) => narrow_arg(m),
        _ => {}
    }
}

/// Gives an item's instruction its narrow form.
fn narrow_item(item: &mut Item)
    ensures { item.new ≡ narrow_item item.old }
{
    if let Item::Plain(insn) = item {
        narrow_number(insn);
        narrow_operand(insn);
    }
}

// Gives each item of a part its narrow form.
fn narrow_part(part: &mut Vec<Item>)
    ensures { part.new.items ≡ narrowed part.old.items }
{
    for item in part.iter_mut() {
        narrow_item(item);
    }
}

// Gives each item of some parts its narrow form.
fn narrow_parts(parts: &mut Vec<Vec<Item>>)
    ensures { (last : List Item) → items_in_parts parts.new.items (narrowed last) ≡ narrowed (items_in_parts parts.old.items last) }
{
    for part in parts.iter_mut() {
        narrow_part(part);
    }
}

/// The items with each instruction in its narrow form: a displacement and a number of add, or, and, sub, xor and cmp
/// have one byte where they fit. The list is changed in place, which takes no memory.
pub fn narrowed(items: ItemList) -> ItemList
    ensures { result ≡ narrowed items }
{
    let (alloc, mut earlier, mut last) = items.into_parts();
    narrow_parts(&mut earlier);
    narrow_part(&mut last);
    ItemList::from_parts(alloc, earlier, last)
}
