//! The items of closures and of groups.

ghost use Rattle.std.specs.Prelude.{◌≡◌, ◌^◌, ◌<◌, ◌≤◌, ◌+◌, ◌*◌, ◌++◌, IfOk, IsTrue, OnOk, List, length};
ghost use Rattle.std.specs.List.{list_all};
ghost use Rattle.sch_word.specs.trees.Shape.{max_free_variables, max_operands};
ghost use Rattle.sch_select_memory.specs.Addresses.{max_heap_end};
ghost use Rattle.sch_asm.specs.declared.item.Item.{Item};
ghost use Rattle.sch_select_operations.specs.ClosureCode.{closure_bytes, closure_code, fields_code, group_bytes, group_code, places_code};
ghost use Rattle.sch_select_operations.specs.ClosureCode.{record_code, records_code, spill_code, spills_behind};
ghost use Rattle.sch_select_operations.specs.Reach.{is_reached_closure, is_reached_member, is_reached_source, max_group_bytes, max_record_bytes};

use crate::cells::source;
use crate::pairs::{check_heap, part};
use sch_asm::{Item, ItemList};
use sch_control::{Closure, Member, Source};
use sch_insn::{Arg, Insn};
use sch_select_memory::addresses::{body_label, immediate, part_operand, place_operand};
use sch_select_memory::word::PROCEDURE;
use sch_word::registers::RCX;
use sch_word::{HEAP_REGISTER, MarkKind, Mem, Place};

/// The low three bits of a procedure's word.
const PROCEDURE_TAG: u32 = PROCEDURE as u32;

/// The bytes of a closure's record.
fn closure_bytes(c: &Closure<Place>) -> u32
    requires { length c.now.fields ≤ max_free_variables }
    ensures bytes { result ≡ closure_bytes c.now }
    ensures few { result ≤ max_record_bytes }
{
    16 * ((8 + 8 * c.fields.len() as u32 + 15) / 16)
}

/// The fields of a record, from an offset on.
fn fields(out: &mut ItemList, offset: u32, sources: &[Source<Place>]) -> Result<(), Mem>
    requires low { offset + 8 * length sources.now < 2 ^ 31 }
    requires reached { IsTrue (list_all is_reached_source sources.now) }
    ensures { OnOk result ((rest : List Item) → out.new ++ rest ≡ out.old ++ fields_code offset sources.now rest) }
{
    let mut next = offset;
    for x in sources {
        source(out, RCX, x)?;
        out.push(Item::Plain(Insn::MovTo(part_operand(next), RCX)))?;
        next += 8;
    }
    Ok(())
}

/// A record at an offset: the address of its code, and its fields.
fn record(out: &mut ItemList, offset: u32, c: &Closure<Place>) -> Result<(), Mem>
    requires low { offset ≤ max_group_bytes }
    requires reached { IsTrue (is_reached_closure c.now) }
    ensures { OnOk result ((rest : List Item) → out.new ++ rest ≡ out.old ++ record_code offset c.now rest) }
{
    let label = body_label(c.label);
    out.extend_from_slice(&[
        Item::LoadLabel(RCX, label),
        Item::Plain(Insn::MovTo(part_operand(offset), RCX)),
    ])?;
    fields(out, offset + 8, c.fields.as_slice())
}

/// A new closure.
pub(crate) fn closure(out: &mut ItemList, heap_end: u32, c: &Closure<Place>) -> Result<(), Mem>
    requires low { heap_end ≤ max_heap_end }
    requires reached { IsTrue (is_reached_closure c.now) }
    ensures { OnOk result ((rest : List Item) → out.new ++ rest ≡ out.old ++ closure_code heap_end c.now rest) }
{
    let bytes = closure_bytes(c);
    check_heap(out, heap_end, bytes)?;
    record(out, 0, c)?;
    part(out, PROCEDURE_TAG, bytes)
}

/// The bytes of a group's records.
fn group_bytes(members: &[Member<Place>]) -> u32
    requires few { max_record_bytes * length members.now ≤ max_group_bytes }
    requires reached { IsTrue (list_all is_reached_member members.now) }
    ensures bytes { result ≡ group_bytes members.now }
    ensures few { result ≤ max_group_bytes }
{
    let mut bytes = 0;
    for m in members {
        bytes += closure_bytes(&m.closure);
    }
    bytes
}

/// The mark of what is stored in a place, where that is a slot: it has the first of the spilled variables. Those whose marks
/// are to come are answered.
fn spill<'a>(out: &mut ItemList, p: Place, spills: &'a [u32]) -> Result<&'a [u32], Mem>
    ensures items { OnOk result ((rest : List Item) → out.new ++ rest ≡ out.old ++ spill_code p spills.now rest) }
    ensures behind { IfOk result (λ behind. behind.now ≡ spills_behind p spills.now) }
{
    match (p, spills) {
        (Place::Slot(_), [x, behind @ ..]) => {
            out.push(Item::Mark(MarkKind::Spill(*x)))?;
            Ok(behind)
        }
        _ => Ok(spills),
    }
}

/// The words of a group's closures into their places, whose records are from an offset on. What is stored in a slot stands
/// behind the mark of a spilled variable.
fn places(
    out: &mut ItemList,
    offset: u32,
    members: &[Member<Place>],
    spills: &[u32],
) -> Result<(), Mem>
    requires low { offset + max_record_bytes * length members.now ≤ max_group_bytes }
    requires reached { IsTrue (list_all is_reached_member members.now) }
    ensures { OnOk result ((rest : List Item) → out.new ++ rest ≡ out.old ++ places_code offset members.now spills.now rest) }
{
    let mut next = offset;
    let mut spilled = spills;
    for m in members {
        let word = immediate(next + PROCEDURE_TAG);
        let place = place_operand(m.at);
        out.extend_from_slice(&[
            Item::Plain(Insn::MovTo(Arg::Reg(RCX), HEAP_REGISTER)),
            Item::Plain(Insn::AddNumber(Arg::Reg(RCX), word)),
        ])?;
        spilled = spill(out, m.at, spilled)?;
        out.push(Item::Plain(Insn::MovTo(place, RCX)))?;
        next += closure_bytes(&m.closure);
    }
    Ok(())
}

/// The records of a group, from an offset on.
fn records(out: &mut ItemList, offset: u32, members: &[Member<Place>]) -> Result<(), Mem>
    requires low { offset + max_record_bytes * length members.now ≤ max_group_bytes }
    requires reached { IsTrue (list_all is_reached_member members.now) }
    ensures { OnOk result ((rest : List Item) → out.new ++ rest ≡ out.old ++ records_code offset members.now rest) }
{
    let mut next = offset;
    for m in members {
        record(out, next, &m.closure)?;
        next += closure_bytes(&m.closure);
    }
    Ok(())
}

/// A group of closures that know one another: all are charged, each has its word in its place, and then each
/// has its record. What is stored in a slot stands behind the mark of the spilled variable that lives there.
pub fn group(
    out: &mut ItemList,
    heap_end: u32,
    members: &[Member<Place>],
    spills: &[u32],
) -> Result<(), Mem>
    requires low { heap_end ≤ max_heap_end }
    requires few { length members.now ≤ max_operands }
    requires reached { IsTrue (list_all is_reached_member members.now) }
    ensures { OnOk result ((rest : List Item) → out.new ++ rest ≡ out.old ++ group_code heap_end members.now spills.now rest) }
{
    let bytes = group_bytes(members);
    check_heap(out, heap_end, bytes)?;
    places(out, 0, members, spills)?;
    records(out, 0, members)?;
    out.push(Item::Plain(Insn::AddNumber(Arg::Reg(HEAP_REGISTER), immediate(bytes))))
}
