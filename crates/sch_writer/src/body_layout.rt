//! The layout of a body: its tree in order, as instructions.

ghost use Rattle.std.specs.Prelude.{◌≡◌, ◌≤◌, ◌<◌, ◌+◌, ◌^◌, ◌∷◌, [], cond, filter, IfOk, OnOk, None, Some};
ghost use Rattle.sch_control.specs.Meaning.{no_region};
ghost use Rattle.sch_control.specs.Tree.{save};
ghost use Rattle.sch_control.specs.Valid.{member_variables};
ghost use Rattle.sch_control.specs.View.{expression_with};
ghost use Rattle.sch_word.specs.declared.mark.MarkKind.TheVariants as mark;
ghost use Rattle.sch_word.specs.trees.Shape.{max_operands};
ghost use Rattle.sch_frames.specs.declared.instruction.Instruction.TheVariants.{Do, Store, Fix, Return, End, Jump, Label, Mark};
ghost use Rattle.sch_word.specs.values.Places.{is_slot};
ghost use Rattle.sch_control.specs.flow.Places.{formals_of, variable_arrival};
ghost use Rattle.sch_layout.specs.BodyLayout.{arrivals, entering, brought, operation_at, members_at, leave, labels, lay, spill, stored, under, Writes};
ghost use Rattle.sch_writer.specs.FewOperands.{FewOperands};
ghost use Rattle.sch_writer.specs.Regions.{inside};

use crate::allocation::{Allocation, Around, Restores};
use crate::call_layout::{CLOSURE, LINK, write_call, write_tail_call};
use crate::instructions::{Writer, leave, new_label, new_writer, put, put_under};
use crate::operand_places::{members_at, operation_at};
use crate::regions::Regions;
use crate::saves::{write_bound, write_heads, write_members};
use crate::variable_places::VariablePlaces;
use sch_control::{Entry, Exp, Member, Operation, arrival};
use sch_frames::Instruction;
use sch_word::{List, MarkKind, Mem, Place, same_place};
use std::alloc::Global;

// What is written between the parts of an expression stands in functions of its own, which are not put into the walk over
// the parts: this is as deep as they nest, and has a small frame so.

#[inline(never)]
fn write_operation<P: VariablePlaces>(
    alloc: Global,
    places: &P,
    o: &Operation<u32>,
    test: Option<u32>,
    out: &mut Writer,
) -> Result<(), Mem>
    ensures instructions { OnOk result (Writes out.old.instructions out.new.instructions
        (λ rest. Do (operation_at (P.plan places.now).place o.now) ∷ leave test rest)) }
    ensures labels { OnOk result (out.new.labels ≡ out.old.labels) }
{
    put(out, Instruction::Do(operation_at(alloc, places, o)?))?;
    leave(out, test)?;
    Ok(())
}

/// Under which mark a variable is stored in its place, if that is a slot.
fn spilled(place: Place, x: u32) -> Option<MarkKind>
    ensures { result ≡ cond (is_slot place) (Some (mark.Spill x)) None }
{
    match place {
        Place::Reg(_) => None,
        Place::Slot(_) => Some(MarkKind::Spill(x)),
    }
}

/// The members of a group that live in slots.
fn spilled_members<P: VariablePlaces>(
    alloc: Global,
    places: &P,
    members: &[Member<u32>],
) -> Result<List<u32>, Mem>
    ensures { IfOk result (λ xs. xs ≡ filter (λ x. is_slot ((P.plan places.now).place x)) (member_variables members.now)) }
{
    let mut xs = List::new(alloc);
    for m in members {
        if let Place::Slot(_) = places.place(m.at) {
            xs.push(m.at)?;
        }
    }
    Ok(xs)
}

#[inline(never)]
fn write_store<P: VariablePlaces, R>(
    around: &Around<'_, P, R>,
    x: u32,
    out: &mut Writer,
) -> Result<(), Mem>
    ensures instructions { OnOk result (Writes out.old.instructions out.new.instructions
        (λ rest. under (spill (P.plan around.now.allocation.now.places) x) (Store ((P.plan around.now.allocation.now.places).place x))
        (stored (P.plan around.now.allocation.now.places) (filter (inside around.now.regions) (x ∷ [])) rest))) }
    ensures labels { OnOk result (out.new.labels ≡ out.old.labels) }
{
    let places = &around.allocation.places;
    let place = places.place(x);
    put_under(out, spilled(place, x), Instruction::Store(place))?;
    write_bound(places, &around.regions, x, out)
}

/// The instruction that makes a group, with those of its members that live in slots.
fn group_at<P: VariablePlaces>(
    alloc: Global,
    places: &P,
    members: &[Member<u32>],
) -> Result<Instruction, Mem>
    ensures { IfOk result (λ i. i ≡ Fix (members_at (P.plan places.now).place members.now)
        (filter (λ x. is_slot ((P.plan places.now).place x)) (member_variables members.now))) }
{
    let spills = spilled_members(alloc, places, members)?;
    let members_at = members_at(alloc, places, members)?;
    Ok(Instruction::Fix(members_at, spills))
}

#[inline(never)]
fn write_group<P: VariablePlaces, R>(
    around: &Around<'_, P, R>,
    members: &[Member<u32>],
    out: &mut Writer,
) -> Result<(), Mem>
    ensures instructions { OnOk result (Writes out.old.instructions out.new.instructions
        (λ rest. Fix (members_at (P.plan around.now.allocation.now.places).place members.now)
        (filter (λ x. is_slot ((P.plan around.now.allocation.now.places).place x)) (member_variables members.now))
        ∷ stored (P.plan around.now.allocation.now.places) (filter (inside around.now.regions) (member_variables members.now)) rest)) }
    ensures labels { OnOk result (out.new.labels ≡ out.old.labels) }
{
    let places = &around.allocation.places;
    put(out, group_at(around.alloc, places, members)?)?;
    write_members(places, &around.regions, members, out)
}

#[inline(never)]
fn write_else(no: u32, end: u32, out: &mut Writer) -> Result<(), Mem>
    ensures instructions { OnOk result (Writes out.old.instructions out.new.instructions (λ rest. Jump end ∷ (Label no ∷ rest))) }
    ensures labels { OnOk result (out.new.labels ≡ out.old.labels) }
{
    put(out, Instruction::Jump(end))?;
    put(out, Instruction::Label(no))?;
    Ok(())
}

#[inline(never)]
fn write_label(label: u32, out: &mut Writer) -> Result<(), Mem>
    ensures instructions { OnOk result (Writes out.old.instructions out.new.instructions (λ rest. Label label ∷ rest)) }
    ensures labels { OnOk result (out.new.labels ≡ out.old.labels) }
{
    put(out, Instruction::Label(label))?;
    Ok(())
}

#[inline(never)]
fn write_return(out: &mut Writer) -> Result<(), Mem>
    ensures instructions { OnOk result (Writes out.old.instructions out.new.instructions (λ rest. Mark mark.Return ∷ (Return ∷ rest))) }
    ensures labels { OnOk result (out.new.labels ≡ out.old.labels) }
{
    put(out, Instruction::Mark(MarkKind::Return))?;
    put(out, Instruction::Return)?;
    Ok(())
}

#[inline(never)]
fn write_end(out: &mut Writer) -> Result<(), Mem>
    ensures instructions { OnOk result (Writes out.old.instructions out.new.instructions (λ rest. End ∷ rest)) }
    ensures labels { OnOk result (out.new.labels ≡ out.old.labels) }
{
    put(out, Instruction::End)?;
    Ok(())
}

/// The instructions of an expression within more regions.
#[cycle(lay)]
#[inline(never)]
fn lay_region<'a, C: Drop, P: VariablePlaces, R: Restores<C>>(
    around: &'a Around<'a, P, R>,
    saves: &'a [u32],
    e: &'a Exp<C>,
    test: Option<u32>,
    out: &mut Writer,
) -> Result<(), Mem>
    requires few { FewOperands e.now }
    requires room { out.old.labels + labels (expression_with (R.lists around.now.allocation.now.restores) e.now) < 2 ^ 32 }
    ensures instructions { OnOk result (Writes out.old.instructions out.new.instructions
        (lay (P.plan around.now.allocation.now.places) (save saves.now (expression_with (R.lists around.now.allocation.now.restores) e.now))
        (inside around.now.regions) out.old.labels test)) }
    ensures labels { OnOk result (out.new.labels ≡ out.old.labels + labels (expression_with (R.lists around.now.allocation.now.restores) e.now)) }
{
    write_heads(around, saves, e, out)?;
    let within = Around {
        alloc: around.alloc,
        allocation: around.allocation,
        regions: Regions::Within(saves, &around.regions),
    };
    lay(&within, e, test, out)
}

/// The instructions of an expression. Where there is a test, `#f` goes on behind its label; otherwise the
/// value is left in the accumulator.
#[cycle(lay)]
fn lay<'a, C: Drop, P: VariablePlaces, R: Restores<C>>(
    around: &'a Around<'a, P, R>,
    e: &'a Exp<C>,
    test: Option<u32>,
    out: &mut Writer,
) -> Result<(), Mem>
    requires few { FewOperands e.now }
    requires room { out.old.labels + labels (expression_with (R.lists around.now.allocation.now.restores) e.now) < 2 ^ 32 }
    ensures instructions { OnOk result (Writes out.old.instructions out.new.instructions
        (lay (P.plan around.now.allocation.now.places) (expression_with (R.lists around.now.allocation.now.restores) e.now)
        (inside around.now.regions) out.old.labels test)) }
    ensures labels { OnOk result (out.new.labels ≡ out.old.labels + labels (expression_with (R.lists around.now.allocation.now.restores) e.now)) }
{
    match e {
        Exp::Do(o) => write_operation(around.alloc, &around.allocation.places, o, test, out),
        Exp::Bind(x, a, b) => {
            lay(around, a, None, out)?;
            write_store(around, *x, out)?;
            lay(around, b, test, out)
        }
        Exp::Seq(a, b) => {
            lay(around, a, None, out)?;
            lay(around, b, test, out)
        }
        Exp::If(a, b, c) => {
            let no = new_label(out);
            let end = new_label(out);
            lay(around, a, Some(no), out)?;
            lay(around, b, test, out)?;
            write_else(no, end, out)?;
            lay(around, c, test, out)?;
            write_label(end, out)
        }
        Exp::Fix(members, e) => {
            write_group(around, members.as_slice(), out)?;
            lay(around, e, test, out)
        }
        Exp::Return(e) => {
            lay(around, e, None, out)?;
            write_return(out)
        }
        Exp::End(e) => {
            lay(around, e, None, out)?;
            write_end(out)
        }
        Exp::Call(a, call) => write_call(around, a, call, test, out),
        Exp::TailCall(a) => write_tail_call(around.alloc, &around.allocation.places, a, out),
        Exp::Save(saves, e) => lay_region(around, saves.as_slice(), e, test, out),
    }
}

/// Where a variable stands as a procedure is entered: the return address, the closure, and the arguments.
fn variable_arrival(x: u32) -> Place
    ensures { result ≡ variable_arrival x }
{
    match x {
        0 => LINK,
        1 => CLOSURE,
        _ => arrival(x - 2),
    }
}

/// A variable comes from where it arrives into its place. What stands there already is not copied.
fn bring<P: VariablePlaces>(places: &P, x: u32, out: &mut Writer) -> Result<(), Mem>
    ensures instructions { OnOk result (Writes out.old.instructions out.new.instructions (brought (P.plan places.now) x)) }
    ensures labels { OnOk result (out.new.labels ≡ out.old.labels) }
{
    let to = places.place(x);
    let from = variable_arrival(x);
    if same_place(to, from) {
        return Ok(());
    }
    put_under(out, spilled(to, x), Instruction::Copy(to, from))
}

/// A number of variables from the closure on come into their places.
fn arrive<P: VariablePlaces>(places: &P, count: u32, out: &mut Writer) -> Result<(), Mem>
    ensures instructions { OnOk result (Writes out.old.instructions out.new.instructions (arrivals (P.plan places.now) 1 count)) }
    ensures labels { OnOk result (out.new.labels ≡ out.old.labels) }
{
    for k in 0..count {
        bring(places, k + 1, out)?;
    }
    Ok(())
}

/// A procedure brings its closure and its arguments into their places.
fn enter<P: VariablePlaces>(places: &P, entry: Option<Entry>, out: &mut Writer) -> Result<(), Mem>
    requires few { formals_of entry ≤ max_operands }
    ensures instructions { OnOk result (Writes out.old.instructions out.new.instructions (entering (P.plan places.now) entry)) }
    ensures labels { OnOk result (out.new.labels ≡ out.old.labels) }
{
    match entry {
        None => Ok(()),
        Some(e) => arrive(places, e.formals + 1, out),
    }
}

/// The instructions of a body by its allocation: what it is entered by, and its expression, with the regions that it has.
///
/// Time and memory are linear in what is read and written, but that for each variable of a region the expression of this
/// is walked once more, to see whether it is bound there, and the regions round a binding are gone through.
pub fn write_body<C: Drop, P: VariablePlaces, R: Restores<C>>(
    alloc: Global,
    allocation: &Allocation<P, R>,
    entry: Option<Entry>,
    e: &Exp<C>,
) -> Result<Writer, Mem>
    requires formals { formals_of entry ≤ max_operands }
    requires few { FewOperands e.now }
    requires labels { labels (expression_with (R.lists allocation.now.restores) e.now) < 2 ^ 32 }
    ensures instructions { IfOk result (λ out. out.instructions ≡ entering (P.plan allocation.now.places) entry
        (lay (P.plan allocation.now.places) (expression_with (R.lists allocation.now.restores) e.now) no_region 0 None [])) }
    ensures labels { IfOk result (λ out. out.labels ≡ labels (expression_with (R.lists allocation.now.restores) e.now)) }
{
    write_region_body(alloc, allocation, &[], entry, e)
}

/// The instructions of a body whose expression is one region, as those of any other body.
pub fn write_region_body<C: Drop, P: VariablePlaces, R: Restores<C>>(
    alloc: Global,
    allocation: &Allocation<P, R>,
    saves: &[u32],
    entry: Option<Entry>,
    e: &Exp<C>,
) -> Result<Writer, Mem>
    requires formals { formals_of entry ≤ max_operands }
    requires few { FewOperands e.now }
    requires labels { labels (expression_with (R.lists allocation.now.restores) e.now) < 2 ^ 32 }
    ensures instructions { IfOk result (λ out. out.instructions ≡ entering (P.plan allocation.now.places) entry
        (lay (P.plan allocation.now.places) (save saves.now (expression_with (R.lists allocation.now.restores) e.now)) no_region 0 None [])) }
    ensures labels { IfOk result (λ out. out.labels ≡ labels (expression_with (R.lists allocation.now.restores) e.now)) }
{
    let around = Around {
        alloc,
        allocation,
        regions: Regions::Nowhere,
    };
    let mut out = new_writer(alloc)?;
    enter(&allocation.places, entry, &mut out)?;
    lay_region(&around, saves, e, None, &mut out)?;
    Ok(out)
}
