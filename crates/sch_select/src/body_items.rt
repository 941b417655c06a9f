//! The items of bodies.

ghost use Rattle.std.specs.Prelude.{◌≡◌, ◌+◌, ◌^◌, ◌≤◌, ◌++◌, ◌∷◌, IfOk, IsTrue, OnOk, List, length};
ghost use Rattle.std.specs.List.{list_all};
ghost use Rattle.sch_word.specs.trees.Shape.{max_operands};
ghost use Rattle.sch_frames.specs.Valid.{max_words};
ghost use Rattle.sch_asm.specs.declared.item.Item.{Item};
ghost use Rattle.sch_asm.specs.declared.item.Item.TheVariants.{Plain};
ghost use Rattle.sch_insn.specs.declared.insn.Insn.TheVariants.{MovTo};
ghost use Rattle.sch_frames.specs.SourceView.{codes_of, code_of};
ghost use Rattle.sch_select.specs.Select.{all_labels_needed, labels_needed, operand_needs, operation_needs};
ghost use Rattle.sch_select.specs.Select.{body_code, copy_insn, instruction_code};
ghost use Rattle.sch_select_memory.specs.Addresses.{max_heap_end, max_labels, place_operand};
ghost use Rattle.sch_select_memory.specs.Reach.{is_reached_place};
ghost use Rattle.sch_select.specs.Reach.{is_reached_code, is_reached_entry, is_reached_instruction, names_below};
ghost use Rattle.sch_select.specs.Program.{count_code, entry_code, form_code, forms_code, labels_end, own_labels, passed_code};

use sch_asm::{Item, ItemList};
use sch_control::{Entry, Operand, Operation};
use sch_frames::{FrameBody, Instruction};
use sch_insn::condition::E;
use sch_insn::{Arg, Insn};
use sch_select_memory::addresses::{body_label, place_operand};
use sch_select_memory::enter_rest;
use sch_select_memory::word::FALSE;
use sch_select_operations::{call, check_count, group, operation, tail_call};
use sch_word::registers::RAX;
use sch_word::{LINK_REGISTER, MarkKind, Mem, Place};

/// Where the labels of a body are, its own from `base` on, and `end` behind it; how many words a frame has; where
/// the heap ends; and how many literals there are.
#[derive(Clone, Copy)]
struct Labels {
    base: u32,
    end: u32,
    words: u32,
    heap_end: u32,
    literals: u32,
}

/// What a place has into another one: one `mov`, since one of the two is a register. No body copies from slot to slot.
fn copy(to: Place, from: Place) -> Insn
    requires to { IsTrue (is_reached_place to) }
    requires from { IsTrue (is_reached_place from) }
    ensures { result ≡ copy_insn to from }
{
    match (to, from) {
        (to, Place::Reg(r)) => Insn::MovTo(place_operand(to), r),
        (Place::Reg(r), from) => Insn::MovFrom(r, place_operand(from)),
        (Place::Slot(_), from) => Insn::MovFrom(RAX, place_operand(from)),
    }
}

/// What RAX has into a place.
fn store(out: &mut ItemList, p: Place) -> Result<(), Mem>
    requires { IsTrue (is_reached_place p) }
    ensures { OnOk result ((rest : List Item) → out.new ++ rest ≡ out.old ++ Plain (MovTo (place_operand p) RAX) ∷ rest) }
{
    out.push(Item::Plain(Insn::MovTo(place_operand(p), RAX)))
}

/// One instruction, whose own labels are from n on.
fn instruction(out: &mut ItemList, labels: Labels, n: u32, i: &Instruction) -> Result<(), Mem>
    requires words { labels.words ≤ max_words }
    requires low { labels.heap_end ≤ max_heap_end }
    requires reached { IsTrue (is_reached_instruction i.now) }
    requires below { IsTrue (names_below labels.base labels.end i.now) }
    requires few { n + 12 ≤ 2 ^ 32 }
    ensures { OnOk result ((rest : List Item) → out.new ++ rest
        ≡ out.old ++ instruction_code labels.base labels.end labels.words labels.heap_end labels.literals n i.now rest) }
{
    match i {
        Instruction::Do(o) => operation(out, labels.heap_end, labels.literals, n, o),
        Instruction::Store(p) => store(out, *p),
        Instruction::Copy(to, from) => out.push(Item::Plain(copy(*to, *from))),
        Instruction::Pass(k) => store(out, Place::Slot(labels.words + *k)),
        Instruction::Fix(members, spills) => {
            group(out, labels.heap_end, members.as_slice(), spills.as_slice())
        }
        Instruction::Call(_, count) => call(out, labels.words, n, *count),
        Instruction::Tail(_, count) => tail_call(out, *count),
        Instruction::Return => out.push(Item::Plain(Insn::JumpTo(Arg::Reg(LINK_REGISTER)))),
        Instruction::End => out.push(Item::Jump(labels.end)),
        Instruction::IfFalse(l) => {
            out.push(Item::Plain(Insn::CmpNumber(Arg::Reg(RAX), FALSE)))?;
            out.push(Item::JumpIf(E, labels.base + *l))
        }
        Instruction::Jump(l) => out.push(Item::Jump(labels.base + *l)),
        Instruction::Label(l) => out.push(Item::Label(labels.base + *l)),
        Instruction::Mark(mark) => out.push(Item::Mark(*mark)),
    }
}

/// How many labels of its own an operand needs at most.
fn operand_needs(o: &Operand<Place>) -> u32
    ensures { result ≡ operand_needs o.now }
{
    match o {
        Operand::Atom(_) => 0,
        Operand::Read(..) => 4,
    }
}

/// How many an operation needs at most.
fn operation_needs(o: &Operation<Place>) -> u32
    ensures { result ≡ operation_needs o.now }
{
    match o {
        Operation::Operand(o) | Operation::SetGlobal(_, o) | Operation::CellSet(_, o) =>
            operand_needs(o),
        Operation::Prim(..) => 12,
        _ => 0,
    }
}

/// How many an instruction needs at most.
fn labels_needed(i: &Instruction) -> u32
    ensures { result ≡ labels_needed i.now }
{
    match i {
        Instruction::Do(o) => operation_needs(o),
        Instruction::Call(..) => 1,
        _ => 0,
    }
}

/// The instructions of a body, each with the labels that it needs, from n on, and the number behind these.
fn body(
    out: &mut ItemList,
    labels: Labels,
    n: u32,
    instructions: &[Instruction],
) -> Result<u32, Mem>
    requires words { labels.words ≤ max_words }
    requires low { labels.heap_end ≤ max_heap_end }
    requires reached { IsTrue (list_all is_reached_instruction instructions.now) }
    requires below { IsTrue (list_all (names_below labels.base labels.end) instructions.now) }
    requires few { n + all_labels_needed instructions.now + 12 ≤ 2 ^ 32 }
    ensures items { OnOk result ((rest : List Item) → out.new ++ rest
        ≡ out.old ++ body_code labels.base labels.end labels.words labels.heap_end labels.literals n instructions.now rest) }
    ensures next { IfOk result (λ m. m ≡ n + all_labels_needed instructions.now) }
{
    let mut next = n;
    for i in instructions {
        instruction(out, labels, next, i)?;
        next += labels_needed(i);
    }
    Ok(next)
}

/// A procedure's body is jumped over.
fn passed(out: &mut ItemList, entry: &Option<Entry>, end: u32) -> Result<(), Mem>
    ensures { OnOk result ((rest : List Item) → out.new ++ rest ≡ out.old ++ passed_code entry.now end rest) }
{
    match entry {
        None => Ok(()),
        Some(_) => out.push(Item::Jump(end)),
    }
}

/// How many words a frame has, where the heap ends, and how many literals there are.
#[derive(Clone, Copy)]
pub(crate) struct Frames {
    pub(crate) words: u32,
    pub(crate) heap_end: u32,
    pub(crate) literals: u32,
}

/// The operands are as many as the formals; or those that are left over become a list, for which the label is.
fn check_operands(out: &mut ItemList, rest: bool, formals: u32, n: u32) -> Result<(), Mem>
    requires { formals ≤ max_operands }
    ensures { OnOk result ((behind : List Item) → out.new ++ behind ≡ out.old ++ count_code rest formals n behind) }
{
    if rest {
        enter_rest(out, formals.saturating_sub(1), n)
    } else {
        check_count(out, formals)
    }
}

/// A procedure's body begins with a check of its operands' count.
fn check_entry(out: &mut ItemList, entry: &Option<Entry>, n: u32) -> Result<(), Mem>
    requires { IsTrue (is_reached_entry entry.now) }
    ensures { OnOk result ((rest : List Item) → out.new ++ rest ≡ out.old ++ entry_code entry.now n rest) }
{
    match entry {
        None => Ok(()),
        Some(e) => check_operands(out, e.rest, e.formals, n),
    }
}

/// The body of a label, with labels of its own from n on, and the number behind these.
fn form(out: &mut ItemList, frames: Frames, label: u32, n: u32, b: &FrameBody) -> Result<u32, Mem>
    requires words { frames.words ≤ max_words }
    requires low { frames.heap_end ≤ max_heap_end }
    requires reached { IsTrue (is_reached_code (code_of b.now)) }
    requires count { label ≤ max_labels }
    requires few { labels_end n (code_of b.now) + 12 ≤ 2 ^ 32 }
    ensures items { OnOk result ((rest : List Item) → out.new ++ rest
        ≡ out.old ++ form_code frames.words frames.heap_end frames.literals label n (code_of b.now) rest) }
    ensures next { IfOk result (λ m. m ≡ labels_end n (code_of b.now)) }
{
    let end = n + b.labels;
    let labels = Labels {
        base: n,
        end,
        words: frames.words,
        heap_end: frames.heap_end,
        literals: frames.literals,
    };
    passed(out, &b.entry, end)?;
    out.push(Item::Label(body_label(label)))?;
    check_entry(out, &b.entry, end + 1)?;
    out.push(Item::Mark(MarkKind::Enter(label)))?;
    let next = body(out, labels, end + 2, b.instructions.as_slice())?;
    out.push(Item::Label(end))?;
    Ok(next)
}

/// The bodies, in their order, with labels of their own from n on.
pub(crate) fn forms(
    out: &mut ItemList,
    frames: Frames,
    n: u32,
    bodies: &[FrameBody],
) -> Result<(), Mem>
    requires words { frames.words ≤ max_words }
    requires low { frames.heap_end ≤ max_heap_end }
    requires reached { IsTrue (list_all is_reached_code (codes_of bodies.now)) }
    requires count { length bodies.now ≤ max_labels }
    requires few { n + own_labels (codes_of bodies.now) + 12 ≤ 2 ^ 32 }
    ensures { OnOk result ((rest : List Item) → out.new ++ rest
        ≡ out.old ++ forms_code frames.words frames.heap_end frames.literals 0 n (codes_of bodies.now) rest) }
{
    let mut next = n;
    let mut label = 0;
    for b in bodies {
        next = form(out, frames, label, next, b)?;
        label += 1;
    }
    Ok(())
}
