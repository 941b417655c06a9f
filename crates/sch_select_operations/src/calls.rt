//! The items of calls.

ghost use Rattle.std.specs.Prelude.{◌≡◌, ◌≤◌, ◌++◌, OnOk, List};
ghost use Rattle.sch_asm.specs.declared.item.Item.{Item};
ghost use Rattle.sch_select_operations.specs.CallCode.{call_code, check_count, check_depth, check_operator, close_code, enter_code, open_code};
ghost use Rattle.sch_select_operations.specs.CallCode.{tail_code};
ghost use Rattle.sch_frames.specs.Valid.{max_words};
ghost use Rattle.sch_word.specs.trees.Shape.{max_operands};

use sch_asm::{Item, ItemList};
use sch_insn::condition::{E, NE};
use sch_insn::{Arg, Insn};
use sch_select_memory::addresses::{immediate, slot_bytes, stop};
use sch_select_memory::word::{PROCEDURE, TAG_MASK};
use sch_word::registers::{RAX, RCX, RDX};
use sch_word::{CLOSURE_REGISTER, DEPTH_REGISTER, FRAME_REGISTER, LINK_REGISTER, Mem, Stop};

/// The address of the code of the procedure in the register of the closure: the first word of its record.
const CODE_ADDRESS: Arg = Arg::Base32(CLOSURE_REGISTER, -PROCEDURE);

/// The register of the closure has a procedure, or stop 67.
fn operator_check() -> [Item; 4]
    ensures { (rest : List Item) → result ++ rest ≡ check_operator rest }
{
    [
        Item::Plain(Insn::MovTo(Arg::Reg(RDX), CLOSURE_REGISTER)),
        Item::Plain(Insn::AndNumber(Arg::Reg(RDX), TAG_MASK)),
        Item::Plain(Insn::CmpNumber(Arg::Reg(RDX), PROCEDURE)),
        Item::JumpIf(NE, stop(Stop::NotProcedure)),
    ]
}

/// Some depth is left, or stop 72.
fn depth_check() -> [Item; 2]
    ensures { (rest : List Item) → result ++ rest ≡ check_depth rest }
{
    [
        Item::Plain(Insn::CmpNumber(Arg::Reg(DEPTH_REGISTER), 0)),
        Item::JumpIf(E, stop(Stop::DepthLimit)),
    ]
}

/// The procedure in the register of the closure is entered with a number of operands.
fn enter(out: &mut ItemList, count: u32) -> Result<(), Mem>
    requires { count ≤ max_operands }
    ensures { OnOk result ((rest : List Item) → out.new ++ rest ≡ out.old ++ enter_code count rest) }
{
    let count = immediate(count);
    out.extend_from_slice(&[
        Item::Plain(Insn::MovNumber(Arg::Reg(RAX), count)),
        Item::Plain(Insn::MovFrom(RCX, CODE_ADDRESS)),
        Item::Plain(Insn::JumpTo(Arg::Reg(RCX))),
    ])
}

/// A frame is opened behind the own one.
fn open(out: &mut ItemList, words: u32, n: u32) -> Result<(), Mem>
    requires { words ≤ max_words }
    ensures { OnOk result ((rest : List Item) → out.new ++ rest ≡ out.old ++ open_code words n rest) }
{
    let bytes = slot_bytes(words);
    out.extend_from_slice(&[
        Item::Plain(Insn::SubNumber(Arg::Reg(DEPTH_REGISTER), 1)),
        Item::Plain(Insn::AddNumber(Arg::Reg(FRAME_REGISTER), bytes)),
        Item::LoadLabel(LINK_REGISTER, n),
    ])
}

/// It is closed where the procedure returns.
fn close(out: &mut ItemList, words: u32, n: u32) -> Result<(), Mem>
    requires { words ≤ max_words }
    ensures { OnOk result ((rest : List Item) → out.new ++ rest ≡ out.old ++ close_code words n rest) }
{
    let bytes = slot_bytes(words);
    out.extend_from_slice(&[
        Item::Label(n),
        Item::Plain(Insn::SubNumber(Arg::Reg(FRAME_REGISTER), bytes)),
        Item::Plain(Insn::AddNumber(Arg::Reg(DEPTH_REGISTER), 1)),
    ])
}

/// The procedure in the register of the closure is entered in a frame of its own.
fn enter_frame(out: &mut ItemList, words: u32, n: u32, count: u32) -> Result<(), Mem>
    requires words { words ≤ max_words }
    requires few { count ≤ max_operands }
    ensures { OnOk result ((rest : List Item) → out.new ++ rest ≡ out.old ++ open_code words n (enter_code count rest)) }
{
    open(out, words, n)?;
    enter(out, count)
}

/// Both checks of a call that is no tail call.
fn check_call(out: &mut ItemList) -> Result<(), Mem>
    ensures { OnOk result ((rest : List Item) → out.new ++ rest ≡ out.old ++ check_operator (check_depth rest)) }
{
    out.extend_from_slice(&operator_check())?;
    out.extend_from_slice(&depth_check())
}

/// A call that is no tail call, with a frame of its own. The procedure returns to the label n.
pub fn call(out: &mut ItemList, words: u32, n: u32, count: u32) -> Result<(), Mem>
    requires words { words ≤ max_words }
    requires few { count ≤ max_operands }
    ensures { OnOk result ((rest : List Item) → out.new ++ rest ≡ out.old ++ call_code words n count rest) }
{
    check_call(out)?;
    enter_frame(out, words, n, count)?;
    close(out, words, n)
}

/// A tail call.
pub fn tail_call(out: &mut ItemList, count: u32) -> Result<(), Mem>
    requires { count ≤ max_operands }
    ensures { OnOk result ((rest : List Item) → out.new ++ rest ≡ out.old ++ tail_code count rest) }
{
    out.extend_from_slice(&operator_check())?;
    enter(out, count)
}

/// The operands are as many as the formals, or stop 68.
pub fn check_count(out: &mut ItemList, formals: u32) -> Result<(), Mem>
    requires { formals ≤ max_operands }
    ensures { OnOk result ((rest : List Item) → out.new ++ rest ≡ out.old ++ check_count formals rest) }
{
    let formals = immediate(formals);
    out.extend_from_slice(&[
        Item::Plain(Insn::CmpNumber(Arg::Reg(RAX), formals)),
        Item::JumpIf(NE, stop(Stop::WrongCount)),
    ])
}
