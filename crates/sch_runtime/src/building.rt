//! The items of the run-time routines, made.

ghost use Rattle.std.specs.Prelude.{◌≡◌, ◌<◌, ◌≤◌, ◌%◌, ◌∷◌, ◌++◌, true, IfOk, IsTrue, OnOk};
ghost use Rattle.std.specs.List.{list_all};
ghost use Rattle.sch_asm.specs.declared.item.Item.TheVariants as item;
ghost use Rattle.sch_asm.specs.Items.{AreRoutines};
ghost use Rattle.sch_asm.specs.Routines.{label_of};
ghost use Rattle.sch_asm.specs.Codes.{text_size};
ghost use Rattle.sch_asm.specs.Effects.{AreEffective};
ghost use Rattle.sch_asm.specs.Narrow.{is_narrow_item, narrowed};
ghost use Rattle.sch_select_memory.specs.Addresses.{max_heap_end};
ghost use Rattle.sch_select_memory.specs.ValueCode.{value_code};
ghost use Rattle.sch_runtime.specs.Form.{keeps_form};
ghost use Rattle.sch_runtime.specs.FrameRegister.{leaves_frame};
ghost use Rattle.sch_runtime.specs.HandedWord.{sets_first};
ghost use Rattle.sch_runtime.specs.HeapRegister.{passes_by_numbers};
ghost use Rattle.sch_runtime.specs.Code.{all_routines, digit_code, digit_label, done_code, done_label, exit_code, fixnum_code, put_code, fill_code, routine_items};

use crate::new_list::rest_routine;
use crate::new_string::string_routine;
use crate::new_vector::vector_routine;
use crate::put_value::put_routine;
use sch_asm::{Asm, FIRST_INNER_LABEL, Item, ItemList, Routine, narrowed};
use sch_insn::condition::{E, GE, LE, NE};
use sch_insn::system_call::{STDOUT, SYS_EXIT, SYS_WRITE};
use sch_insn::{Arg, Insn};
use sch_select_memory::word::FIXNUM_SHIFT;
use sch_word::registers::{R11, RAX, RCX, RDI, RDX, RSI};
use sch_word::{DATA_ADDRESS, List, Mem, Stop};
use std::alloc::Global;

/// The statuses with which a program ends: that of its end, and those of its stops.
const STATUSES: [u8; 11] = [0, 65, 66, 67, 68, 69, 70, 71, 72, 73, 74];

// Labels inside the routines.
const WRITE: u32 = FIRST_INNER_LABEL;

const LOOP: u32 = 65;

const DONE: u32 = 66;

const POSITIVE: u32 = 67;

const DIGIT: u32 = 68;

const READY: u32 = 69;

const WORDS_TURN: u32 = 70;

const WORDS_TEST: u32 = 71;

const BYTES_TURN: u32 = 72;

const BYTES_TEST: u32 = 73;

// What the fills store, at the address in rax.
const WORD_STORE: Insn = Insn::MovTo(Arg::Base(RAX), RCX);

const BYTE_STORE: Insn = Insn::StoreByte(Arg::Base(RAX), RCX);

// The words of the data that keep registers.
const KEPT_R11: u64 = DATA_ADDRESS;

const KEPT_RSI: u64 = DATA_ADDRESS + 8;

const KEPT_RDI: u64 = DATA_ADDRESS + 16;

// Where the digits of a number end.
const DIGITS_END: i32 = DATA_ADDRESS as i32 + 64;

/// The run-time routines for a heap that ends there, as `resolve` takes them.
pub fn routines(alloc: Global, heap_end: u32) -> Result<Asm, Mem>
    requires { heap_end ≤ max_heap_end }
    ensures items { IfOk result (λ r. r.items ≡ all_routines heap_end) }
    ensures joined { IfOk result (λ r. AreRoutines r.items r.words r.zeros) }
    ensures effective { IfOk result (λ r. AreEffective r.items) }
    ensures short { IfOk result (λ r. text_size r.items ≤ 2560) }
    // Each instruction has its shortest form.
    ensures narrow { IfOk result (λ r. IsTrue (list_all is_narrow_item r.items)) }
    // Their text alone shows where each of them returns.
    ensures form { IfOk result (λ r. IsTrue (keeps_form r.items)) }
    // The frame's register is nowhere in them, but that its address goes into RCX.
    ensures frame { IfOk result (λ r. IsTrue (list_all leaves_frame r.items)) }
    // They set RCX before they read it, but for those that are handed a word in it.
    ensures handed { IfOk result (λ r. IsTrue (sets_first true r.items)) }
    // The heap's register is set to no word of memory, of another register or of an instruction: it goes on by multiples of 16 bytes.
    ensures heap { IfOk result (λ r. IsTrue (list_all passes_by_numbers r.items)) }
{
    let items = all_items(alloc, heap_end)?;
    Ok(Asm {
        items,
        words: List::new(alloc),
        zeros: 0,
    })
}

// The items of all routines.
fn all_items(alloc: Global, heap_end: u32) -> Result<ItemList, Mem>
    requires { heap_end ≤ max_heap_end }
    ensures { IfOk result (λ items. items ≡ all_routines heap_end) }
{
    let mut items = value_items(alloc, heap_end)?;
    let others = other_items(alloc)?;
    items.extend_from_slice(others.as_slice())?;
    Ok(items)
}

// The items of those that know how values are in the machine: each instruction has its shortest form.
fn value_items(alloc: Global, heap_end: u32) -> Result<ItemList, Mem>
    requires { heap_end ≤ max_heap_end }
    ensures { IfOk result (λ items. items ≡ narrowed (value_code heap_end)) }
{
    let mut items = ItemList::new(alloc);
    value_routines(&mut items, heap_end)?;
    Ok(narrowed(items))
}

// The routines that know how values are in the machine, one behind the other. They name where the heap ends.
fn value_routines(items: &mut ItemList, heap_end: u32) -> Result<(), Mem>
    requires { heap_end ≤ max_heap_end }
    ensures { OnOk result (items.new ≡ items.old ++ value_code heap_end) }
{
    put_routine(items)?;
    vector_routine(items, heap_end)?;
    string_routine(items, heap_end)?;
    rest_routine(items, heap_end)
}

// The items of all others.
fn other_items(alloc: Global) -> Result<List<Item>, Mem>
    ensures { IfOk result (λ items. items ≡ routine_items) }
{
    let mut items = List::new(alloc);
    for status in STATUSES.iter() {
        items.extend_from_slice(&exit_items(*status))?;
    }
    items.extend_from_slice(&put_items())?;
    items.extend_from_slice(&done_items())?;
    items.extend_from_slice(&fixnum_items())?;
    items.extend_from_slice(&digit_items())?;
    items.extend_from_slice(&fill_items(
        Routine::FillWords,
        WORD_STORE,
        8,
        WORDS_TURN,
        WORDS_TEST,
    ))?;
    items.extend_from_slice(&fill_items(
        Routine::FillBytes,
        BYTE_STORE,
        1,
        BYTES_TURN,
        BYTES_TEST,
    ))?;
    Ok(items)
}

// An exit with a status.
fn exit_items(status: u8) -> [Item; 4]
    ensures { result ≡ item.Label (status % 64) ∷ exit_code status }
{
    [
        Item::Label((status % 64) as u32),
        Item::Plain(Insn::MovNumber(Arg::Reg(RDI), status as i32)),
        Item::Plain(Insn::MovNumber(Arg::Reg(RAX), SYS_EXIT as i32)),
        Item::Plain(Insn::Syscall),
    ]
}

// The put of a piece, up to its end.
fn put_items() -> [Item; 17]
    ensures { result ≡ item.Label (label_of Routine.Put) ∷ put_code }
{
    [
        Item::Label(Routine::Put.label()),
        Item::StoreWord(KEPT_RSI, RSI),
        Item::StoreWord(KEPT_RDI, RDI),
        Item::Plain(Insn::MovTo(Arg::Reg(RSI), RAX)),
        Item::Label(WRITE),
        Item::StoreWord(KEPT_R11, R11),
        Item::Label(LOOP),
        Item::Plain(Insn::CmpNumber8(Arg::Reg(RDX), 0)),
        Item::JumpIf(E, DONE),
        Item::Plain(Insn::MovNumber(Arg::Reg(RAX), SYS_WRITE as i32)),
        Item::Plain(Insn::MovNumber(Arg::Reg(RDI), STDOUT as i32)),
        Item::Plain(Insn::Syscall),
        Item::Plain(Insn::CmpNumber8(Arg::Reg(RAX), 0)),
        Item::JumpIf(LE, Routine::Stop(Stop::OutputFailed).label()),
        Item::Plain(Insn::AddTo(Arg::Reg(RSI), RAX)),
        Item::Plain(Insn::SubTo(Arg::Reg(RDX), RAX)),
        Item::Jump(LOOP),
    ]
}

// The end of a put: back to the caller.
fn done_items() -> [Item; 5]
    ensures { result ≡ item.Label done_label ∷ done_code }
{
    [
        Item::Label(DONE),
        Item::LoadWord(RSI, KEPT_RSI),
        Item::LoadWord(RDI, KEPT_RDI),
        Item::LoadWord(R11, KEPT_R11),
        Item::Plain(Insn::JumpTo(Arg::Reg(R11))),
    ]
}

// The put of a fixnum, up to its digits.
fn fixnum_items() -> [Item; 11]
    ensures { result ++ (item.Label digit_label ∷ digit_code) ≡ item.Label (label_of Routine.PutFixnum) ∷ fixnum_code }
{
    [
        Item::Label(Routine::PutFixnum.label()),
        Item::StoreWord(KEPT_RSI, RSI),
        Item::StoreWord(KEPT_RDI, RDI),
        Item::Plain(Insn::Sar(Arg::Reg(RAX), FIXNUM_SHIFT)),
        Item::Plain(Insn::MovTo(Arg::Reg(RDI), RAX)),
        Item::Plain(Insn::CmpNumber8(Arg::Reg(RAX), 0)),
        Item::JumpIf(GE, POSITIVE),
        Item::Plain(Insn::Neg(Arg::Reg(RAX))),
        Item::Label(POSITIVE),
        Item::Plain(Insn::MovNumber(Arg::Reg(RSI), DIGITS_END)),
        Item::Plain(Insn::MovNumber(Arg::Reg(RCX), 10)),
    ]
}

// Its digits and its sign, which are then put.
fn digit_items() -> [Item; 17]
    ensures { result ≡ item.Label digit_label ∷ digit_code }
{
    [
        Item::Label(DIGIT),
        Item::Plain(Insn::MovNumber(Arg::Reg(RDX), 0)),
        Item::Plain(Insn::Idiv(Arg::Reg(RCX))),
        Item::Plain(Insn::AddNumber8(Arg::Reg(RDX), 48)),
        Item::Plain(Insn::SubNumber8(Arg::Reg(RSI), 1)),
        Item::Plain(Insn::StoreByte(Arg::Base(RSI), RDX)),
        Item::Plain(Insn::CmpNumber8(Arg::Reg(RAX), 0)),
        Item::JumpIf(NE, DIGIT),
        Item::Plain(Insn::CmpNumber8(Arg::Reg(RDI), 0)),
        Item::JumpIf(GE, READY),
        Item::Plain(Insn::SubNumber8(Arg::Reg(RSI), 1)),
        Item::Plain(Insn::MovNumber(Arg::Reg(RDX), 45)),
        Item::Plain(Insn::StoreByte(Arg::Base(RSI), RDX)),
        Item::Label(READY),
        Item::Plain(Insn::MovNumber(Arg::Reg(RDX), DIGITS_END)),
        Item::Plain(Insn::SubTo(Arg::Reg(RDX), RSI)),
        Item::Jump(WRITE),
    ]
}

// A fill by stores of elements of a size. Each turn writes one element at the address, until none is left.
fn fill_items(routine: Routine, store: Insn, size: u8, turn: u32, test: u32) -> [Item; 10]
    requires { size < 128 }
    ensures { result ≡ item.Label (label_of routine) ∷ fill_code store size turn test }
{
    let address = Arg::Reg(RAX);
    let left = Arg::Reg(RDX);
    [
        Item::Label(routine.label()),
        Item::Jump(test),
        Item::Label(turn),
        Item::Plain(store),
        Item::Plain(Insn::AddNumber8(address, size as i8)),
        Item::Plain(Insn::SubNumber8(left, 1)),
        Item::Label(test),
        Item::Plain(Insn::CmpNumber8(left, 0)),
        Item::JumpIf(NE, turn),
        Item::Plain(Insn::JumpTo(Arg::Reg(R11))),
    ]
}
