//! From items to a text: `resolve`.

ghost use Rattle.std.specs.Prelude.{◌≡◌, ◌+◌, ◌*◌, ◌^◌, ◌<◌, ◌≤◌, ◌++◌, cond, false, true, length, IfOk, IfErr, OnOk, slice_index};
ghost use Rattle.std.specs.List.{flat_map};
ghost use Rattle.sch_word.specs.runs.ProgramLayout.{max_text_size};
ghost use Rattle.sch_insn.specs.declared.insn.Arg.TheVariants.{Rip};
ghost use Rattle.sch_insn.specs.Spelling.{AllValid, IsCondition, IsValid, spelling};
ghost use Rattle.sch_jumps.specs.Least.{IsExact, IsLeast};
ghost use Rattle.sch_jumps.specs.Sizes.{is_near};
ghost use Rattle.sch_jumps.specs.Spans.{set_of};
ghost use Rattle.sch_asm.specs.Items.{AreItems, AreOwn, AreRoutines, IsItem};
ghost use Rattle.sch_asm.specs.Codes.{AreResolved, IsTooLarge, bytes_of, instructions_in, value_of as word_value};
ghost use Rattle.sch_asm.specs.Forms.{jump_forms};
ghost use Rattle.sch_asm.specs.Layout.{IsLaidOut, ReachFrom, Reaches, UseBelow, UsesBelow, WordBelow, WordsBelow, branch_of, displacement, emitted_from, insns_at, jump_of, jumps_in, jumps_of, marked_from, marks_of, size_from, size_of};
ghost use Rattle.sch_asm.specs.Pieces.{shortest_size, skeleton};

use crate::assembly::{Asm, Word};
use crate::error::AsmError;
use crate::item::{Item, Mark};
use crate::item_list::ItemList;
use crate::layout::{Layout, pieces_of};
use sch_code::Text;
use sch_insn::{Arg, Insn};
use sch_jumps::choose;
use sch_word::{Bytes, List, MAX_TEXT_SIZE, Mem, TEXT_ADDRESS};
use std::alloc::Global;

/// A text and its data with addresses: instructions, marks, the bytes of words and zeros behind them.
#[derive(Drop)]
pub struct Resolved {
    pub code: Text,
    pub marks: List<Mark>,
    pub words: Bytes,
    pub zeros: u64,
}

/// Gives a text its addresses: the items of `a` from `TEXT_ADDRESS` on and behind them those of
/// `routines`, with the data of `a` at `DATA_ADDRESS`. The text is the shortest one: of its direct jumps the least set is
/// long for which each short one reaches its label, and a jump is short exactly where its displacement fits a byte.
/// There is one instruction for each item that is no label and no mark, whatever form it has.
///
/// `TextTooLarge` comes exactly where the text has more than `MAX_TEXT_SIZE` bytes and there is memory for the tables
/// of its labels and jumps. Time and memory are linear in the items, the words and the greatest label that stands.
pub fn resolve(alloc: Global, a: &Asm, routines: &Asm) -> Result<Resolved, AsmError>
    requires own { AreOwn a.now.items }
    requires routines { AreRoutines routines.now.items routines.now.words routines.now.zeros }
    ensures stands { IfOk result (λ r. AreResolved (a.now.items ++ routines.now.items) a.now.words r.code r.marks r.words) }
    ensures valid { IfOk result (λ r. AllValid r.code) }
    ensures shortest { IfOk result (λ r. IsLeast (skeleton (a.now.items ++ routines.now.items)) (set_of (jump_forms r.code))) }
    ensures exact { IfOk result (λ r. IsExact (skeleton (a.now.items ++ routines.now.items)) (set_of (jump_forms r.code))) }
    ensures as_many { IfOk result (λ r. length r.code ≡ instructions_in (a.now.items ++ routines.now.items)) }
    ensures words { IfOk result (λ r. length r.words ≡ 8 * length a.now.words) }
    ensures zeros { IfOk result (λ r. r.zeros ≡ a.now.zeros) }
    ensures size { IfOk result (λ r. length (flat_map spelling r.code) ≡ shortest_size (a.now.items ++ routines.now.items)) }
    ensures fits { IfOk result (λ r. length (flat_map spelling r.code) ≤ max_text_size) }
    ensures too_large { IfErr result (IsTooLarge (shortest_size (a.now.items ++ routines.now.items))) }
{
    let layout = lay_out(alloc, a, routines)?;
    let start = Spot {
        at: TEXT_ADDRESS as u32,
        jumps: 0,
    };
    let mut code = Text::with_capacity(alloc, layout.bytes as usize)?;
    let mut marks = List::new(alloc);
    let behind = emit_all(&a.items, start, &layout, &mut code, &mut marks)?;
    emit_all(&routines.items, behind, &layout, &mut code, &mut marks)?;
    let words = word_bytes(alloc, a.words.as_slice(), &layout)?;
    Ok(Resolved {
        code,
        marks,
        words,
        zeros: a.zeros,
    })
}

// Where the labels of items stand, and which of their jumps are long, if their text is not too large.
fn lay_out(alloc: Global, a: &Asm, routines: &Asm) -> Result<Layout, AsmError>
    requires own { AreOwn a.now.items }
    requires routines { AreRoutines routines.now.items routines.now.words routines.now.zeros }
    ensures places { IfOk result (λ layout. IsLaidOut (a.now.items ++ routines.now.items) a.now.words layout.places.items layout.longs.items) }
    ensures bytes { IfOk result (λ layout. layout.bytes ≡ shortest_size (a.now.items ++ routines.now.items)) }
    ensures fits { IfOk result (λ layout. layout.bytes ≤ max_text_size) }
    // There is a piece for each item, and a piece takes at least 8 bytes of memory.
    ensures few { IfOk result (λ _. length a.now.items + length routines.now.items < 2 ^ 62) }
    ensures too_large { IfErr result (IsTooLarge (shortest_size (a.now.items ++ routines.now.items))) }
{
    let pieces = pieces_of(alloc, &a.items, &routines.items)?;
    let forms = choose(alloc, &pieces, TEXT_ADDRESS as u32)?;
    let bytes = forms.end - TEXT_ADDRESS;
    if bytes > MAX_TEXT_SIZE {
        return Err(AsmError::TextTooLarge(bytes));
    }
    Ok(Layout {
        places: forms.places,
        longs: forms.longs,
        bytes,
    })
}

// From the address behind an instruction to another address.
fn displacement_to(next: u32, to: u32) -> i32
    requires next { next < 2 ^ 31 }
    requires to { to < 2 ^ 31 }
    ensures { result ≡ displacement next to }
{
    to as i32 - next as i32
}

// A jump that stands at an address to another one.
fn jump_to(at: u32, long: bool, to: u32) -> Insn
    requires at { at < 2 ^ 30 }
    requires to { to < 2 ^ 30 }
    requires near { long ≡ false → is_near (at + 2) to ≡ true }
    ensures insn { result ≡ jump_of long (displacement (at + cond long 5 2) to) }
    ensures size { length (spelling result) ≡ cond long 5 2 }
    ensures valid { IsValid result }
{
    if long {
        Insn::Jump(displacement_to(at + 5, to))
    } else {
        Insn::Jump8(displacement_to(at + 2, to) as i8)
    }
}

// The same on a condition.
fn branch_to(condition: u8, at: u32, long: bool, to: u32) -> Insn
    requires condition { IsCondition condition }
    requires at { at < 2 ^ 30 }
    requires to { to < 2 ^ 30 }
    requires near { long ≡ false → is_near (at + 2) to ≡ true }
    ensures insn { result ≡ branch_of long condition (displacement (at + cond long 6 2) to) }
    ensures size { length (spelling result) ≡ cond long 6 2 }
    ensures valid { IsValid result }
{
    if long {
        Insn::JumpIf(condition, displacement_to(at + 6, to))
    } else {
        Insn::JumpIf8(condition, displacement_to(at + 2, to) as i8)
    }
}

// The address of a place by the end of an instruction of seven bytes that stands at another.
fn rip_to(at: u32, to: u32) -> Arg
    requires at { at < 2 ^ 30 }
    requires to { to < 2 ^ 31 }
    ensures { result ≡ Rip (displacement (at + 7) to) }
{
    Arg::Rip(displacement_to(at + 7, to))
}

// A place in a text: its address, and how many jumps stand before it.
#[derive(Clone, Copy)]
struct Spot {
    at: u32,
    jumps: usize,
}

impl Spot {
    // The place behind bytes that have some jumps in them.
    fn behind(self, size: usize, jumps: usize) -> Spot
        requires low { self.at + size < 2 ^ 32 }
        requires few { self.jumps + jumps < 2 ^ 64 }
        ensures end { result.at ≡ self.at + size }
        ensures jumps { result.jumps ≡ self.jumps + jumps }
    {
        Spot {
            at: self.at + size as u32,
            jumps: self.jumps + jumps,
        }
    }
}

// Puts out the instruction or the mark of an item at a place, and gives the place behind it.
fn emit_one(
    item: &Item,
    from: Spot,
    layout: &Layout,
    code: &mut Text,
    marks: &mut List<Mark>,
) -> Result<Spot, Mem>
    requires sound { IsItem item.now }
    requires uses { UsesBelow (length layout.now.places.items) item.now }
    requires few { from.jumps < 2 ^ 63 }
    requires short { from.at + size_of (set_of layout.now.longs.items from.jumps) item.now < 2 ^ 30 }
    requires reach { Reaches (slice_index layout.now.places.items) (set_of layout.now.longs.items from.jumps) from.at item.now }
    ensures code { OnOk result (code.new ≡ code.old ++ insns_at (slice_index layout.now.places.items) (set_of layout.now.longs.items from.jumps) from.at item.now) }
    ensures marks { OnOk result (marks.new ≡ marks.old ++ marks_of from.at item.now) }
    ensures end { IfOk result (λ end. end.at ≡ from.at + size_of (set_of layout.now.longs.items from.jumps) item.now) }
    ensures jumps { IfOk result (λ end. end.jumps ≡ from.jumps + jumps_of item.now) }
{
    match item {
        Item::Label(_) => Ok(from),
        Item::Mark(kind) => {
            marks.push(Mark {
                address: from.at as u64,
                kind: *kind,
            })?;
            Ok(from)
        }
        Item::Plain(insn) => {
            let size = code.push(insn)?;
            Ok(from.behind(size, 0))
        }
        Item::Jump(label) => {
            let long = layout.is_long(from.jumps);
            let size = code.push(&jump_to(from.at, long, layout.place(*label)))?;
            Ok(from.behind(size, 1))
        }
        Item::JumpIf(condition, label) => {
            let long = layout.is_long(from.jumps);
            let to = layout.place(*label);
            let size = code.push(&branch_to(*condition, from.at, long, to))?;
            Ok(from.behind(size, 1))
        }
        Item::LoadLabel(register, label) => {
            let to = layout.place(*label);
            let size = code.push(&Insn::Lea(*register, rip_to(from.at, to)))?;
            Ok(from.behind(size, 0))
        }
        Item::LoadWord(register, address) => {
            let to = *address as u32;
            let size = code.push(&Insn::MovFrom(*register, rip_to(from.at, to)))?;
            Ok(from.behind(size, 0))
        }
        Item::StoreWord(address, register) => {
            let to = *address as u32;
            let size = code.push(&Insn::MovTo(rip_to(from.at, to), *register))?;
            Ok(from.behind(size, 0))
        }
    }
}

// Puts out the instructions and marks of the items from a place on, and gives the place behind them.
fn emit(
    items: &[Item],
    from: Spot,
    layout: &Layout,
    code: &mut Text,
    marks: &mut List<Mark>,
) -> Result<Spot, Mem>
    requires sound { AreItems items.now }
    requires uses { UseBelow (length layout.now.places.items) items.now }
    requires few { from.jumps + length items.now < 2 ^ 63 }
    requires short { from.at + size_from (set_of layout.now.longs.items) from.jumps items.now < 2 ^ 30 }
    requires reach { ReachFrom (slice_index layout.now.places.items) (set_of layout.now.longs.items) from.jumps from.at items.now }
    ensures code { OnOk result (code.new ≡ code.old ++ emitted_from (slice_index layout.now.places.items) (set_of layout.now.longs.items) from.jumps from.at items.now) }
    ensures marks { OnOk result (marks.new ≡ marks.old ++ marked_from (set_of layout.now.longs.items) from.jumps from.at items.now) }
    ensures end { IfOk result (λ end. end.at ≡ from.at + size_from (set_of layout.now.longs.items) from.jumps items.now) }
    ensures jumps { IfOk result (λ end. end.jumps ≡ from.jumps + jumps_in items.now) }
{
    let mut spot = from;
    for item in items {
        spot = emit_one(item, spot, layout, code, marks)?;
    }
    Ok(spot)
}

// Puts out the instructions and marks of a list of items from a place on, one part after the other, and gives the place behind
// them.
fn emit_all(
    items: &ItemList,
    from: Spot,
    layout: &Layout,
    code: &mut Text,
    marks: &mut List<Mark>,
) -> Result<Spot, Mem>
    requires sound { AreItems items.now }
    requires uses { UseBelow (length layout.now.places.items) items.now }
    requires few { from.jumps + length items.now < 2 ^ 63 }
    requires short { from.at + size_from (set_of layout.now.longs.items) from.jumps items.now < 2 ^ 30 }
    requires reach { ReachFrom (slice_index layout.now.places.items) (set_of layout.now.longs.items) from.jumps from.at items.now }
    ensures code { OnOk result (code.new ≡ code.old
        ++ emitted_from (slice_index layout.now.places.items) (set_of layout.now.longs.items) from.jumps from.at items.now) }
    ensures marks { OnOk result (marks.new ≡ marks.old
        ++ marked_from (set_of layout.now.longs.items) from.jumps from.at items.now) }
    ensures end { IfOk result (λ end. end.at ≡ from.at + size_from (set_of layout.now.longs.items) from.jumps items.now) }
    ensures jumps { IfOk result (λ end. end.jumps ≡ from.jumps + jumps_in items.now) }
{
    let (earlier, last) = items.parts();
    let mut spot = from;
    for part in earlier {
        spot = emit(part.as_slice(), spot, layout, code, marks)?;
    }
    emit(last, spot, layout, code, marks)
}

// A word's value.
fn value_of(word: &Word, layout: &Layout) -> u64
    requires uses { WordBelow (length layout.now.places.items) word.now }
    ensures { result ≡ word_value (slice_index layout.now.places.items) word.now }
{
    match word {
        Word::Fixed(value) => *value,
        Word::Address(label) => layout.place(*label) as u64,
    }
}

// The bytes of words, the lowest byte of each first.
fn word_bytes(alloc: Global, words: &[Word], layout: &Layout) -> Result<Bytes, Mem>
    requires uses { WordsBelow (length layout.now.places.items) words.now }
    ensures { IfOk result (λ bytes. bytes ≡ flat_map (bytes_of (slice_index layout.now.places.items)) words.now) }
{
    let mut bytes = List::new(alloc);
    for word in words {
        bytes.extend_from_slice(&value_of(word, layout).to_le_bytes())?;
    }
    Ok(bytes)
}
