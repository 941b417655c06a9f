//! Data to text.

ghost use Rattle.std.specs.Prelude.{◌≡◌, ◌+◌, ◌*◌, ◌<◌, ◌++◌, ◌≤◌, true, IfOk, OnOk, codes, if◌then◌else◌};
ghost use Rattle.std.specs.Fmt.{signed_decimal};
ghost use Rattle.sch_print.specs.Printed.{atom_text, datum_text, items_text, more_text, escaped_text, character_name, IsTextOf};
ghost use Rattle.sch_read.specs.Levels.{depth};
ghost use Rattle.sch_print.specs.FixnumData.{HasFixnums, HaveFixnums, IsFixnumAtom};
ghost use Rattle.sch_print.specs.Tasks.{task_text, tasks_text, TaskHasFixnums, TasksHaveFixnums, task_load, tasks_load, Came};
ghost use Rattle.sch_read.specs.Text.{max_nesting};
ghost use Rattle.sch_word.specs.values.Fixnum.{is_fixnum};
ghost use Rattle.sch_read.specs.Valid.{IsValid, weight, weights};
ghost use Rattle.sch_read.specs.Views.{atom_of, tree_of, data_of};

use itoa::Buffer;
use sch_read::{Atom, Datum, Node};
use sch_word::{Bytes, Fix, List, Mem};
use std::alloc::Global;

/// The text of a datum, as `write` gives it.
pub fn print(alloc: Global, d: &Datum) -> Result<Bytes, Mem>
    ensures text { IfOk result (λ t. t ≡ datum_text (tree_of d.now)) }
    ensures again { IsValid (tree_of d.now) → depth (tree_of d.now) ≤ max_nesting → IfOk result (IsTextOf (tree_of d.now)) }
{
    let mut out = List::new(alloc);
    write_datum(alloc, &mut out, d)?;
    Ok(out)
}

#[tactic(auto, using(sch_word::proofs::values::Fixnums::is_fixnum_holds))]
fn write_integer(out: &mut Bytes, number: Fix) -> Result<(), Mem>
    ensures text { OnOk result (out.new ≡ out.old ++ signed_decimal number) }
    ensures fixnum { OnOk result (is_fixnum number ≡ true) }
{
    let mut buffer = Buffer::new();
    out.extend_from_slice(buffer.format(number.get()).as_bytes())?;
    Ok(())
}

fn write_boolean(out: &mut Bytes, truth: bool) -> Result<(), Mem>
    ensures { OnOk result (out.new ≡ out.old ++ (if truth then codes "#t" else codes "#f")) }
{
    if truth {
        out.extend_from_slice(b"#t")
    } else {
        out.extend_from_slice(b"#f")
    }
}

fn write_character(out: &mut Bytes, byte: u8) -> Result<(), Mem>
    ensures { OnOk result (out.new ≡ out.old ++ (codes "#\\" ++ character_name byte)) }
{
    out.extend_from_slice(b"#\\")?;
    if byte == b' ' {
        out.extend_from_slice(b"space")?;
    } else if byte == b'\n' {
        out.extend_from_slice(b"newline")?;
    } else {
        out.push(byte)?;
    }
    Ok(())
}

fn write_escaped(out: &mut Bytes, text: &[u8]) -> Result<(), Mem>
    ensures { OnOk result (out.new ≡ out.old ++ escaped_text text.now) }
{
    for b in text {
        if *b == b'"' || *b == b'\\' {
            out.push(b'\\')?;
        }
        out.push(*b)?;
    }
    Ok(())
}

fn write_text(out: &mut Bytes, text: &[u8]) -> Result<(), Mem>
    ensures { OnOk result (out.new ≡ out.old ++ (codes "\"" ++ escaped_text text.now ++ codes "\"")) }
{
    out.push(b'"')?;
    write_escaped(out, text)?;
    out.push(b'"')?;
    Ok(())
}

fn write_atom(out: &mut Bytes, value: &Atom) -> Result<(), Mem>
    ensures text { OnOk result (out.new ≡ out.old ++ atom_text (atom_of value.now)) }
    ensures fixnum { OnOk result (IsFixnumAtom (atom_of value.now)) }
{
    match value {
        Atom::Boolean(truth) => write_boolean(out, *truth),
        Atom::Integer(number) => write_integer(out, *number),
        Atom::Character(byte) => write_character(out, *byte),
        Atom::Text(text) => write_text(out, text.as_slice()),
        Atom::Symbol(name) => out.extend_from_slice(name.as_slice()),
    }
}

/// What is still to be written of a datum that was begun.
#[derive(Clone, Copy)]
pub(crate) enum Task<'a> {
    /// A datum.
    One(&'a Datum),
    /// Items, each after a space.
    More(&'a [Datum]),
    /// The datum after a dot.
    Dotted(&'a Datum),
    /// The end of a list or a vector.
    Close,
}

fn write_datum(alloc: Global, out: &mut Bytes, d: &Datum) -> Result<(), Mem>
    ensures text { OnOk result (out.new ≡ out.old ++ datum_text (tree_of d.now)) }
    ensures fixnums { OnOk result (HasFixnums (tree_of d.now)) }
{
    let mut tasks = Vec::new(alloc);
    tasks.push(Task::One(d))?;
    'each: while let Some(task) = tasks.pop() {
        write_task(out, &mut tasks, task)?;
    }
    Ok(())
}

fn write_task<'a>(out: &mut Bytes, tasks: &mut Vec<Task<'a>>, task: Task<'a>) -> Result<(), Mem>
    ensures text { OnOk result (out.new ++ tasks_text tasks.new.items ≡ out.old ++ (task_text task.entry ++ tasks_text tasks.old.items)) }
    ensures fixnums { OnOk result (TasksHaveFixnums tasks.new.items → TaskHasFixnums task.entry × TasksHaveFixnums tasks.old.items) }
    ensures less { OnOk result (tasks_load tasks.new.items < task_load task.entry + tasks_load tasks.old.items) }
{
    match task {
        Task::One(d) => write_one(out, tasks, d),
        Task::More(items) => write_more(out, tasks, items),
        Task::Dotted(d) => {
            out.extend_from_slice(b" . ")?;
            tasks.push(Task::One(d))?;
            Ok(())
        }
        Task::Close => out.push(b')'),
    }
}

fn write_one<'a>(out: &mut Bytes, tasks: &mut Vec<Task<'a>>, d: &'a Datum) -> Result<(), Mem>
    ensures text { OnOk result (out.new ++ tasks_text tasks.new.items
        ≡ out.old ++ (datum_text (tree_of d.now) ++ tasks_text tasks.old.items)) }
    ensures fixnums { OnOk result (TasksHaveFixnums tasks.new.items → HasFixnums (tree_of d.now) × TasksHaveFixnums tasks.old.items) }
    ensures less { OnOk result (tasks_load tasks.new.items + 2 ≤ 6 * weight (tree_of d.now) + tasks_load tasks.old.items) }
{
    match &d.node {
        Node::Atom(value) => write_atom(out, value),
        Node::List(items, None) => {
            out.push(b'(')?;
            tasks.push(Task::Close)?;
            push_items(tasks, items.as_slice())?;
            Ok(())
        }
        Node::List(items, Some(last)) => {
            out.push(b'(')?;
            tasks.push(Task::Close)?;
            tasks.push(Task::Dotted(last))?;
            push_items(tasks, items.as_slice())?;
            Ok(())
        }
        Node::Vector(items) => {
            out.extend_from_slice(b"#(")?;
            tasks.push(Task::Close)?;
            push_items(tasks, items.as_slice())?;
            Ok(())
        }
    }
}

fn write_more<'a>(out: &mut Bytes, tasks: &mut Vec<Task<'a>>, items: &'a [Datum]) -> Result<(), Mem>
    ensures text { OnOk result (out.new ++ tasks_text tasks.new.items
        ≡ out.old ++ (more_text (data_of items.now) ++ tasks_text tasks.old.items)) }
    ensures fixnums { OnOk result (TasksHaveFixnums tasks.new.items → HaveFixnums (data_of items.now) × TasksHaveFixnums tasks.old.items) }
    ensures load { OnOk result (tasks_load tasks.new.items ≤ 6 * weights (data_of items.now) + tasks_load tasks.old.items) }
{
    if !items.is_empty() {
        out.push(b' ')?;
        push_items(tasks, items)?;
    }
    Ok(())
}

// The first item is the next task.
fn push_items<'a>(tasks: &mut Vec<Task<'a>>, items: &'a [Datum]) -> Result<(), Mem>
    ensures { OnOk result (Came (items_text (data_of items.now))
        (HaveFixnums (data_of items.now)) (6 * weights (data_of items.now)) tasks.old.items tasks.new.items) }
{
    if let Some((first, rest)) = items.split_first() {
        tasks.push(Task::More(rest))?;
        tasks.push(Task::One(first))?;
    }
    Ok(())
}
