//! Bodies of a text, and their trees as texts: each region with what it saves, and each call with what is said of it.

ghost use Rattle.std.specs.Prelude.{◌<◌, ◌^◌};
ghost use Rattle.sch_control.specs.flow.Middle.{listed};
ghost use Rattle.sch_paths.specs.EachLiveSaved.{EachLiveSaved};

use crate::texts::control_of;
use sch_control::{Body, Exp, LiveBody, PlacedBody, Restoring, SavedBody};
use sch_core::CoreError;
use sch_live::live;
use sch_regs::assign_places;
use sch_restores::place_restores;
use sch_saves::place_saves;
use sch_sets::Set;
use sch_word::{Bytes, List, Mem, Place};
use std::alloc::Global;
use std::str;
use std::test::Fail;

fn digit(x: u32) -> u8 {
    b'0' + (x % 10) as u8
}

// A number below 1,000 behind a space.
pub(crate) fn write_number(x: u32, out: &mut Bytes) -> Result<(), Mem> {
    out.push(b' ')?;
    if x >= 100 {
        out.push(digit(x / 100))?;
    }
    if x >= 10 {
        out.push(digit(x / 10))?;
    }
    out.push(digit(x))
}

pub(crate) fn write_numbers(xs: &[u32], out: &mut Bytes) -> Result<(), Mem> {
    for x in xs {
        write_number(*x, out)?;
    }
    Ok(())
}

// The variables that are said of a call.
trait Said {
    fn write(&self, out: &mut Bytes) -> Result<(), Mem>;
}

impl<const N: usize> Said for Set<N> {
    fn write(&self, out: &mut Bytes) -> Result<(), Mem> {
        for x in 0..1_024u32 {
            if x as usize / 64 < N && self.contains(x) {
                write_number(x, out)?;
            }
        }
        Ok(())
    }
}

impl<const N: usize> Said for Restoring<N> {
    fn write(&self, out: &mut Bytes) -> Result<(), Mem> {
        write_numbers(self.restores.as_slice(), out)
    }
}

// `(save 0 ..)` round what stands in a region that saves variable 0, `(after 0)` for a call of which that is said, and
// nothing else.
fn write_tree<C: Said + Drop>(e: &Exp<C>, out: &mut Bytes) -> Result<(), Mem> {
    match e {
        Exp::Do(_) => Ok(()),
        Exp::Bind(_, first, rest) => {
            write_tree(first, out)?;
            write_tree(rest, out)
        }
        Exp::Seq(first, rest) => {
            write_tree(first, out)?;
            write_tree(rest, out)
        }
        Exp::If(test, yes, no) => {
            write_tree(test, out)?;
            write_tree(yes, out)?;
            write_tree(no, out)
        }
        Exp::Fix(_, rest) => write_tree(rest, out),
        Exp::Call(_, said) => {
            out.extend_from_slice(b"(after")?;
            said.write(out)?;
            out.push(b')')
        }
        Exp::TailCall(_) => Ok(()),
        Exp::Return(value) => write_tree(value, out),
        Exp::End(value) => write_tree(value, out),
        Exp::Save(saved, rest) => {
            out.extend_from_slice(b"(save")?;
            write_numbers(saved.as_slice(), out)?;
            write_tree(rest, out)?;
            out.push(b')')
        }
    }
}

// The places in the order of the variables' numbers: a register by its number, a slot by its number behind an `s`.
fn write_places(places: &[Place], out: &mut Bytes) -> Result<(), Mem> {
    for place in places {
        match place {
            Place::Reg(r) => write_number(*r as u32, out)?,
            Place::Slot(j) => {
                out.extend_from_slice(b" s")?;
                write_number(*j, out)?;
            }
        }
    }
    Ok(())
}

// A line of a tree behind its name.
fn write_line<C: Said + Drop>(name: &[u8], e: &Exp<C>, out: &mut Bytes) -> Result<(), Mem> {
    out.extend_from_slice(name)?;
    write_tree(e, out)?;
    out.push(b'\n')
}

// Two lines: what the calls of a body restore, and the places of its variables.
fn write_placed<const N: usize>(placed: &PlacedBody<'_, N>, out: &mut Bytes) -> Result<(), Mem> {
    write_line(b"restores", &placed.restored.exp, out)?;
    out.extend_from_slice(b"places")?;
    write_places(placed.places.as_slice(), out)?;
    out.push(b'\n')
}

// The same two lines, of a body that saves.
fn write_restored<const N: usize>(
    alloc: Global,
    saved: &SavedBody<'_, N>,
    out: &mut Bytes,
) -> Result<(), Mem>
    requires words { N < 2 ^ 32 }
    requires saved { EachLiveSaved (listed saved.now.exp) }
{
    let restored = place_restores(alloc, saved)?;
    let placed = assign_places(alloc, &restored)?;
    write_placed(&placed, out)
}

// Four lines: what is live after the calls of a body, where it saves, what its calls restore, and the places of its variables.
fn write_live<const N: usize>(
    alloc: Global,
    live: &LiveBody<'_, N>,
    out: &mut Bytes,
) -> Result<(), Mem>
    requires words { N < 2 ^ 32 }
{
    write_line(b"live", &live.exp, out)?;
    let saved = place_saves(alloc, live)?;
    write_line(b"saves", &saved.exp, out)?;
    write_restored(alloc, &saved, out)
}

// A body with what is live after its calls, in sets that have room for its variables.
fn live_body<const N: usize>(alloc: Global, b: &Body) -> Result<LiveBody<'_, N>, Mem> {
    if b.variables as usize / 64 >= N {
        return Err(Mem);
    }
    live::<N>(alloc, b)
}

// The four lines of `write_live`, in sets of so many words.
fn write_by(alloc: Global, words: u32, b: &Body, out: &mut Bytes) -> Result<(), Mem> {
    match words {
        1 => write_live(alloc, &live_body::<1>(alloc, b)?, out),
        4 => write_live(alloc, &live_body::<4>(alloc, b)?, out),
        _ => write_live(alloc, &live_body::<16>(alloc, b)?, out),
    }
}

// These lines of the last of some bodies.
fn shown_last(alloc: Global, words: u32, bodies: &[Body]) -> Result<Bytes, Mem> {
    let [.., body] = bodies else {
        return Err(Mem);
    };
    let mut out = List::new(alloc);
    write_by(alloc, words, body, &mut out)?;
    Ok(out)
}

// These lines of a text's last body.
fn shown_by(alloc: Global, words: u32, text: &[u8]) -> Result<Bytes, CoreError> {
    let p = control_of(alloc, text)?;
    Ok(shown_last(alloc, words, p.bodies.as_slice())?)
}

/// These lines are among those of a text's last body, in sets of so many words.
pub(crate) fn check_shown(alloc: Global, words: u32, text: &str, lines: &str) -> Result<(), Fail> {
    let out = shown_by(alloc, words, text.as_bytes())?;
    let found = str::from_utf8(out.as_slice()).ok().ok_or("no text")?;
    if found.contains(lines) {
        return Ok(());
    }
    Err(Fail::new(format_args!("{text}, by {words}: {found}")))
}

/// Texts, each with some of the lines of its last body, in sets of each size.
pub(crate) fn check_each(alloc: Global, rows: &[(&str, &str)]) -> Result<(), Fail> {
    for (text, lines) in rows {
        for words in [1, 4, 16] {
            check_shown(alloc, words, text, lines)?;
        }
    }
    Ok(())
}
