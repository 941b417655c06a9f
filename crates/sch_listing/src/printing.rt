//! The text of a listing, line by line.

ghost use Rattle.std.specs.Prelude.{◌≡◌, ◌++◌, ◌<◌, ◌^◌, All, IfOk, OnOk};
ghost use Rattle.sch_listing.specs.Lines.{body_line, bodies_text, cycle_line, cycles_text, head_text, IsListedCycle, IsListedMark, marks_text, order_line, orders_text};
ghost use Rattle.sch_listing.specs.ListingText.{IsPrintable, listing_text};

use crate::listing::{Cycle, Listing};
use crate::marks::write_mark;
use crate::numbers::{write_number, write_number_line, write_numbers};
use crate::places::write_places;
use sch_asm::Mark;
use sch_word::{Bytes, List, Mem};
use std::alloc::Global;

/// The text of a listing: a line that says what it is, the words of the largest frame, the instructions, a line for each
/// body, site, cycle and mark, and a last line `end`. It takes time in proportion to the text.
pub fn print_listing(alloc: Global, listing: &Listing) -> Result<Bytes, Mem>
    requires { IsPrintable listing.now }
    ensures { IfOk result (λ text. text ≡ listing_text listing.now) }
{
    let mut out = Bytes::new(alloc);
    write_head(&mut out, listing.frame_words, listing.instructions)?;
    write_bodies(&mut out, listing.bodies.as_slice())?;
    write_orders(&mut out, listing.orders.as_slice())?;
    write_cycles(&mut out, listing.cycles.as_slice())?;
    write_marks(&mut out, listing.marks.as_slice())?;
    out.extend_from_slice(b"end\n")?;
    Ok(out)
}

fn write_head(out: &mut Bytes, frame_words: u32, instructions: u64) -> Result<(), Mem>
    ensures { OnOk result (out.new ≡ out.old ++ head_text frame_words instructions) }
{
    out.extend_from_slice(b"schc listing 1\n")?;
    write_number_line(out, b"frame", frame_words as u64)?;
    write_number_line(out, b"instructions", instructions)?;
    Ok(())
}

fn write_bodies(out: &mut Bytes, names: &[Bytes]) -> Result<(), Mem>
    ensures { OnOk result (out.new ≡ out.old ++ bodies_text 0 names.now) }
{
    for (number, name) in names.iter().enumerate() {
        write_body(out, number as u64, name.as_slice())?;
    }
    Ok(())
}

// `body 3 fib`
fn write_body(out: &mut Bytes, number: u64, name: &[u8]) -> Result<(), Mem>
    ensures { OnOk result (out.new ≡ out.old ++ body_line number name.now) }
{
    out.extend_from_slice(b"body ")?;
    write_number(out, number)?;
    out.extend_from_slice(b" ")?;
    out.extend_from_slice(name)?;
    out.extend_from_slice(b"\n")
}

fn write_orders(out: &mut Bytes, orders: &[List<u32>]) -> Result<(), Mem>
    ensures { OnOk result (out.new ≡ out.old ++ orders_text 0 orders.now) }
{
    for (site, order) in orders.iter().enumerate() {
        write_order(out, site as u64, order.as_slice())?;
    }
    Ok(())
}

// `order 7: 0 2 1`
fn write_order(out: &mut Bytes, site: u64, order: &[u32]) -> Result<(), Mem>
    ensures { OnOk result (out.new ≡ out.old ++ order_line site order.now) }
{
    out.extend_from_slice(b"order ")?;
    write_number(out, site)?;
    out.extend_from_slice(b":")?;
    write_numbers(out, order)?;
    out.extend_from_slice(b"\n")
}

fn write_cycles(out: &mut Bytes, cycles: &[Cycle]) -> Result<(), Mem>
    requires { All IsListedCycle cycles.now }
    ensures { OnOk result (out.new ≡ out.old ++ cycles_text cycles.now) }
{
    for cycle in cycles {
        write_cycle(out, cycle)?;
    }
    Ok(())
}

// `cycle 7: rbx r8`
fn write_cycle(out: &mut Bytes, cycle: &Cycle) -> Result<(), Mem>
    requires { IsListedCycle cycle.now }
    ensures { OnOk result (out.new ≡ out.old ++ cycle_line cycle.now) }
{
    out.extend_from_slice(b"cycle ")?;
    write_number(out, u64::from(cycle.site))?;
    out.extend_from_slice(b":")?;
    write_places(out, cycle.places.as_slice())?;
    out.extend_from_slice(b"\n")
}

fn write_marks(out: &mut Bytes, marks: &[Mark]) -> Result<(), Mem>
    requires { All IsListedMark marks.now }
    ensures { OnOk result (out.new ≡ out.old ++ marks_text marks.now) }
{
    for mark in marks {
        write_mark(out, *mark)?;
    }
    Ok(())
}
