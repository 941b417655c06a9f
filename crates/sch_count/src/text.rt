//! The text of counts, line by line.

ghost use Rattle.std.specs.Prelude.{◌≡◌, ◌++◌, codes, length, IfOk, OnOk};
ghost use Rattle.std.specs.Fmt.{decimal};
ghost use Rattle.sch_count.specs.CountsText.{body_text, counts_text, row_line, rows_text};

use crate::counts::Counts;
use crate::row::Row;
use itoa::Buffer;
use sch_word::{Bytes, Mem};
use std::alloc::Global;

/// The text of counts, where the bodies have these names: a line for each body with an activation, of its name and its
/// numbers, and a last line of the status. It takes time in proportion to the bodies and the text.
pub fn print_counts(alloc: Global, names: &[Bytes], counts: &Counts) -> Result<Bytes, Mem>
    ensures { IfOk result (λ text. text ≡ counts_text names.now counts.now.rows counts.now.status) }
{
    let mut out = Bytes::new(alloc);
    write_rows(&mut out, names, counts.rows.as_slice())?;
    out.extend_from_slice(b"status")?;
    write_number(&mut out, u128::from(counts.status))?;
    out.extend_from_slice(b"\n")?;
    Ok(out)
}

fn write_rows(out: &mut Bytes, names: &[Bytes], rows: &[Row]) -> Result<(), Mem>
    ensures { OnOk result (out.new ≡ out.old ++ rows_text names.now rows.now) }
{
    let bodies = names.len().min(rows.len());
    for body in 0..bodies {
        write_body(out, names[body].as_slice(), rows[body])?;
    }
    Ok(())
}

// The line of a body, where it has an activation.
fn write_body(out: &mut Bytes, name: &[u8], row: Row) -> Result<(), Mem>
    ensures { OnOk result (out.new ≡ out.old ++ body_text name.now row) }
{
    if row.activations == 0 {
        return Ok(());
    }
    write_row(out, name, row)
}

// `fact 6 1 10 0`
fn write_row(out: &mut Bytes, name: &[u8], row: Row) -> Result<(), Mem>
    ensures { OnOk result (out.new ≡ out.old ++ row_line name.now row) }
{
    out.extend_from_slice(name)?;
    write_number(out, row.activations)?;
    write_number(out, row.leaves)?;
    write_number(out, row.saves)?;
    write_number(out, row.leaf_saves)?;
    out.extend_from_slice(b"\n")
}

// A number in decimal, behind a space.
fn write_number(out: &mut Bytes, number: u128) -> Result<(), Mem>
    ensures { OnOk result (out.new ≡ out.old ++ (codes " " ++ decimal number)) }
{
    let mut buffer = Buffer::new();
    out.extend_from_slice(b" ")?;
    out.extend_from_slice(buffer.format(number).as_bytes())
}
