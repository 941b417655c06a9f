//! Marks in a text.

ghost use Rattle.std.specs.Prelude.{◌≡◌, ◌++◌, ◌<◌, ◌^◌, OnOk};
ghost use Rattle.std.specs.Fmt.{decimal};
ghost use Rattle.sch_listing.specs.Lines.{kind_text, mark_line};

use crate::numbers::{write_address, write_number};
use sch_asm::Mark;
use sch_word::{Bytes, MarkKind, Mem};

/// Writes the line of a mark: `mark 0040013a call 5`.
pub(crate) fn write_mark(out: &mut Bytes, mark: Mark) -> Result<(), Mem>
    requires { mark.address < 2 ^ 32 }
    ensures { OnOk result (out.new ≡ out.old ++ mark_line mark) }
{
    out.extend_from_slice(b"mark ")?;
    write_address(out, mark.address as u32)?;
    out.extend_from_slice(b" ")?;
    write_kind(out, mark.kind)?;
    out.extend_from_slice(b"\n")
}

fn write_kind(out: &mut Bytes, kind: MarkKind) -> Result<(), Mem>
    ensures { OnOk result (out.new ≡ out.old ++ kind_text kind) }
{
    match kind {
        MarkKind::Enter(body) => write_named(out, b"enter ", body),
        MarkKind::Save(variable) => write_named(out, b"save ", variable),
        MarkKind::Restore(variable) => write_named(out, b"restore ", variable),
        MarkKind::Spill(variable) => write_named(out, b"spill ", variable),
        MarkKind::Temp => out.extend_from_slice(b"temp"),
        MarkKind::Argument => out.extend_from_slice(b"argument"),
        MarkKind::Call(site) => write_named(out, b"call ", site),
        MarkKind::Return => out.extend_from_slice(b"return"),
        MarkKind::Tail(site) => write_named(out, b"tail ", site),
    }
}

fn write_named(out: &mut Bytes, word: &[u8], number: u32) -> Result<(), Mem>
    ensures { OnOk result (out.new ≡ out.old ++ (word.now ++ decimal number)) }
{
    out.extend_from_slice(word)?;
    write_number(out, u64::from(number))
}
