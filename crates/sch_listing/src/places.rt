//! Places in a text.

ghost use Rattle.std.specs.Prelude.{◌≡◌, ◌++◌, ◌<◌, All, OnOk};
ghost use Rattle.sch_listing.specs.Lines.{IsListedPlace, place_text, places_text, register_name};

use crate::numbers::write_number;
use sch_word::{Bytes, Mem, Place};

/// Writes places, each behind a space.
pub(crate) fn write_places(out: &mut Bytes, places: &[Place]) -> Result<(), Mem>
    requires { All IsListedPlace places.now }
    ensures { OnOk result (out.new ≡ out.old ++ places_text places.now) }
{
    for place in places {
        out.extend_from_slice(b" ")?;
        write_place(out, *place)?;
    }
    Ok(())
}

// A register by its name, a slot as `slot5`.
fn write_place(out: &mut Bytes, place: Place) -> Result<(), Mem>
    requires { IsListedPlace place }
    ensures { OnOk result (out.new ≡ out.old ++ place_text place) }
{
    match place {
        Place::Reg(register) => out.extend_from_slice(register_name(register).as_bytes()),
        Place::Slot(slot) => {
            out.extend_from_slice(b"slot")?;
            write_number(out, u64::from(slot))
        }
    }
}

// The name of a register (SDM, volume 2, 2.2.1.2 and 3.1.1.1).
fn register_name(register: u8) -> &'static str
    requires { register < 16 }
    ensures { result.now ≡ register_name register }
{
    match register {
        0 => "rax",
        1 => "rcx",
        2 => "rdx",
        3 => "rbx",
        4 => "rsp",
        5 => "rbp",
        6 => "rsi",
        7 => "rdi",
        8 => "r8",
        9 => "r9",
        10 => "r10",
        11 => "r11",
        12 => "r12",
        13 => "r13",
        14 => "r14",
        15 => "r15",
        _ => unreachable!(),
    }
}
