//! Places of variables.

ghost use Rattle.std.specs.Prelude.{◌≡◌};
ghost use Rattle.sch_word.specs.values.Places.{same_place};

/// Where a variable lives in an activation: a register by its number, or a slot of the frame.
#[derive(Clone, Copy)]
pub enum Place {
    Reg(u8),
    Slot(u32),
}

/// Whether two places are the same.
pub fn same_place(a: Place, b: Place) -> bool
    ensures { result ≡ same_place a b }
{
    match (a, b) {
        (Place::Reg(a), Place::Reg(b)) => a == b,
        (Place::Slot(a), Place::Slot(b)) => a == b,
        _ => false,
    }
}
