//! Where operands arrive.

ghost use Rattle.std.specs.Prelude.{◌≡◌};
ghost use Rattle.sch_control.specs.flow.Places.{argument_register, argument_slot, arrival};

use sch_word::{ARGUMENT_REGISTERS, Place};

/// The register of an operand, by the number of those before it.
pub fn argument_register(k: u32) -> Option<u8>
    ensures { result ≡ argument_register k }
{
    ARGUMENT_REGISTERS.get(k as usize).copied()
}

/// The slot of an operand that has no register.
pub fn argument_slot(k: u32) -> u32
    ensures { result ≡ argument_slot k }
{
    k.saturating_sub(ARGUMENT_REGISTERS.len() as u32)
}

/// Where an operand arrives, by the number of those before it.
pub fn arrival(k: u32) -> Place
    ensures { result ≡ arrival k }
{
    match argument_register(k) {
        Some(r) => Place::Reg(r),
        None => Place::Slot(argument_slot(k)),
    }
}
