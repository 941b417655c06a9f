//! The run-time routines, and their labels.

ghost use Rattle.std.specs.Prelude.{◌≡◌};
ghost use Rattle.sch_asm.specs.Routines.{label_of, registers_before};

use sch_word::{ARGUMENT_REGISTERS, Stop};

/// The labels of a program's own items are this one or more. Below it are those of the routines and those inside them.
pub const FIRST_LABEL: u32 = 1024;

/// The labels inside routines are this one or more.
pub const FIRST_INNER_LABEL: u32 = 64;

/// How many words of the data are the routines' own. With these the data begin.
pub const OWN_WORDS: usize = 64;

/// Which operands are left over for a list, by where the first of them was handed over: from one of the six argument
/// registers on, or in slots alone.
#[derive(Clone, Copy)]
pub enum LeftOver {
    FromFirst,
    FromSecond,
    FromThird,
    FromFourth,
    FromFifth,
    FromSixth,
    InSlots,
}

impl LeftOver {
    /// How many argument registers come before, from none to all of them.
    pub fn registers_before(self) -> u32
        ensures { result ≡ registers_before self }
    {
        match self {
            LeftOver::FromFirst => 0,
            LeftOver::FromSecond => 1,
            LeftOver::FromThird => 2,
            LeftOver::FromFourth => 3,
            LeftOver::FromFifth => 4,
            LeftOver::FromSixth => 5,
            LeftOver::InSlots => ARGUMENT_REGISTERS.len() as u32,
        }
    }
}

/// A piece of code that every program carries. `specs/Effects` says what each does to a machine, but for those that know
/// how values are in the machine: their items are defined where that is.
#[derive(Clone, Copy)]
pub enum Routine {
    /// Exits with status 0.
    End,
    /// Exits with the status that names the stop.
    Stop(Stop),
    /// Writes the bytes at the address in rax, as many as rdx says, until nothing is left of them.
    Put,
    /// Writes the fixnum whose word is in rax, in decimal.
    PutFixnum,
    /// Writes the word in rcx at the address in rax and behind it, as many times as rdx says.
    FillWords,
    /// Writes the byte in cl at the address in rax and behind it, as many times as rdx says.
    FillBytes,
    /// Writes the value whose word is in rax.
    PutValue,
    /// Makes a vector with the length in rax, filled with what rcx has.
    NewVector,
    /// Makes a string with the length in rax, filled with the character in rcx.
    NewString,
    /// Makes a list of operands that are left over, as many as rax says. Where they are in slots alone, rcx says how many bytes of
    /// the frame are before the first.
    NewList(LeftOver),
}

impl Routine {
    /// The label at which the routine is entered, from 0 to 24.
    pub fn label(self) -> u32
        ensures { result ≡ label_of self }
    {
        match self {
            Routine::End => 0,
            Routine::Stop(stop) => stop.status() as u32 - 64,
            Routine::Put => 11,
            Routine::PutFixnum => 12,
            Routine::FillWords => 13,
            Routine::FillBytes => 14,
            Routine::PutValue => 15,
            Routine::NewVector => 16,
            Routine::NewString => 17,
            Routine::NewList(which) => 18 + which.registers_before(),
        }
    }
}
