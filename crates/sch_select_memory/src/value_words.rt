//! The words of constants.

ghost use Rattle.std.specs.Prelude.{◌≡◌};
ghost use Rattle.sch_select_memory.specs.Encoded.{constant_number};

use sch_word::Const;

/// The words of values, as `specs/Encoded` has them: their tags, what tells their kind, and how far a number is shifted.
pub mod word {
    /// The bits of a word that are its tag.
    pub const TAG_MASK: i32 = 7;

    /// The bits of an immediate that say which it is.
    pub const BYTE_MASK: i32 = 255;

    /// The bits in which both booleans are the same.
    pub const BOOLEAN_MASK: i32 = 127;

    /// How far a fixnum's number is above the end of its word.
    pub const FIXNUM_SHIFT: u8 = 3;

    /// How far a character's byte is above the end of its word.
    pub const CHARACTER_SHIFT: u8 = 8;

    /// How far a number of units of 16 bytes is above the end of that of their bytes.
    pub const UNIT_SHIFT: u8 = 4;

    /// The bytes of a pair.
    pub const PAIR_BYTES: i32 = 16;

    /// What is added to the bytes of an object's elements before they are cut down to whole units: those of the word of its length,
    /// and one less than a unit has.
    pub const ROUNDING: i32 = 8 + 15;

    /// The low three bits of a fixnum's word.
    pub const FIXNUM: i32 = 0;

    /// `#f`.
    pub const FALSE: i32 = 6;

    /// `#t`.
    pub const TRUE: i32 = 134;

    /// The empty list.
    pub const NIL: i32 = 22;

    /// The unspecified value.
    pub const UNSPECIFIED: i32 = 30;

    /// What stands where a global or a cell has no value.
    pub const UNSET: i32 = 38;

    /// The low byte of a character's word.
    pub const CHARACTER: i32 = 46;

    /// The low three bits of a procedure's word.
    pub const PROCEDURE: i32 = 4;

    /// The low three bits of a cell's word.
    pub const CELL: i32 = 7;

    /// The low three bits of a pair's word.
    pub const PAIR: i32 = 1;

    /// The low three bits of a vector's word.
    pub const VECTOR: i32 = 2;

    /// The low three bits of a string's word.
    pub const STRING: i32 = 3;

    /// The low three bits of a symbol's word.
    pub const SYMBOL: i32 = 5;
}

use word::{CHARACTER, FALSE, NIL, SYMBOL, TRUE, UNSPECIFIED};

/// The word of a constant, as a number with a sign.
pub fn constant_number(c: Const) -> i64
    ensures { result ≡ constant_number c }
{
    match c {
        Const::Fixnum(n) => 8 * n.get(),
        Const::Character(byte) => 256 * byte as i64 + CHARACTER as i64,
        Const::Boolean(true) => TRUE as i64,
        Const::Boolean(false) => FALSE as i64,
        Const::Nil => NIL as i64,
        Const::Unspecified => UNSPECIFIED as i64,
        Const::Symbol(n) => 8 * n as i64 + SYMBOL as i64,
    }
}
