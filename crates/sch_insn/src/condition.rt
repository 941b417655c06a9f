//! The numbers of the conditions of jumps (Intel SDM, volume 2, Jcc). An odd number is the opposite of
//! the even one before it. The numbers 10 and 11 read the parity flag, which the table leaves out.

/// Overflow.
pub const O: u8 = 0;

/// No overflow.
pub const NO: u8 = 1;

/// Below: less without a sign.
pub const B: u8 = 2;

/// Above or equal, without a sign.
pub const AE: u8 = 3;

/// Equal, or zero.
pub const E: u8 = 4;

/// Not equal, or not zero.
pub const NE: u8 = 5;

/// Below or equal, without a sign.
pub const BE: u8 = 6;

/// Above: greater without a sign.
pub const A: u8 = 7;

/// The sign is set.
pub const S: u8 = 8;

/// The sign is not set.
pub const NS: u8 = 9;

/// Less, with a sign.
pub const L: u8 = 12;

/// Greater or equal, with a sign.
pub const GE: u8 = 13;

/// Less or equal, with a sign.
pub const LE: u8 = 14;

/// Greater, with a sign.
pub const G: u8 = 15;
