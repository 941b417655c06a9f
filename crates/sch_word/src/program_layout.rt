//! Where a compiled program lies in memory.

/// The address of a program's text, which is entered at its first byte: 4 MiB, where linkers put the text
/// of a static executable (the project's own).
pub const TEXT_ADDRESS: u64 = 0x40_0000;

/// The address of its data: 256 MiB, so that addresses of text and data are numbers of 31 bits (the
/// project's own).
pub const DATA_ADDRESS: u64 = 0x1000_0000;

/// The most bytes of a text: 16 MiB, so that it ends before the data begin (the project's own).
pub const MAX_TEXT_SIZE: u64 = 16_777_216;
