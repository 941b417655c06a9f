//! The calls of the kernel that programs make, by their numbers (System V ABI, AMD64 supplement, appendix A.2).

/// `write`, which RAX has.
pub const SYS_WRITE: u8 = 1;

/// `exit`, which RAX has.
pub const SYS_EXIT: u8 = 60;

/// The standard output, which RDI has at a write.
pub const STDOUT: u8 = 1;
