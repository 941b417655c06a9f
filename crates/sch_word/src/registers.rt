//! The sixteen registers by their numbers (Intel SDM, volume 2, section 3.1.1.1), and what compiled code uses each for, the project's
//! own choice. RSP is not used.

pub const RAX: u8 = 0;

pub const RCX: u8 = 1;

pub const RDX: u8 = 2;

pub const RBX: u8 = 3;

pub const RSP: u8 = 4;

pub const RBP: u8 = 5;

pub const RSI: u8 = 6;

pub const RDI: u8 = 7;

pub const R8: u8 = 8;

pub const R9: u8 = 9;

pub const R10: u8 = 10;

pub const R11: u8 = 11;

pub const R12: u8 = 12;

pub const R13: u8 = 13;

pub const R14: u8 = 14;

pub const R15: u8 = 15;

/// Where variables live, and where the first operands of a call arrive, in this order.
pub const ARGUMENT_REGISTERS: [u8; 6] = [RBX, R8, R9, R10, RSI, RDI];

/// The address of the frame.
pub const FRAME_REGISTER: u8 = RBP;

/// The next free place of the heap.
pub const HEAP_REGISTER: u8 = R12;

/// How many calls may still be pending.
pub const DEPTH_REGISTER: u8 = R13;

/// The closure of the activation.
pub const CLOSURE_REGISTER: u8 = R14;

/// Where the activation returns.
pub const LINK_REGISTER: u8 = R15;

/// What an instruction of a body may overwrite beside its own place.
pub const SCRATCH_REGISTERS: [u8; 4] = [RAX, RCX, RDX, R11];
