//! From control to frames: bodies whose variables live in registers, the passes one after the other.
#![tactic(auto)]

mod one_body;
mod programs;

pub use one_body::frame_body;
pub use programs::{FramedProgram, frame_program};
