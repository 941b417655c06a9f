//! What every other crate shares: lists, the answers of a kernel, the named stops of a program, the
//! error that means out of memory, fixnums, constants, primitives, limits, the registers of compiled code, marks of
//! instructions and the activations that they tell, and what computations do.
#![tactic(auto)]

mod answer;
mod assigned;
mod constant;
mod fix;
mod limits;
mod list;
mod literal;
mod literal_order;
mod literal_release;
mod made_literals;
mod mark;
mod mem;
mod numbers;
mod place;
mod primitive;
mod program_layout;
pub mod registers;
mod statics;
mod stop;
mod to_visit;

pub use answer::Answer;
pub use assigned::mark_one;
pub use constant::Const;
pub use fix::{FIXNUM_MAX, FIXNUM_MIN, Fix, fix_add, fix_mul, fix_sub};
pub use limits::{Limits, MAX_DEPTH, MAX_HEAP, MIN_DEPTH, MIN_HEAP};
pub use list::{Bytes, List};
pub use literal::Lit;
pub use literal_order::literals_in_order;
pub use made_literals::MadeLiterals;
pub use mark::MarkKind;
pub use mem::Mem;
pub use numbers::{insert_number, insert_numbers, is_in, larger};
pub use place::{Place, same_place};
pub use primitive::Primitive;
pub use program_layout::{DATA_ADDRESS, MAX_TEXT_SIZE, TEXT_ADDRESS};
pub use registers::{
    ARGUMENT_REGISTERS, CLOSURE_REGISTER, DEPTH_REGISTER, FRAME_REGISTER, HEAP_REGISTER,
    LINK_REGISTER, SCRATCH_REGISTERS,
};
pub use statics::Statics;
pub use stop::Stop;
pub use to_visit::ToVisit;
