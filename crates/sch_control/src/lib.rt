//! The language Control: bodies in which every operand is simple and each call is bound, tested, in tail
//! position or the last of a form; which programs are valid, and what a program does.
#![tactic(auto)]

mod arrivals;
mod body;
mod copies;
mod known_values;
mod live_body;
mod nodes;
mod operation;
mod order_table;
mod placed_body;
mod program;
mod program_orders;
mod reads;
mod restored_body;
mod restoring;
mod saved_body;
mod set_lists;
mod tree;

pub use arrivals::{argument_register, argument_slot, arrival};
pub use body::{Body, Entry};
pub use copies::copy_application;
pub use known_values::{after_operation, known};
pub use live_body::LiveBody;
pub use nodes::{
    boxed_bind, boxed_call, boxed_end, boxed_if, boxed_return, boxed_save, boxed_seq, copied_do,
    copied_fix, copied_save, copied_tail_call,
};
pub use operation::{Application, Atom, Closure, Member, Operand, Operation, Source};
pub use order_table::add_other;
pub use placed_body::PlacedBody;
pub use program::ControlProgram;
pub use program_orders::{a_table_that_fits_is_an_order_table, given_orders};
pub use reads::{read_application, read_members, read_operation, remove_members};
pub use restored_body::RestoredBody;
pub use restoring::Restoring;
pub use saved_body::SavedBody;
pub use set_lists::{members_of, with_all};
pub use tree::{Exp, boxed};
