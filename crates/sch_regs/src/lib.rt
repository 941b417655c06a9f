//! Where the variables of a body live: in registers while there are any, and else in slots of the frame.
#![tactic(auto)]

mod assigning;
mod choice;
mod noting;
mod places;
mod placing;
mod starting;

pub use places::assign_places;
