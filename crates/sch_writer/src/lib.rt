//! The instructions of a body as they are written, over any places of its variables and any moves of its calls: what it is
//! entered by, its operands in their places, calls, and what regions save and calls restore.
#![tactic(auto)]

mod allocation;
mod body_layout;
mod call_layout;
mod instructions;
mod moves;
mod operand_places;
mod regions;
mod saves;
mod variable_places;

pub use allocation::{Allocation, Restores};
pub use body_layout::{write_body, write_region_body};
pub use call_layout::{LINK, target};
pub use instructions::Writer;
pub use moves::Move;
pub use operand_places::operand_at;
pub use variable_places::VariablePlaces;
