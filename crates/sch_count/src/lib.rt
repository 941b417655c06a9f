//! A device: the activations of a machine's run, counted for each body with what they save, and its leaves.
#![tactic(auto)]

mod counting;
mod counts;
mod error;
mod extent;
mod mark_table;
mod row;
mod tally;
mod text;

pub use counting::count;
pub use counts::Counts;
pub use error::CountError;
pub use extent::Extent;
pub use row::Row;
pub use text::print_counts;
