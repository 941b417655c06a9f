//! In which order the parts of calls are evaluated: what is listed of the moves of calls, and the order table of a program by
//! them.
#![tactic(auto)]

mod listed_call;
mod table;

pub use listed_call::ListedCall;
pub use table::listed_orders;
