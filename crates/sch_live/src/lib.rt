//! Live variables: at each call of a body, those that may be used after it.
#![tactic(auto)]

mod backward;
mod blank;
mod live_bodies;
mod reached;
mod results;

pub use live_bodies::live;
