//! Lazy saves: the regions of a body that save its variables, round the body and round the arms of its tests
//! (Burger, Waddell and Dybvig, PLDI 1995).
#![tactic(auto)]

mod needs;
mod outermost;
mod place;
mod regions;
mod variables;

pub use place::place_saves;
