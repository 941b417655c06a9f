//! Eager restores: directly after each call, what is saved and will be wanted before the next one is restored
//! (Burger, Waddell and Dybvig, PLDI 1995).
#![tactic(auto)]

mod around;
mod place;
mod restoring;
mod wanted;

pub use place::place_restores;
