//! Tests of the whole program.
#![tactic(auto)]

#[cfg(test)]
mod calls;
#[cfg(test)]
mod cells;
#[cfg(test)]
mod counted;
#[cfg(test)]
mod defaults;
#[cfg(test)]
mod failing;
#[cfg(test)]
mod free;
#[cfg(test)]
mod generated;
#[cfg(test)]
mod hostile;
#[cfg(test)]
mod listings;
#[cfg(test)]
mod outside;
#[cfg(test)]
mod program;
#[cfg(test)]
mod refusals;
#[cfg(test)]
mod registers;
#[cfg(test)]
mod straight;
#[cfg(test)]
mod words;
