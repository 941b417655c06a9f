//! Tests of the whole program over texts that use objects and the library.
#![tactic(auto)]

#[cfg(test)]
mod examples;
#[cfg(test)]
mod generator;
#[cfg(test)]
mod library;
#[cfg(test)]
mod objects;
#[cfg(test)]
mod program;
#[cfg(test)]
mod rests;
#[cfg(test)]
mod values;
