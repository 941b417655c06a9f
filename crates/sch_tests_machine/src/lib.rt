//! Tests below the languages: lists, disks and outlets, executables, routines, and the machine that steps.
#![tactic(auto)]

#[cfg(test)]
mod chain;
#[cfg(test)]
mod counts;
#[cfg(test)]
mod executables;
#[cfg(test)]
mod fills;
#[cfg(test)]
mod jumps;
#[cfg(test)]
mod lists;
#[cfg(test)]
mod machine;
#[cfg(test)]
mod outside;
#[cfg(test)]
mod routines;
