//! Tests of the passes from a text to items: that they succeed where there is memory, and what is written for a body with
//! variables in registers.
#![tactic(auto)]

#[cfg(test)]
mod closures;
#[cfg(test)]
mod deep_literals;
#[cfg(test)]
mod expander;
#[cfg(test)]
mod frames;
#[cfg(test)]
mod library;
#[cfg(test)]
mod live_sets;
#[cfg(test)]
mod moves;
#[cfg(test)]
mod operand_order;
#[cfg(test)]
mod places;
#[cfg(test)]
mod reader;
#[cfg(test)]
mod registers;
#[cfg(test)]
mod saves;
#[cfg(test)]
mod selection;
#[cfg(test)]
mod sets;
#[cfg(test)]
mod straight;
#[cfg(test)]
mod texts;
#[cfg(test)]
mod trees;
