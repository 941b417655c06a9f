//! The places that variables have so far.

use sch_sets::Set;
use sch_word::Place;

/// The places of variables by their numbers, how many of them are slots, and the variables in each of `ARGUMENT_REGISTERS`, in
/// their order. A variable that has no place yet is listed as in `RBX`, and is in none of these sets.
#[derive(Drop)]
pub(crate) struct Placing<const N: usize> {
    pub places: Vec<Place>,
    pub slots: u32,
    pub held: Vec<Set<N>>,
}
