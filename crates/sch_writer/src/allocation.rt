//! What a body is laid out by.

use crate::regions::Regions;
use std::alloc::Global;

/// What is restored after each call of a tree, whose calls have a `C`.
pub trait Restores<C> {
    ghost use Rattle.std.specs.Prelude.{◌≡◌, ℕ, List};

    /// The variables, by what a call has.
    ghost lists: { Self → C → List ℕ };

    /// The variables that are restored after a call with this.
    fn after<'a>(&'a self, call: &'a C) -> &'a [u32]
        ensures { result.now ≡ lists self.now call.now };
}

/// Where the variables of a body live, and what is restored after its calls.
#[derive(Drop)]
pub struct Allocation<P, R> {
    pub places: P,
    pub restores: R,
}

/// What an expression is laid out by: the allocation of its body, and the regions round it.
#[derive(Drop)]
pub(crate) struct Around<'a, P, R> {
    pub alloc: Global,
    pub allocation: &'a Allocation<P, R>,
    pub regions: Regions<'a>,
}
