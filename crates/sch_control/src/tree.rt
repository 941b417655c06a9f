//! Expressions of a body.

ghost use Rattle.std.specs.Prelude.{◌≡◌, IfOk};

use crate::operation::{Application, Member, Operation};
use sch_word::{List, Mem};
use std::alloc::Global;

/// An expression of a body. `C` is what is said of each call.
///
/// A body has its variables by number: 0 is the return address, 1 the closure, then come the formals, then
/// what is bound. A valid `Body` has no region.
#[derive(Drop)]
pub enum Exp<C: Drop> {
    Do(Operation<u32>),
    /// The variable has the value of the first expression from there on, and the second follows.
    Bind(u32, Box<Exp<C>>, Box<Exp<C>>),
    /// The first expression for what it does, then the second.
    Seq(Box<Exp<C>>, Box<Exp<C>>),
    /// The test may be any expression, an `If` too.
    If(Box<Exp<C>>, Box<Exp<C>>, Box<Exp<C>>),
    /// A group of closures that know one another, each bound to its variable, and what follows.
    Fix(List<Member<u32>>, Box<Exp<C>>),
    /// A call that is not in a tail context.
    Call(Application<u32>, C),
    TailCall(Application<u32>),
    /// Ends the body of a procedure, with the value.
    Return(Box<Exp<C>>),
    /// Ends a top-level form. It asks for no return address.
    End(Box<Exp<C>>),
    /// A region: each of the variables is saved at its head or, where it is bound inside, as it is bound.
    Save(List<u32>, Box<Exp<C>>),
}

/// An expression on the heap.
pub fn boxed<C: Drop>(alloc: Global, e: Exp<C>) -> Result<Box<Exp<C>>, Mem>
    ensures { IfOk result (λ made. made.value ≡ e) }
{
    Ok(Box::new(alloc, e)?)
}
