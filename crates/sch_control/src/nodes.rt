//! Expressions on the heap, one function for each kind. A walk that makes a tree by these keeps no expression in its own
//! part of the stack, nor a copy of what an expression is made of.

ghost use Rattle.std.specs.Prelude.{◌≡◌, IfOk};

use crate::copies::{copy_application, copy_members, copy_operation};
use crate::operation::{Application, Member, Operation};
use crate::tree::{Exp, boxed};
use sch_word::{List, Mem};
use std::alloc::Global;

// An operation as an expression.
fn boxed_do<C: Drop>(alloc: Global, o: Operation<u32>) -> Result<Box<Exp<C>>, Mem>
    ensures { IfOk result (λ made. made.value ≡ Exp.Do o) }
{
    boxed(alloc, Exp::Do(o))
}

/// A binding of a variable to the value of the first, and the second.
#[inline(never)]
pub fn boxed_bind<C: Drop>(
    alloc: Global,
    x: u32,
    a: Box<Exp<C>>,
    b: Box<Exp<C>>,
) -> Result<Box<Exp<C>>, Mem>
    ensures { IfOk result (λ made. made.value ≡ Exp.Bind x a b) }
{
    boxed(alloc, Exp::Bind(x, a, b))
}

/// The first, then the second.
#[inline(never)]
pub fn boxed_seq<C: Drop>(alloc: Global, a: Box<Exp<C>>, b: Box<Exp<C>>) -> Result<Box<Exp<C>>, Mem>
    ensures { IfOk result (λ made. made.value ≡ Exp.Seq a b) }
{
    boxed(alloc, Exp::Seq(a, b))
}

/// A test and its arms.
#[inline(never)]
pub fn boxed_if<C: Drop>(
    alloc: Global,
    a: Box<Exp<C>>,
    b: Box<Exp<C>>,
    c: Box<Exp<C>>,
) -> Result<Box<Exp<C>>, Mem>
    ensures { IfOk result (λ made. made.value ≡ Exp.If a b c) }
{
    boxed(alloc, Exp::If(a, b, c))
}

// A group, and what follows.
fn boxed_fix<C: Drop>(
    alloc: Global,
    members: List<Member<u32>>,
    e: Box<Exp<C>>,
) -> Result<Box<Exp<C>>, Mem>
    ensures { IfOk result (λ made. made.value ≡ Exp.Fix members e) }
{
    boxed(alloc, Exp::Fix(members, e))
}

/// A call, and what is said of it.
#[inline(never)]
pub fn boxed_call<C: Drop>(alloc: Global, a: Application<u32>, said: C) -> Result<Box<Exp<C>>, Mem>
    ensures { IfOk result (λ made. made.value ≡ Exp.Call a said) }
{
    boxed(alloc, Exp::Call(a, said))
}

// A call in tail position.
fn boxed_tail_call<C: Drop>(alloc: Global, a: Application<u32>) -> Result<Box<Exp<C>>, Mem>
    ensures { IfOk result (λ made. made.value ≡ Exp.TailCall a) }
{
    boxed(alloc, Exp::TailCall(a))
}

/// The end of a body of a procedure.
#[inline(never)]
pub fn boxed_return<C: Drop>(alloc: Global, e: Box<Exp<C>>) -> Result<Box<Exp<C>>, Mem>
    ensures { IfOk result (λ made. made.value ≡ Exp.Return e) }
{
    boxed(alloc, Exp::Return(e))
}

/// The end of a form.
#[inline(never)]
pub fn boxed_end<C: Drop>(alloc: Global, e: Box<Exp<C>>) -> Result<Box<Exp<C>>, Mem>
    ensures { IfOk result (λ made. made.value ≡ Exp.End e) }
{
    boxed(alloc, Exp::End(e))
}

/// A region that saves these variables.
#[inline(never)]
pub fn boxed_save<C: Drop>(
    alloc: Global,
    saves: List<u32>,
    e: Box<Exp<C>>,
) -> Result<Box<Exp<C>>, Mem>
    ensures { IfOk result (λ made. made.value ≡ Exp.Save saves e) }
{
    boxed(alloc, Exp::Save(saves, e))
}

/// A copy of an operation as an expression.
#[inline(never)]
pub fn copied_do<C: Drop>(alloc: Global, o: &Operation<u32>) -> Result<Box<Exp<C>>, Mem>
    ensures { IfOk result (λ made. made.value ≡ Exp.Do o.now) }
{
    let o = copy_operation(alloc, o)?;
    boxed_do(alloc, o)
}

/// A copy of a group, and what follows.
#[inline(never)]
pub fn copied_fix<C: Drop>(
    alloc: Global,
    members: &List<Member<u32>>,
    e: Box<Exp<C>>,
) -> Result<Box<Exp<C>>, Mem>
    ensures { IfOk result (λ made. made.value ≡ Exp.Fix members.now e) }
{
    let members = copy_members(alloc, members)?;
    boxed_fix(alloc, members, e)
}

/// A copy of a call in tail position.
#[inline(never)]
pub fn copied_tail_call<C: Drop>(alloc: Global, a: &Application<u32>) -> Result<Box<Exp<C>>, Mem>
    ensures { IfOk result (λ made. made.value ≡ Exp.TailCall a.now) }
{
    let a = copy_application(alloc, a)?;
    boxed_tail_call(alloc, a)
}

/// A region that saves a copy of these variables.
#[inline(never)]
pub fn copied_save<C: Drop>(
    alloc: Global,
    saves: &List<u32>,
    e: Box<Exp<C>>,
) -> Result<Box<Exp<C>>, Mem>
    ensures { IfOk result (λ made. made.value ≡ Exp.Save saves.now e) }
{
    let saves = List::from_slice(alloc, saves.as_slice())?;
    boxed_save(alloc, saves, e)
}
