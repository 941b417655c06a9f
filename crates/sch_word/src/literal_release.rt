//! The end of literals, however deep: a loop that takes no memory.

ghost use Rattle.std.specs.Prelude.{◌≡◌, ◌+◌, ◌<◌, [], length, IfNone, IsSome};
ghost use Rattle.sch_word.specs.values.Effort.{effort};
ghost use Rattle.sch_word.specs.values.LiteralParts.{plain, sizes, size_next, size_behind};
ghost use Rattle.sch_word.specs.values.LiteralView.{literal};
ghost use Rattle.sch_word.specs.values.Literals.{literal_size};

use crate::list::List;
use crate::literal::Lit;
use std::mem;

/// Lets go of literals and of what stands behind them, and of all below.
pub(crate) fn release(items: Vec<Lit>, tail: Option<Box<Lit>>) {
    let (mut next, mut rest) = taken(items, tail);
    'each: while let Some(l) = next {
        let (after, left) = l.opened(rest);
        next = after;
        rest = left;
    }
    rest.destroy_empty();
}

// One of several literals, the one behind them first, and the others.
#[tactic(auto, using(crate::proofs::values::LiteralEffort::sizes_push))]
pub(crate) fn taken(items: Vec<Lit>, tail: Option<Box<Lit>>) -> (Option<Lit>, Vec<Lit>)
    ensures all { size_next result.0 + sizes (plain result.1.items) ≡ sizes (plain items.items) + size_behind tail }
    ensures none { IfNone result.0 (result.1.items ≡ []) }
{
    let mut items = items;
    match tail {
        Some(l) => (Some(Box::into_inner(l)), items),
        None => match items.pop() {
            Some(l) => (Some(l), items),
            None => (None, items),
        },
    }
}

// The rest and a literal's parts together.
pub(crate) fn joined(
    rest: Vec<Lit>,
    items: Vec<Lit>,
    tail: Option<Box<Lit>>,
) -> (Option<Lit>, Vec<Lit>)
    ensures less { effort (size_next result.0) (sizes (plain result.1.items))
        < effort (1 + sizes (plain items.items) + size_behind tail) (sizes (plain rest.items)) }
    ensures none { IfNone result.0 (result.1.items ≡ []) }
{
    if items.is_empty() {
        items.destroy_empty();
        taken(rest, tail)
    } else if rest.is_empty() {
        rest.destroy_empty();
        taken(items, tail)
    } else {
        swapped(rest, items, tail)
    }
}

// What is kept as one literal.
fn kept(items: List<Lit>, tail: Option<Box<Lit>>) -> Lit
    ensures { literal_size (literal result) ≡ 1 + (sizes (plain items) + size_behind tail) }
{
    match tail {
        Some(end) => Lit::List(items, end),
        None => Lit::Vector(items),
    }
}

// The rest becomes a literal that stands in the place of the first part, and that part is next. So the
// parts, which are untouched below, come to an end before the rest is taken up again.
fn swapped(rest: Vec<Lit>, items: Vec<Lit>, tail: Option<Box<Lit>>) -> (Option<Lit>, Vec<Lit>)
    requires { 0 < length items.items }
    ensures less { effort (size_next result.0) (sizes (plain result.1.items))
        < effort (1 + sizes (plain items.items) + size_behind tail) (sizes (plain rest.items)) }
    ensures some { IsSome result.0 }
{
    let mut items = items;
    let others = kept(List::from_vec(rest), tail);
    let first = mem::replace(&mut items[0], others);
    (Some(first), items)
}
