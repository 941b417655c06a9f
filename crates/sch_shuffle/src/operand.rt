//! Operands: what gives an argument its value.

ghost use Rattle.std.specs.Prelude.{◌≡◌, IfOk};
ghost use Rattle.sch_shuffle.specs.View.{tree, trees_of};
ghost use Rattle.sch_shuffle.specs.Tree.{uses, uses_one};

use sch_word::{List, Mem, Place, Primitive, same_place};
use std::alloc::Global;

/// A value that takes no call. Whoever makes a `Read` sees to it that it does not stop: that the primitive answers for
/// what its operands give.
#[derive(Drop)]
pub enum Operand {
    /// What the place holds.
    Place(Place),
    /// A word.
    Fixed(u64),
    /// The word of the literal with this number, which depends on the number alone.
    Literal(u32),
    /// What the primitive reads of operands.
    Read(Primitive, List<Operand>),
}

/// Whether what the operand gives may depend on the place.
#[cycle(using)]
pub fn uses(operand: &Operand, place: Place) -> bool
    ensures { result ≡ uses (tree operand.now) place }
{
    match operand {
        Operand::Place(p) => same_place(*p, place),
        Operand::Fixed(_) => false,
        Operand::Literal(_) => false,
        Operand::Read(_, operands) => one_uses(operands, place),
    }
}

#[cycle(using)]
fn one_uses(operands: &List<Operand>, place: Place) -> bool
    ensures { result ≡ uses_one (trees_of operands.now) place }
{
    for operand in operands.as_slice() {
        if uses(operand, place) {
            return true;
        }
    }
    false
}

/// A copy of an operand.
#[cycle(copying)]
pub fn copy(alloc: Global, operand: &Operand) -> Result<Operand, Mem>
    ensures { IfOk result (λ made. tree made ≡ tree operand.now) }
{
    match operand {
        Operand::Place(place) => Ok(Operand::Place(*place)),
        Operand::Fixed(word) => Ok(Operand::Fixed(*word)),
        Operand::Literal(number) => Ok(Operand::Literal(*number)),
        Operand::Read(primitive, operands) => {
            let operands = copy_each(alloc, operands)?;
            Ok(Operand::Read(*primitive, operands))
        }
    }
}

#[cycle(copying)]
fn copy_each(alloc: Global, operands: &List<Operand>) -> Result<List<Operand>, Mem>
    ensures { IfOk result (λ made. trees_of made ≡ trees_of operands.now) }
{
    let mut all = List::new(alloc);
    for operand in operands.as_slice() {
        all.push(copy(alloc, operand)?)?;
    }
    Ok(all)
}
