//! The words of literals of many levels.

ghost use Rattle.std.specs.Prelude.{◌≡◌, ◌≤◌, ◌+◌, ◌*◌, IfOk};
ghost use Rattle.sch_word.specs.values.LiteralView.{literal, literals_of};
ghost use Rattle.sch_word.specs.values.Literals.{literal_size, literals_size};

use sch_select_data::literal_words;
use sch_word::{Const, List, Lit, Mem};
use std::alloc::Global;
use std::test::Fail;

// One literal alone.
fn one(alloc: Global, l: Lit) -> Result<List<Lit>, Mem>
    ensures { IfOk result (λ ls. literals_size (literals_of ls) ≡ literal_size (literal l)) }
{
    let mut ls = List::new(alloc);
    ls.push(l)?;
    Ok(ls)
}

// A literal behind the dot of a list, in a list or in a vector.
fn deeper(alloc: Global, l: Lit, kind: u32) -> Result<Lit, Mem>
    ensures { IfOk result (λ made. literal_size (literal made) ≤ literal_size (literal l) + 2) }
{
    if kind == 0 {
        let items = one(alloc, Lit::Constant(Const::Nil))?;
        return Ok(Lit::List(items, Box::new(alloc, l)?));
    }
    let items = one(alloc, l)?;
    if kind == 1 {
        let end = Box::new(alloc, Lit::Constant(Const::Nil))?;
        return Ok(Lit::List(items, end));
    }
    Ok(Lit::Vector(items))
}

// A literal of this many levels.
fn deep(alloc: Global, levels: u32) -> Result<Lit, Mem>
    ensures { IfOk result (λ made. literal_size (literal made) ≤ 2 * levels + 1) }
{
    let mut l = Lit::Constant(Const::Nil);
    for level in 0..levels {
        l = deeper(alloc, l, level % 3)?;
    }
    Ok(l)
}

#[test]
fn puts_literals_of_many_levels(rt: HostRuntime) -> Result<(), Fail> {
    let alloc = rt.alloc();
    let literals = one(alloc, deep(alloc, 300_000)?)?;
    let made = literal_words(alloc, &literals, 64)?;
    assert!(rt; made.objects.len() == 600_000);
    assert!(rt; made.values.len() == 1);
    Ok(())
}
