//! Numbers: whether one is in a list, finite sets of them in lists, and the larger of two.

ghost use Rattle.std.specs.Prelude.{◌≡◌, max, reverse, OnOk};
ghost use Rattle.sch_word.specs.trees.NumberSets.{has, insert, union};

use crate::mem::Mem;

/// Whether a number is one of some. It goes through them.
pub fn is_in(x: u32, xs: &[u32]) -> bool
    ensures { result ≡ has x xs.now }
{
    for y in xs {
        if x == *y {
            return true;
        }
    }
    false
}

/// Puts a number before others unless it is one of them.
pub fn insert_number(x: u32, xs: &mut Vec<u32>) -> Result<(), Mem>
    ensures { OnOk result (reverse xs.new.items ≡ insert x (reverse xs.old.items)) }
{
    if !is_in(x, xs.as_slice()) {
        xs.push(x)?;
    }
    Ok(())
}

/// Puts each of some numbers before others.
pub fn insert_numbers(more: &[u32], xs: &mut Vec<u32>) -> Result<(), Mem>
    ensures { OnOk result (reverse xs.new.items ≡ union (reverse more.now) (reverse xs.old.items)) }
{
    for x in more {
        insert_number(*x, xs)?;
    }
    Ok(())
}

/// The larger of two numbers.
pub fn larger(a: u32, b: u32) -> u32
    ensures { result ≡ max a b }
{
    if a < b { b } else { a }
}
