//! The order table under which a normal program runs.

ghost use Rattle.std.specs.Prelude.{◌≡◌, ◌++◌, [], length, IfOk, OnOk};
ghost use Rattle.sch_word.specs.trees.NumberSets.{has, unless};
ghost use Rattle.sch_control.specs.OrderTable as table;

use sch_word::{List, Mem, is_in};
use std::alloc::Global;

/// Adds a number unless it is one of the parts.
pub fn add_other(k: u32, parts: &[u32], all: &mut List<u32>) -> Result<(), Mem>
    ensures { OnOk result (all.new ≡ all.old ++ unless (has k parts.now) k []) }
{
    if !is_in(k, parts) {
        all.push(k)?;
    }
    Ok(())
}

// These parts, and then the others below `width` by their numbers.
fn order_of(alloc: Global, width: u32, parts: &[u32]) -> Result<List<u32>, Mem>
    ensures { IfOk result (λ order. order ≡ table.given_order width parts.now) }
{
    let mut all = List::from_vec(Vec::with_capacity(alloc, width as usize)?);
    all.extend_from_slice(parts)?;
    for k in 0..width {
        add_other(k, parts, &mut all)?;
    }
    Ok(all)
}

/// The order of each site, by how many parts it has and which of them are bound.
pub(crate) fn orders_of(
    alloc: Global,
    sites: &[u32],
    bound: &[List<u32>],
) -> Result<List<List<u32>>, Mem>
    requires { length sites.now ≡ length bound.now }
    ensures { IfOk result (λ orders. orders ≡ table.given_orders sites.now bound.now) }
{
    let mut all = List::from_vec(Vec::with_capacity(alloc, sites.len())?);
    for i in 0..sites.len() {
        all.push(order_of(alloc, sites[i], bound[i].as_slice())?)?;
    }
    Ok(all)
}
