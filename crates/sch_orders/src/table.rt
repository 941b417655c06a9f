//! The order table of a program, by the moves of its calls.

ghost use Rattle.std.specs.Prelude.{◌≡◌, ◌<◌, length, slice_set, IfOk, IsTrue, OnOk};
ghost use Rattle.sch_word.specs.runs.Orders.{is_order_table, order_at};
ghost use Rattle.sch_control.specs.Fits.{table_fits};
ghost use Rattle.sch_control.specs.ProgramView.{source};
ghost use Rattle.sch_orders.specs.ListedTable.{calls_fit, evaluated, listed_table, with_call};

use crate::listed_call::ListedCall;
use sch_control::{ControlProgram, add_other, given_orders};
use sch_word::{List, Mem};
use std::alloc::Global;

/// What is bound, and then the other parts in their order.
fn evaluated(alloc: Global, bound: &[u32], order: &[u32]) -> Result<List<u32>, Mem>
    ensures { IfOk result (λ all. all ≡ evaluated bound.now order.now) }
{
    let mut all = List::from_vec(Vec::with_capacity(alloc, order.len())?);
    all.extend_from_slice(bound)?;
    for k in order {
        add_other(*k, bound, &mut all)?;
    }
    Ok(all)
}

/// Puts the order of a call at its site.
fn put_order(
    alloc: Global,
    bound: &[List<u32>],
    call: &ListedCall,
    table: &mut Vec<List<u32>>,
) -> Result<(), Mem>
    requires bound { call.now.site < length bound.now }
    requires table { call.now.site < length table.old.items }
    ensures { OnOk result (table.new.items ≡ with_call bound.now table.old.items call.now) }
{
    let site = call.site as usize;
    let order = evaluated(alloc, bound[site].as_slice(), call.order.as_slice())?;
    table[site] = order;
    Ok(())
}

/// The order table that lists at the site of each of these calls what `p` binds, in order, and then the other parts in the order
/// in which they are moved; and at each other site what is given there.
pub fn listed_orders(
    alloc: Global,
    p: &ControlProgram,
    calls: &[ListedCall],
) -> Result<List<List<u32>>, Mem>
    requires { IsTrue (calls_fit (source p.now) calls.now) }
    ensures orders { IfOk result (λ orders. orders ≡ listed_table (source p.now) calls.now) }
    ensures fits { IfOk result (λ orders. IsTrue (table_fits (source p.now) orders)) }
    ensures permutations { IfOk result (λ orders. IsTrue (is_order_table p.now.sites orders)) }
{
    let mut table = given_orders(alloc, p)?.into_vec();
    for call in calls {
        put_order(alloc, p.bound.as_slice(), call, &mut table)?;
    }
    Ok(List::from_vec(table))
}
