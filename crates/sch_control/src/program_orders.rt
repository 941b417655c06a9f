//! Order tables of programs of the language Control: in which order the parts of each site are evaluated.

ghost use Rattle.std.specs.Prelude.{◌≡◌, IsTrue, IfOk};
ghost use Rattle.sch_word.specs.runs.Orders.{is_order_table};
ghost use Rattle.sch_control.specs.Fits.{table_fits};
ghost use Rattle.sch_control.specs.ProgramView.{source};
ghost use Rattle.sch_control.specs.OrderTable.{given_table};

use crate::order_table::orders_of;
use crate::program::ControlProgram;
use sch_word::{List, Mem};
use std::alloc::Global;

/// The order table that lists, at each site, what `p` binds, in order, and then the other parts by number. It is
/// one permutation for each site.
pub fn given_orders(alloc: Global, p: &ControlProgram) -> Result<List<List<u32>>, Mem>
    ensures orders { IfOk result (λ orders. orders ≡ given_table (source p.now)) }
    ensures fits { IfOk result (λ orders. IsTrue (table_fits (source p.now) orders)) }
    ensures permutations { IfOk result (λ orders. IsTrue (is_order_table p.now.sites orders)) }
{
    orders_of(alloc, p.sites.as_slice(), p.bound.as_slice())
}

/// A table that fits a program has one permutation for each of its sites.
pub fn a_table_that_fits_is_an_order_table(p: &ControlProgram, orders: &List<List<u32>>)
    requires { IsTrue (table_fits (source p.now) orders.now) }
    ensures { IsTrue (is_order_table p.now.sites orders.now) }
{}
