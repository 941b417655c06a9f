//! How many expressions and lambdas there are.

ghost use Rattle.std.specs.Prelude.{◌≡◌};
ghost use Rattle.sch_cells.specs.Tree as plain;
ghost use Rattle.sch_cells.specs.View.{trees_of, lambdas_of};

use crate::tree::{Exp, Lambda};
use sch_word::List;

/// How many expressions there are.
#[tactic(auto, using(crate::proofs::Rows::count_is))]
pub fn count(es: &List<Exp>) -> usize
    ensures { result ≡ plain.count (trees_of es.now) }
{
    es.len()
}

/// How many lambdas there are.
#[tactic(auto, using(crate::proofs::Rows::count_lambdas_is))]
pub fn count_lambdas(ls: &List<Lambda>) -> usize
    ensures { result ≡ plain.count_lambdas (lambdas_of ls.now) }
{
    ls.len()
}
