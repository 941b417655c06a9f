//! How many expressions and lambdas there are, and two tests.

ghost use Rattle.std.specs.Prelude.{◌≡◌, ◌&&◌};
ghost use Rattle.sch_lang.specs.Tree as tree;
ghost use Rattle.sch_lang.specs.View.{expressions_of, lambdas_of};

use sch_lang::{Exp, Lambda};
use sch_word::List;

#[tactic(auto, using(sch_lang::proofs::ListViews::count_is))]
pub(crate) fn count(es: &List<Exp>) -> usize
    ensures { result ≡ tree.count (expressions_of es.now) }
{
    es.len()
}

#[tactic(auto, using(sch_lang::proofs::ListViews::count_lambdas_is))]
pub(crate) fn count_lambdas(ls: &List<Lambda>) -> usize
    ensures { result ≡ tree.count_lambdas (lambdas_of ls.now) }
{
    ls.len()
}

/// Whether both tests hold.
pub(crate) fn both(a: bool, b: bool) -> bool
    ensures { result ≡ (a && b) }
{
    a && b
}
