//! Keywords where they stand.

ghost use Rattle.std.specs.Prelude.{◌≡◌};
ghost use Rattle.sch_read.specs.Views.{tree_of};
ghost use Rattle.sch_sketch.specs.FreeWords.{free_keyword, free_word, is_lambda};

use sch_names::{Keyword, Scope, keyword_of};
use sch_read::Datum;

/// The keyword that a name is, where no variable shadows it.
fn free_keyword(scope: &Scope, x: &[u8]) -> Option<Keyword>
    ensures { result ≡ free_keyword scope.now x.now }
{
    if let Some(_) = scope.find(x) {
        return None;
    }
    keyword_of(x)
}

/// The keyword that a datum is, where no variable shadows it.
pub fn word(scope: &Scope, d: &Datum) -> Option<Keyword>
    ensures { result ≡ free_word scope.now (tree_of d.now) }
{
    let Some(x) = d.name() else {
        return None;
    };
    free_keyword(scope, x)
}

/// Whether a datum is a procedure by its form.
pub fn is_lambda(scope: &Scope, d: &Datum) -> bool
    ensures { result ≡ is_lambda scope.now (tree_of d.now) }
{
    let Some(items) = d.items() else {
        return false;
    };
    let Some((operator, _)) = Datum::split(items) else {
        return false;
    };
    let Some(x) = operator.name() else {
        return false;
    };
    match free_keyword(scope, x) {
        Some(Keyword::Lambda) => true,
        _ => false,
    }
}
