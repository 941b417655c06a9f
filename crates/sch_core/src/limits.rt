//! Where forms have too many variables.

ghost use Rattle.std.specs.Prelude.{◌≡◌, map, option_map, IfOk};
ghost use Rattle.sch_lang.specs.View.{expression, expressions_of};
ghost use Rattle.sch_core.specs.Excess.{excess, first_excess};

use crate::error::Kind;
use sch_lang::Exp;
use sch_variable_counts::{has_few_free, has_few_variables};
use sch_word::Mem;
use std::alloc::Global;

/// What the body of a procedure with these formals, or that of a procedure in it, has too much of.
pub(crate) fn excess(alloc: Global, formals: u32, e: &Exp) -> Result<Option<Kind>, Mem>
    ensures { IfOk result (λ kind. kind ≡ excess formals (expression e.now)) }
{
    if !has_few_variables(alloc, formals, e)? {
        return Ok(Some(Kind::Variables));
    }
    if !has_few_free(alloc, formals, e)? {
        return Ok(Some(Kind::Free));
    }
    Ok(None)
}

/// The first form that has too much of something, and its place.
pub(crate) fn first_excess(
    alloc: Global,
    places: &[u32],
    forms: &[Exp],
) -> Result<Option<(Kind, u32)>, Mem>
    ensures { IfOk result (λ found. found ≡ first_excess places.now (expressions_of forms.now)) }
{
    let n = places.len().min(forms.len());
    for i in 0..n {
        if let Some(kind) = excess(alloc, 0, &forms[i])? {
            return Ok(Some((kind, places[i])));
        }
    }
    Ok(None)
}
