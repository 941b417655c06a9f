//! How many variables the bodies of a core tree have, and how many a procedure has free, against the limits on both.
#![tactic(auto)]

ghost use Rattle.std.specs.Prelude.{◌≡◌, ◌&&◌, nat_le, length, IfOk};
ghost use Rattle.sch_word.specs.trees.Shape.{max_variables, max_free_variables};
ghost use Rattle.sch_lang.specs.View.{expression};
ghost use Rattle.sch_lang.specs.Measures.{body_variables};
ghost use Rattle.sch_lang.specs.Variables.{free, outside};
ghost use Rattle.sch_variable_counts.specs.Within.{few_variables, few_free};

mod assigned;
mod counting;
mod free;
mod lengths;
mod scopes;

use sch_lang::Exp;
use sch_word::Mem;
use std::alloc::Global;

/// Whether a body with these formals, and the body of each procedure in it, has at most 1,000 variables. A
/// top-level form is a body without formals.
pub fn has_few_variables(alloc: Global, formals: u32, e: &Exp) -> Result<bool, Mem>
    ensures { IfOk result (λ few. few ≡ (nat_le (body_variables formals (expression e.now)) max_variables && few_variables (expression e.now))) }
{
    counting::fits(alloc, formals, e)
}

/// Whether a body with these formals, and each procedure in it, has at most 1,000 free variables. A top-level
/// form has none.
pub fn has_few_free(alloc: Global, formals: u32, e: &Exp) -> Result<bool, Mem>
    ensures { IfOk result (λ few. few ≡ (nat_le (length (outside formals (free (expression e.now)))) max_free_variables && few_free (expression e.now))) }
{
    let mut found = Vec::new(alloc);
    let few = free::find_procedure(alloc, formals, e, &mut found)?;
    Ok(few)
}
