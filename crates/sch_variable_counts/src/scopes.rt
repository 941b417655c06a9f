//! Marks of the variables in scope, the nearest last.

ghost use Rattle.std.specs.Prelude.{◌≡◌, drop, length, nat_eq, reverse, take, OnOk};
ghost use Rattle.sch_lang.specs.Measures.{onto_all};
ghost use Rattle.sch_word.specs.trees.Assigned.{marked};

use sch_word::Mem;

/// Binds variables, each of which has this mark.
pub(crate) fn bind_all(count: usize, each: bool, scope: &mut Vec<bool>) -> Result<(), Mem>
    ensures bound { OnOk result (reverse scope.new.items ≡ onto_all count each (reverse scope.old.items)) }
    ensures kept { OnOk result (take (length scope.old.items) scope.new.items ≡ scope.old.items) }
{
    let mut left = count;
    while left > 0 {
        left -= 1;
        scope.push(each)?;
    }
    Ok(())
}

/// Takes the nearest variables out of the scope.
pub(crate) fn leave(count: usize, scope: &mut Vec<bool>)
    ensures { reverse scope.new.items ≡ drop count (reverse scope.old.items) }
{
    let n = scope.len();
    scope.truncate(n.saturating_sub(count));
}

/// Marks the variable that has k bound nearer, if it is in scope.
pub(crate) fn mark_variable(k: u32, scope: &mut Vec<bool>)
    ensures { reverse scope.new.items ≡ marked (λ j. nat_eq k j) 0 (reverse scope.old.items) }
{
    let k = k as usize;
    let n = scope.len();
    if k < n {
        scope[n - 1 - k] = true;
    }
}
