//! Which of the variables in scope are assigned: a list of marks, that of the nearest variable first.

ghost use Rattle.std.specs.Prelude.{◌≡◌, nat_eq};
ghost use Rattle.sch_word.specs.trees.Assigned.{marked};

/// Marks variable k, where it is one of those that are marked, the first of which has the number `from`.
pub fn mark_one(k: usize, from: usize, marks: &mut [bool])
    ensures { marks.new ≡ marked (λ j. nat_eq k j) from marks.old }
{
    if k >= from && k - from < marks.len() {
        marks[k - from] = true;
    }
}
