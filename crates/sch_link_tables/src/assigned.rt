//! Which variables a draft assigns, and which `letrec`s are groups of procedures.

ghost use Rattle.std.specs.Prelude.{◌≡◌, ◌+◌, ◌<◌, ◌^◌, false, nat_eq, replicate, IfOk};
ghost use Rattle.sch_sketch.specs.Draft.{count};
ghost use Rattle.sch_sketch.specs.DraftMeasures.{size, size_each};
ghost use Rattle.sch_sketch.specs.DraftView.{draft_of, drafts_of};
ghost use Rattle.sch_word.specs.trees.Assigned.{marked};
ghost use Rattle.sch_link_tables.specs.Assigned.{assigns, assigns_each, is_group};
ghost use Rattle.sch_link_tables.specs.Assigned.{none_assigned, none_marked};

use sch_sketch::Draft;
use sch_word::{Mem, mark_one};
use std::alloc::Global;

/// Marks each of some variables that a draft assigns. The first of them has `from` variables bound nearer, the
/// next one more.
#[cycle(marking)]
fn mark(e: &Draft<'_>, from: usize, marks: &mut [bool])
    requires few { from + size (draft_of e.now) < 2 ^ 32 }
    ensures { marks.new ≡ marked (assigns (draft_of e.now)) from marks.old }
{
    match e {
        Draft::Constant(_) => {}
        Draft::Symbol(_) => {}
        Draft::Literal(_) => {}
        Draft::Local(_) => {}
        Draft::Global(_) => {}
        Draft::SetLocal(k, e) => {
            mark_one(*k, from, marks);
            mark(e, from, marks);
        }
        Draft::SetGlobal(_, e) => mark(e, from, marks),
        Draft::Define(_, e) => mark(e, from, marks),
        Draft::If(a, b, c) => {
            mark(a, from, marks);
            mark(b, from, marks);
            mark(c, from, marks);
        }
        Draft::Seq(es) => mark_each(es.as_slice(), from, marks),
        Draft::Let(_, es, e) => {
            mark_each(es.as_slice(), from, marks);
            let inside = from + es.len();
            mark(e, inside, marks);
        }
        Draft::Letrec(_, _, es, e) => {
            let inside = from + es.len();
            mark_each(es.as_slice(), inside, marks);
            mark(e, inside, marks);
        }
        Draft::Lambda(formals, _, e) => {
            let inside = from + *formals;
            mark(e, inside, marks);
        }
        Draft::Call(_, f, es) => {
            mark(f, from, marks);
            mark_each(es.as_slice(), from, marks);
        }
        Draft::Prim(_, es) => mark_each(es.as_slice(), from, marks),
    }
}

#[cycle(marking)]
fn mark_each(es: &[Draft<'_>], from: usize, marks: &mut [bool])
    requires few { from + size_each (drafts_of es.now) < 2 ^ 32 }
    ensures { marks.new ≡ marked (assigns_each (drafts_of es.now)) from marks.old }
{
    for e in es {
        mark(e, from, marks);
    }
}

/// Whether none is marked.
fn none_marked(marks: &[bool]) -> bool
    ensures { result ≡ none_marked marks.now }
{
    for mark in marks {
        if *mark {
            return false;
        }
    }
    true
}

/// `count` marks, none of which is set.
fn new_marks(alloc: Global, count: usize) -> Result<Vec<bool>, Mem>
    ensures { IfOk result (λ marks. marks.items ≡ replicate count false) }
{
    let marks = vec![in alloc; false; count]?;
    Ok(marks)
}

/// Whether no variable of a `letrec` is assigned in its inits or its body.
fn none_assigned(alloc: Global, es: &[Draft<'_>], e: &Draft<'_>) -> Result<bool, Mem>
    requires few { size_each (drafts_of es.now) + size (draft_of e.now) < 2 ^ 32 }
    ensures { IfOk result (λ none. none ≡ none_assigned (count (drafts_of es.now)) (drafts_of es.now) (draft_of e.now)) }
{
    let mut all = new_marks(alloc, es.len())?;
    let marks = all.as_mut_slice();
    mark_each(es, 0, marks);
    mark(e, 0, marks);
    Ok(none_marked(marks))
}

/// Whether a `letrec` is a group of procedures: each init is one by its form, and no variable is assigned. It
/// looks through the inits and the body.
pub fn is_group(
    alloc: Global,
    procedures: bool,
    es: &[Draft<'_>],
    e: &Draft<'_>,
) -> Result<bool, Mem>
    requires few { size_each (drafts_of es.now) + size (draft_of e.now) < 2 ^ 32 }
    ensures { IfOk result (λ group. group ≡ is_group procedures (drafts_of es.now) (draft_of e.now)) }
{
    if procedures {
        let none = none_assigned(alloc, es, e)?;
        return Ok(none);
    }
    Ok(false)
}
