//! From cells to flat closures: a procedure becomes a record of the values of its free variables.
#![tactic(auto)]

ghost use Rattle.std.specs.Prelude.{◌≡◌, ◌<◌, ◌+◌, ◌^◌, ◌-◌, length, map, IfOk, IsTrue};
ghost use Rattle.sch_word.specs.runs.Runs.{SameRuns};
ghost use Rattle.sch_word.specs.values.StaticsView.{statics};
ghost use Rattle.sch_cells.specs.Bodies.{bodies_of};
ghost use Rattle.sch_cells.specs.BoxedMeaning.{run};
ghost use Rattle.sch_cells.specs.ProgramView.{source};
ghost use Rattle.sch_cells.specs.Measures.{call_sites_of, dropped_of, program_size, sites_of, tests_of, weight};
ghost use Rattle.sch_cells.specs.Covered.{is_covered_program};
ghost use Rattle.sch_cells.specs.Tree.{count_lambdas};
ghost use Rattle.sch_cells.specs.View.{trees_of as trees};
ghost use Rattle.sch_flat.specs.Measures as measures;
ghost use Rattle.sch_flat.specs.ProgramView as view;
ghost use Rattle.sch_flat.specs.Run as meaning;
ghost use Rattle.sch_flat.specs.Tree.{count};
ghost use Rattle.sch_flat.specs.Covered as covered;
ghost use Rattle.sch_flat.specs.View.{body, made, trees_of};
ghost use Rattle.sch_closure.specs.Closed.{closed_source};
ghost use Rattle.sch_closure.specs.Kept.{SameItems, flat_forms, forms_in, procedure_of, procedures_in};

mod closing;
mod gathering;

use crate::closing::{close_forms, close_lambdas};
use crate::gathering::find_fields;
use sch_cells::{Boxed, CellProgram};
use sch_flat::{FlatProgram, Made};
use sch_word::{List, Mem};
use std::alloc::Global;

/// The program of flat closures: each procedure is a record of the values of its free variables, and the bodies
/// of all procedures stand in one list, outer before inner, in the order of the text. It does what `p` does.
///
/// `(lambda (x) (lambda (y) x))` -> body 0 makes a record of body 1 with x, and body 1 takes its field 0.
///
/// A variable takes time in proportion to the free variables of its procedure, and the walk takes stack in
/// proportion to the levels of `p`.
pub fn close(alloc: Global, p: &CellProgram<Boxed>) -> Result<FlatProgram, Mem>
    requires few { length (bodies_of (source p.now)) < 2 ^ 32 - 2 ^ 10 }
    // What closing is defined to make: the bodies in the order of the text, and for each form where its own begin.
    ensures made { IfOk result (λ q. view.source q ≡ closed_source (source p.now)) }
    // Under every order table, limits, answers of a kernel and number of entries it runs as `p` does.
    ensures runs { IfOk result (λ q. SameRuns (run (source p.now)) (meaning.run (view.source q))) }
    // As many procedures of the library, in the same order.
    ensures library { IfOk result (λ q. length q.library ≡ count_lambdas (source p.now).library) }
    ensures statics { IfOk result (λ q. statics q.statics ≡ statics p.now.statics) }
    // The sites that are listed, and those of the nodes, which stand in another order.
    ensures listed { IfOk result (λ q. q.sites ≡ p.now.sites) }
    ensures sites { IfOk result (λ q. SameItems (sites_of (source p.now)) (measures.sites_of (view.source q))) }
    ensures calls { IfOk result (λ q. SameItems (call_sites_of (source p.now)) (measures.call_sites_of (view.source q))) }
    ensures tests { IfOk result (λ q. measures.tests_of (view.source q) ≡ tests_of (source p.now)) }
    ensures dropped { IfOk result (λ q. measures.dropped_of (view.source q) ≡ dropped_of (source p.now)) }
    // Each body has its name, its formals, its free variables as fields and its count of variables.
    ensures bodies { IfOk result (λ q. map procedure_of (map body q.bodies) ≡ procedures_in (source p.now)) }
    ensures forms { IfOk result (λ q. flat_forms (trees_of q.forms) ≡ forms_in (trees p.now.forms)) }
    // Procedures and forms are together as many as the bodies of `p`.
    ensures count { IfOk result (λ q. length (view.source q).bodies + count (view.source q).forms ≡ length (bodies_of (source p.now))) }
    ensures size { IfOk result (λ q. measures.program_size (view.source q) ≡ program_size (source p.now)) }
    // It weighs what `p` does.
    ensures weight { IfOk result (λ q. measures.weight (view.source q) ≡ weight (source p.now)) }
    ensures covered { IfOk result (λ q. IsTrue (is_covered_program (source p.now))
        → IsTrue (covered.is_covered_program (view.source q))) }
{
    close_program(alloc, p)
}

fn close_program(alloc: Global, p: &CellProgram<Boxed>) -> Result<FlatProgram, Mem>
    requires few { length (bodies_of (source p.now)) < 2 ^ 32 - 2 ^ 10 }
    ensures { IfOk result (λ q. view.source q ≡ closed_source (source p.now)) }
{
    let fields = find_fields(alloc, &p.library, &p.forms)?;
    let mut bodies = Vec::with_capacity(alloc, fields.len())?;
    let records = close_lambdas(alloc, &p.library, &[], fields.as_slice(), &mut bodies)?;
    let library = labels_of(alloc, records.as_slice())?;
    let mut starts = List::from_vec(Vec::with_capacity(alloc, p.forms.len())?);
    let forms = close_forms(alloc, &p.forms, fields.as_slice(), &mut bodies, &mut starts)?;
    let statics = p.statics.copy(alloc)?;
    let sites = List::from_slice(alloc, p.sites.as_slice())?;
    Ok(FlatProgram {
        statics,
        library,
        bodies: List::from_vec(bodies),
        forms,
        starts,
        sites,
    })
}

// The labels of some records.
fn labels_of(alloc: Global, ms: &[Made]) -> Result<List<u32>, Mem>
    ensures { IfOk result (λ all. all ≡ map (λ m. m.label) (map made ms.now)) }
{
    let mut all = List::from_vec(Vec::with_capacity(alloc, ms.len())?);
    for m in ms {
        all.push(m.label)?;
    }
    Ok(all)
}
