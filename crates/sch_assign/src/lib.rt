//! From variables that are assigned to cells: afterwards no variable is ever assigned.
#![tactic(auto)]

ghost use Rattle.std.specs.Prelude.{◌≡◌, ◌+◌, ◌*◌, ◌<◌, ◌≤◌, ◌^◌, ◌-◌, ℕ, false, length, replicate, IfOk, IsTrue};
ghost use Rattle.sch_word.specs.runs.Runs.{SameRuns};
ghost use Rattle.sch_word.specs.values.StaticsView.{statics};
ghost use Rattle.sch_cells.specs.Bodies.{bodies_of};
ghost use Rattle.sch_cells.specs.BoxedMeaning as boxed;
ghost use Rattle.sch_cells.specs.Measures.{call_sites_of, dropped_of, program_size, sites_of, tests_of, weight};
ghost use Rattle.sch_cells.specs.ProgramView.{source};
ghost use Rattle.sch_cells.specs.Covered.{is_covered_program};
ghost use Rattle.sch_cells.specs.Tree.{count_lambdas};
ghost use Rattle.sch_cells.specs.UnboxedMeaning as unboxed;
ghost use Rattle.sch_cells.specs.Valid.{bound_of};
ghost use Rattle.sch_assign.specs.Celled.{celled_in, celled_of};
ghost use Rattle.sch_assign.specs.Converted.{converted_source};
ghost use Rattle.sch_assign.specs.Table.{table};

mod conversion;
mod marking;

use crate::conversion::{convert_each, convert_lambdas};
use crate::marking::{mark_each, mark_lambdas};
use sch_cells::{Boxed, CellProgram, Unboxed};
use sch_word::{List, Mem};
use std::alloc::Global;
use std::marker::PhantomData;

/// The program in which each variable that is assigned anywhere, or belongs to a Rec, has a cell in a variable
/// of its own, and no variable is assigned. It does what `p` does.
///
/// `(lambda (x) (set! x 1) x)` -> a new cell c with the value of x, 1 into c, and what c holds.
///
/// It takes time in proportion to the size of `p` and stack in proportion to its levels.
pub fn convert_assign(alloc: Global, p: &CellProgram<Unboxed>) -> Result<CellProgram<Boxed>, Mem>
    requires few { p.now.variables + p.now.variables < 2 ^ 32 - 2 ^ 10 }
    // What converting is defined to make, with a cell for each variable that is assigned or belongs to a Rec.
    ensures made { IfOk result (λ q. source q ≡ converted_source (celled_in (source p.now)) p.now.variables (source p.now)) }
    // Under every order table, limits, answers of a kernel and number of entries it runs as `p` does.
    ensures runs { IfOk result (λ q. SameRuns (unboxed.run (source p.now)) (boxed.run (source q))) }
    // As many procedures of the library, in the same order.
    ensures library { IfOk result (λ q. count_lambdas (source q).library ≡ count_lambdas (source p.now).library) }
    ensures statics { IfOk result (λ q. statics q.statics ≡ statics p.now.statics) }
    // The cell of a variable has its number, with as many added as the numbers of `p` are below.
    ensures variables { IfOk result (λ q. q.variables ≡ p.now.variables + p.now.variables) }
    // There is one variable more for each that is assigned or belongs to a Rec.
    ensures bound { IfOk result (λ q. length (bound_of (source q)) ≡ length (bound_of (source p.now)) + celled_of (source p.now)) }
    // The sites that are listed, and those of the nodes, in the order of the text.
    ensures listed { IfOk result (λ q. q.sites ≡ p.now.sites) }
    ensures sites { IfOk result (λ q. sites_of (source q) ≡ sites_of (source p.now)) }
    ensures calls { IfOk result (λ q. call_sites_of (source q) ≡ call_sites_of (source p.now)) }
    ensures tests { IfOk result (λ q. tests_of (source q) ≡ tests_of (source p.now)) }
    ensures dropped { IfOk result (λ q. dropped_of (source q) ≤ dropped_of (source p.now)) }
    // Each body has its name, its formals, its free variables and its count of variables.
    ensures bodies { IfOk result (λ q. bodies_of (source q) ≡ bodies_of (source p.now)) }
    ensures size { IfOk result (λ q. program_size (source q) ≤ 4 * program_size (source p.now)) }
    // There is at most seven times as much work in what is made of it in the language Control as the size of `p`.
    ensures weight { IfOk result (λ q. weight (source q) ≤ 7 * program_size (source p.now)) }
    ensures covered { IfOk result (λ q. IsTrue (is_covered_program (source p.now)) → IsTrue (is_covered_program (source q))) }
{
    let celled = celled_variables(alloc, p)?;
    convert_program(alloc, p, celled.as_slice())
}

// A table in which no variable gets a cell.
fn no_cells(alloc: Global, variables: usize) -> Result<Vec<bool>, Mem>
    ensures { IfOk result (λ celled. celled.items ≡ replicate variables false) }
{
    Ok(vec![in alloc; false; variables]?)
}

// A table of the variables that get cells.
fn celled_variables(alloc: Global, p: &CellProgram<Unboxed>) -> Result<Vec<bool>, Mem>
    ensures { IfOk result (λ celled. (y : ℕ) → table celled.items y ≡ celled_in (source p.now) y) }
{
    let mut celled = no_cells(alloc, p.variables as usize)?;
    mark_lambdas(&p.library, &mut celled);
    mark_each(&p.forms, &mut celled);
    Ok(celled)
}

fn convert_program(
    alloc: Global,
    p: &CellProgram<Unboxed>,
    celled: &[bool],
) -> Result<CellProgram<Boxed>, Mem>
    requires few { p.now.variables + p.now.variables < 2 ^ 32 }
    requires celled { (y : ℕ) → table celled.now y ≡ celled_in (source p.now) y }
    ensures { IfOk result (λ q. source q ≡ converted_source (table celled.now) p.now.variables (source p.now)) }
{
    let library = convert_lambdas(alloc, celled, p.variables, &p.library)?;
    let forms = convert_each(alloc, celled, p.variables, &p.forms)?;
    let statics = p.statics.copy(alloc)?;
    let sites = List::from_slice(alloc, p.sites.as_slice())?;
    Ok(CellProgram {
        statics,
        library,
        forms,
        sites,
        variables: p.variables + p.variables,
        form: PhantomData,
    })
}
