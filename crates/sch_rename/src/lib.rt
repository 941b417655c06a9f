//! From the core language to the cell language: each variable gets a number of its own.
#![tactic(auto)]

ghost use Rattle.std.specs.Prelude.{◌≡◌, ◌+◌, ◌<◌, ◌^◌, ◌-◌, IfOk};
ghost use Rattle.sch_word.specs.runs.Runs.{SameRuns};
ghost use Rattle.sch_word.specs.values.StaticsView.{statics, statics_of};
ghost use Rattle.sch_lang.specs.Bodies.{bodies_of};
ghost use Rattle.sch_lang.specs.Measures.{call_sites_of, dropped_of, program_size, sites_of, tests_of, total, variables_bound};
ghost use Rattle.sch_lang.specs.ProgramView.{source};
ghost use Rattle.sch_lang.specs.Run.{run};
ghost use Rattle.sch_lang.specs.Covered.{is_covered_program};
ghost use Rattle.sch_lang.specs.Tree as tree;
ghost use Rattle.sch_cells.specs.Bodies as bodies;
ghost use Rattle.sch_cells.specs.Measures as measures;
ghost use Rattle.sch_cells.specs.ProgramView as view;
ghost use Rattle.sch_cells.specs.Tree.{count_lambdas};
ghost use Rattle.sch_cells.specs.Recursive.{recursive_in, recursive_of};
ghost use Rattle.sch_cells.specs.Covered as covered;
ghost use Rattle.sch_cells.specs.UnboxedMeaning as meaning;
ghost use Rattle.sch_rename.specs.Made.{renamed_source};

mod numbering;

use crate::numbering::{rename_each, rename_lambdas};
use sch_cells::{CellProgram, Unboxed};
use sch_lang::Program;
use sch_word::{List, Mem, Statics};
use std::alloc::Global;
use std::marker::PhantomData;

/// The program in which each variable has a number of its own: from 0 on, in the order of the text, the
/// variables of a node before those inside it. It does what `p` does.
///
/// `(let ((x 1)) (lambda (y) (+ x y)))` -> x is 0 and y is 1.
///
/// It takes time in proportion to the size of `p` and stack in proportion to its levels.
pub fn rename(alloc: Global, p: &Program) -> Result<CellProgram<Unboxed>, Mem>
    requires few { variables_bound (source p.now) < 2 ^ 32 - 2 ^ 10 }
    // The same tree, with the numbers in place of the distances.
    ensures made { IfOk result (λ q. view.source q ≡ renamed_source (source p.now)) }
    // Under every order table, limits, answers of a kernel and number of entries it runs as `p` does.
    ensures runs { IfOk result (λ q. SameRuns (run (source p.now)) (meaning.run (view.source q))) }
    // As many procedures of the library, in the same order.
    ensures library { IfOk result (λ q. count_lambdas (view.source q).library ≡ tree.count_lambdas (source p.now).library) }
    ensures statics { IfOk result (λ q. statics q.statics ≡ statics_of p.now.symbols p.now.literals p.now.globals) }
    ensures variables { IfOk result (λ q. q.variables ≡ variables_bound (source p.now)) }
    // The sites that are listed, and those of the nodes, in the order of the text.
    ensures listed { IfOk result (λ q. q.sites ≡ p.now.sites) }
    ensures sites { IfOk result (λ q. measures.sites_of (view.source q) ≡ sites_of (source p.now)) }
    ensures calls { IfOk result (λ q. measures.call_sites_of (view.source q) ≡ call_sites_of (source p.now)) }
    ensures tests { IfOk result (λ q. measures.tests_of (view.source q) ≡ tests_of (source p.now)) }
    ensures dropped { IfOk result (λ q. measures.dropped_of (view.source q) ≡ dropped_of (source p.now)) }
    // Each body has its name, its formals, its free variables and its count of variables.
    ensures bodies { IfOk result (λ q. bodies.bodies_of (view.source q) ≡ bodies_of (source p.now)) }
    ensures size { IfOk result (λ q. measures.program_size (view.source q) ≡ program_size (source p.now)) }
    // As many variables belong to a Rec.
    ensures recursive { IfOk result (λ q. recursive_of (view.source q) ≡ total recursive_in (source p.now)) }
    ensures covered { IfOk result (λ q. covered.is_covered_program (view.source q) ≡ is_covered_program (source p.now)) }
{
    rename_program(alloc, p)
}

fn rename_program(alloc: Global, p: &Program) -> Result<CellProgram<Unboxed>, Mem>
    requires few { variables_bound (source p.now) < 2 ^ 32 - 2 ^ 10 }
    ensures { IfOk result (λ q. view.source q ≡ renamed_source (source p.now)) }
{
    let mut scope = Vec::new(alloc);
    let mut next = 0;
    let library = rename_lambdas(alloc, &p.library, &mut scope, &mut next)?;
    let forms = rename_each(alloc, &p.forms, &mut scope, &mut next)?;
    let statics = Statics::from_parts(alloc, &p.symbols, &p.literals, &p.globals)?;
    let sites = List::from_slice(alloc, p.sites.as_slice())?;
    Ok(CellProgram {
        statics,
        library,
        forms,
        sites,
        variables: next,
        form: PhantomData,
    })
}
