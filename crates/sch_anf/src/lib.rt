//! From flat closures to control: operands become simple, and a body says where its procedure returns.
#![tactic(auto)]

ghost use Rattle.std.specs.Prelude.{◌≡◌, ◌<◌, ◌≤◌, ◌+◌, ◌-◌, ◌^◌, length, IsTrue, IfOk};
ghost use Rattle.sch_word.specs.values.StaticsView.{statics};
ghost use Rattle.sch_control.specs.Fits.{table_fits};
ghost use Rattle.sch_control.specs.ProgramView as control;
ghost use Rattle.sch_control.specs.Sizes.{dropped_of, tests_of};
ghost use Rattle.sch_control.specs.Work.{codes_work};
ghost use Rattle.sch_flat.specs.Measures as measures;
ghost use Rattle.sch_flat.specs.Measures.{weight};
ghost use Rattle.sch_flat.specs.ProgramView.{source};
ghost use Rattle.sch_flat.specs.Tree.{count};
ghost use Rattle.sch_anf_laws.specs.Counted.{BindNoMore, FewSequences};
ghost use Rattle.sch_anf_laws.specs.Kept.{SameCalls, StaysCovered};
ghost use Rattle.sch_anf_laws.specs.Normal.{normal_source};
ghost use Rattle.sch_anf_laws.specs.SameRun.{SameRun};
ghost use Rattle.sch_control.specs.OrderTable.{given_table};

mod after;
mod body;
mod normalizing;
mod operands;
mod reading;
mod simple;
mod sites;
mod steps;
mod variables;

use crate::body::normalize_bodies;
use crate::operands::new_labels;
use crate::sites::bound_parts;
use sch_control::ControlProgram;
use sch_flat::FlatProgram;
use sch_word::{List, Mem};
use std::alloc::Global;

/// The program of the language Control: what is no simple operand is bound before, from left to right, and each
/// call is bound, tested, in tail position or the last of a form. It does what `p` does.
///
/// `(f (g x) 1)` -> y is the value of `(g x)`, and then the tail call `(f y 1)`.
///
/// It takes time in proportion to the size of `p`, where a label is looked for among the places of the forms by
/// halves, and stack in proportion to the levels of `p`.
pub fn normalize(alloc: Global, p: &FlatProgram) -> Result<ControlProgram, Mem>
    // Each procedure and each form has a label.
    requires few { length (source p.now).bodies + count (source p.now).forms < 2 ^ 32 - 2 ^ 10 }
    ensures made { IfOk result (λ q. control.source q ≡ normal_source (source p.now)) }
    // Under every order table that fits it, limits, answers of a kernel and number of entries it runs as `p` does,
    // and is never wrong.
    ensures runs { IfOk result (λ q. SameRun (source p.now) (control.source q)) }
    // The table that lists, at each site, what is bound and then the other parts by number fits it.
    ensures fits { IfOk result (λ q. IsTrue (table_fits (control.source q) (given_table (control.source q)))) }
    ensures statics { IfOk result (λ q. statics q.statics ≡ statics p.now.statics) }
    ensures listed { IfOk result (λ q. q.sites ≡ p.now.sites) }
    ensures tests { IfOk result (λ q. tests_of (control.source q).bodies ≡ measures.tests_of (source p.now)) }
    // The nodes with a site are the calls and primitives of `p`.
    ensures calls { IfOk result (λ q. SameCalls (source p.now) (control.source q)) }
    // Of covered code it makes covered code.
    ensures covered { IfOk result (λ q. StaysCovered (source p.now) (control.source q)) }
    // It drops no atom: a part before the last of which only an atom is left, leaves nothing.
    ensures dropped { IfOk result (λ q. dropped_of (control.source q).bodies ≡ 0) }
    // No body has more variables than its flat body may need.
    ensures variables { IfOk result (λ q. BindNoMore (source p.now) (control.source q)) }
    // No body has more sequences, each of which has one part before the last, than the variables that its flat body may need.
    ensures sequences { IfOk result (λ q. FewSequences (source p.now) (control.source q)) }
    // There is no more work in what it makes than `p` weighs.
    ensures work { IfOk result (λ q. codes_work (control.source q).bodies ≤ weight (source p.now)) }
{
    normal_program(alloc, p)
}

fn normal_program(alloc: Global, p: &FlatProgram) -> Result<ControlProgram, Mem>
    requires few { length (source p.now).bodies + count (source p.now).forms < 2 ^ 32 - 2 ^ 10 }
    ensures { IfOk result (λ q. control.source q ≡ normal_source (source p.now)) }
{
    let starts = p.starts.as_slice();
    let flat_bodies = p.bodies.as_slice();
    let bodies = normalize_bodies(alloc, starts, flat_bodies, &p.forms)?;
    let library = new_labels(alloc, starts, p.library.as_slice())?;
    let bound = bound_parts(alloc, p)?;
    let statics = p.statics.copy(alloc)?;
    let sites = List::from_slice(alloc, p.sites.as_slice())?;
    Ok(ControlProgram {
        statics,
        library,
        bodies,
        sites,
        bound,
    })
}
