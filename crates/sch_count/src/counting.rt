//! A run, counted.

ghost use Rattle.std.specs.Prelude.{◌≡◌, ℕ, List, [], Some, All, IfSome, length};
ghost use Rattle.sch_word.specs.declared.answer.Answer.{Answer};
ghost use Rattle.sch_word.specs.declared.mark.MarkKind.{MarkKind};
ghost use Rattle.sch_step.specs.Machine.{core_of, left_by_run, standing_of};
ghost use Rattle.sch_step.specs.Run.{Does, IsRunAt};
ghost use Rattle.sch_count.specs.ActivationCounts.{AreRows};
ghost use Rattle.sch_count.specs.MarkTables.{AreKnown};
ghost use Rattle.sch_count.specs.Tallied.{IsKnown, TalliesMarks};
ghost use Rattle.sch_count.specs.TracedCounts.{CountsTo, RunsOn, TalliesTo, run_end_of, status_of};

use crate::counts::Counts;
use crate::error::CountError;
use crate::extent::Extent;
use crate::mark_table::MarkTable;
use crate::tally::Tally;
use sch_asm::Mark;
use sch_io::Outlet;
use sch_step::{Machine, RunEnd, StepEnd, run, step};
use sch_word::List;
use std::alloc::Global;

/// The status with which a run has exited, or why it has not.
fn status(end: RunEnd) -> Result<u8, CountError>
    ensures { run_end_of result ≡ Some end }
{
    match end {
        RunEnd::Exited(status) => Ok(status),
        RunEnd::Spent => Err(CountError::Spent),
        RunEnd::Stuck(stuck) => Err(CountError::Stuck(stuck)),
    }
}

impl Tally {
    /// What was counted, where the machine has exited with this status.
    fn into_counts(self, status: u8) -> Counts
        ensures rows { (marks : List MarkKind) → TalliesMarks self marks → AreRows (length self.rows.items) marks result.rows }
        ensures status { result.status ≡ status }
    {
        let Tally { rows, .. } = self;
        Counts {
            rows: List::from_vec(rows),
            status,
        }
    }

    /// Follows a machine that has not ended in at most this number of steps. The marks of an address are passed as its
    /// instruction begins. It answers the status with which the machine has exited.
    fn follow<O: Outlet>(
        &mut self,
        table: &MarkTable,
        m: &mut Machine,
        out: &mut O,
        steps: u64,
    ) -> Result<u8, CountError>
        requires fresh { TalliesMarks self.old [] }
        requires known { AreKnown (length self.old.rows.items) table.now }
        requires runs { RunsOn m.old }
        ensures rows { length self.new.rows.items ≡ length self.old.rows.items }
        ensures at { IfSome (run_end_of result) (λ end. IsRunAt end (core_of m.new).place) }
        ensures stands { IfSome (run_end_of result) (λ end. (bytes : List ℕ) (answers : List Answer) → standing_of m.new bytes answers ≡ left_by_run end (core_of m.new) bytes answers) }
        ensures did { Does (TalliesTo steps table.now self.new result m.old m.new) (O.bytes out.old) (O.bytes out.new) (O.left out.old) (O.left out.new) (O.faults out.old) (O.faults out.new) }
    {
        for i in 0..steps {
            let address = m.at();
            let marks = table.marks_of(address);
            self.pass_all(marks)?;
            match step(m, out) {
                StepEnd::Ran => {}
                StepEnd::Exited(status) => return Ok(status),
                StepEnd::Stuck(stuck) => return Err(CountError::Stuck(stuck)),
            }
        }
        status(run(m, out, 0))
    }
}

/// Counts the activations of each body in the steps of this extent, until the machine exits. The marks of an address
/// are passed as its instruction begins. After an error the machine and the outlet are as the steps that were done have
/// left them.
pub fn count<O: Outlet>(
    alloc: Global,
    m: &mut Machine,
    out: &mut O,
    marks: &[Mark],
    extent: Extent,
) -> Result<Counts, CountError>
    requires { All (λ mark. IsKnown extent.bodies mark.kind) marks.now }
    ensures at { IfSome (run_end_of (status_of result)) (λ end. IsRunAt end (core_of m.new).place) }
    ensures stands { IfSome (run_end_of (status_of result)) (λ end. (bytes : List ℕ) (answers : List Answer) → standing_of m.new bytes answers ≡ left_by_run end (core_of m.new) bytes answers) }
    ensures did { Does (CountsTo extent marks.now result m.old m.new) (O.bytes out.old) (O.bytes out.new) (O.left out.old) (O.left out.new) (O.faults out.old) (O.faults out.new) }
{
    let table = MarkTable::new(alloc, marks)?;
    let mut tally = Tally::new(alloc, extent.bodies)?;
    match run(m, out, 0) {
        RunEnd::Spent => {}
        RunEnd::Exited(status) => return Ok(tally.into_counts(status)),
        RunEnd::Stuck(stuck) => return Err(CountError::Stuck(stuck)),
    }
    let status = tally.follow(&table, m, out, extent.steps)?;
    Ok(tally.into_counts(status))
}
