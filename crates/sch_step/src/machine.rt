//! A machine that runs until it exits.

ghost use Rattle.std.specs.Prelude.{◌≡◌, ◌≢◌, ℕ, List};
ghost use Rattle.sch_word.specs.declared.answer.Answer.{Answer};
ghost use Rattle.sch_insn.specs.Step.{go_on, mach};
ghost use Rattle.sch_step.specs.Run.{Does, IsAt, IsRunAt, reached_by_run};
ghost use Rattle.sch_step.specs.Machine.{core_of, standing_of, left_by_step, left_by_run, last_of, MachineSteps, MachineRuns, HasEnded, IsStill};
ghost use Rattle.sch_step.specs.declared.ends.StepEnd.{StepEnd};
ghost use Rattle.sch_step.specs.declared.ends.StepEnd.TheVariants as step_end;
ghost use Rattle.sch_step.specs.declared.ends.RunEnd.TheVariants as run_end;

use crate::ends::{RunEnd, StepEnd, Stuck};
use crate::processor::Processor;
use sch_io::Outlet;

/// A machine, which runs until it exits. It has no spare words: after a call of the kernel rcx and r11
/// are 0.
#[derive(Drop)]
pub struct Machine {
    pub(crate) processor: Processor,
    pub(crate) exited: Option<u8>,
}

impl Machine {
    /// The address of the instruction that comes next.
    pub fn at(&self) -> u64
        ensures { result ≡ (core_of self.now).place }
    {
        self.processor.at
    }
}

/// One step. A machine that has exited or is stuck answers the same again, changes nothing and writes
/// nothing.
#[inline(always)]
pub fn step<O: Outlet>(m: &mut Machine, out: &mut O) -> StepEnd
    ensures at { IsAt result (core_of m.new).place }
    ensures stands { (bytes : List ℕ) (answers : List Answer) → standing_of m.new bytes answers ≡ left_by_step result (core_of m.new) bytes answers }
    ensures did { Does (MachineSteps result m.old m.new) (O.bytes out.old) (O.bytes out.new) (O.left out.old) (O.left out.new) (O.faults out.old) (O.faults out.new) }
    ensures ended { result ≢ step_end.Ran → HasEnded m.new result }
    ensures again { (end : StepEnd) → HasEnded m.old end → result ≡ end }
    ensures still { result ≢ step_end.Ran → IsStill m.old m.new (O.bytes out.old) (O.bytes out.new) (O.left out.old) (O.left out.new) }
{
    advance(m, out)
}

#[inline(always)]
fn advance<O: Outlet>(m: &mut Machine, out: &mut O) -> StepEnd
    ensures at { IsAt result (core_of m.new).place }
    ensures stands { (bytes : List ℕ) (answers : List Answer) → standing_of m.new bytes answers ≡ left_by_step result (core_of m.new) bytes answers }
    ensures did { Does (MachineSteps result m.old m.new) (O.bytes out.old) (O.bytes out.new) (O.left out.old) (O.left out.new) (O.faults out.old) (O.faults out.new) }
{
    if let Some(status) = m.exited {
        return StepEnd::Exited(status);
    }
    let end = m.processor.step(out);
    if let StepEnd::Exited(status) = end {
        m.exited = Some(status);
    }
    end
}

/// At most this number of steps. Spent comes exactly after that many without an end. A machine that has
/// exited or is stuck answers the same again, changes nothing and writes nothing.
#[inline(always)]
pub fn run<O: Outlet>(m: &mut Machine, out: &mut O, steps: u64) -> RunEnd
    ensures at { IsRunAt result (core_of m.new).place }
    ensures stands { (bytes : List ℕ) (answers : List Answer) → standing_of m.new bytes answers ≡ left_by_run result (core_of m.new) bytes answers }
    ensures did { Does (MachineRuns steps result m.old m.new) (O.bytes out.old) (O.bytes out.new) (O.left out.old) (O.left out.new) (O.faults out.old) (O.faults out.new) }
    ensures ended { result ≢ run_end.Spent → HasEnded m.new (last_of result) }
    ensures again { (end : StepEnd) → HasEnded m.old end → last_of result ≡ end }
    ensures still { (end : StepEnd) → HasEnded m.old end → IsStill m.old m.new (O.bytes out.old) (O.bytes out.new) (O.left out.old) (O.left out.new) }
{
    advance_by(m, out, steps)
}

fn advance_by<O: Outlet>(m: &mut Machine, out: &mut O, steps: u64) -> RunEnd
    ensures at { IsRunAt result (core_of m.new).place }
    ensures stands { (bytes : List ℕ) (answers : List Answer) → standing_of m.new bytes answers ≡ left_by_run result (core_of m.new) bytes answers }
    ensures did { Does (MachineRuns steps result m.old m.new) (O.bytes out.old) (O.bytes out.new) (O.left out.old) (O.left out.new) (O.faults out.old) (O.faults out.new) }
    ensures ended { result ≢ run_end.Spent → HasEnded m.new (last_of result) }
{
    for i in 0..steps {
        match step(m, out) {
            StepEnd::Ran => {}
            StepEnd::Exited(status) => return RunEnd::Exited(status),
            StepEnd::Stuck(stuck) => return RunEnd::Stuck(stuck),
        }
    }
    rest(m)
}

/// Where a machine stands when no step is left.
fn rest(m: &mut Machine) -> RunEnd
    ensures at { IsRunAt result (core_of m.new).place }
    ensures stands { (bytes : List ℕ) (answers : List Answer) → standing_of m.new bytes answers ≡ left_by_run result (core_of m.new) bytes answers }
    ensures rested { (bytes : List ℕ) (answers : List Answer) → go_on (standing_of m.old bytes answers) (mach 0) ≡ reached_by_run result (core_of m.new) bytes answers }
    ensures ended { result ≢ run_end.Spent → HasEnded m.new (last_of result) }
{
    look(m)
}

fn look(m: &mut Machine) -> RunEnd
    ensures at { IsRunAt result (core_of m.new).place }
    ensures stands { (bytes : List ℕ) (answers : List Answer) → standing_of m.new bytes answers ≡ left_by_run result (core_of m.new) bytes answers }
    ensures rested { (bytes : List ℕ) (answers : List Answer) → go_on (standing_of m.old bytes answers) (mach 0) ≡ reached_by_run result (core_of m.new) bytes answers }
{
    if let Some(status) = m.exited {
        return RunEnd::Exited(status);
    }
    match m.processor.look() {
        Some(cause) => RunEnd::Stuck(Stuck {
            at: m.processor.at,
            cause,
        }),
        None => RunEnd::Spent,
    }
}
