//! Faults that are reported.

ghost use Rattle.std.specs.Prelude.{◌≡◌, ◌+◌, ◌<◌, ◌≤◌, true, false, nat_le, MatchOption, OnOk};
ghost use Rattle.sch_word.specs.trees.Shape.{max_levels, max_operands};
ghost use Rattle.sch_sketch.specs.declared.fault.Fault.TheVariants.{Core};
ghost use Rattle.sch_sketch.specs.SketchView.{fault_of};
ghost use Rattle.sch_expansion.specs.FaultOrder.{reported, all_reported};
ghost use Rattle.sch_expansion.specs.Reads.{level_faults, operand_faults};

use crate::fault_order::report;
use sch_sketch::{Fault, Wrong};
use sch_word::{List, Mem};
use std::alloc::Global;

/// The most levels of expressions.
const MAX_LEVELS: u32 = 2000;

/// The most operands, formals or bindings of one form.
const MAX_OPERANDS: usize = 200;

/// The next level, where this one lies within the limit.
pub(crate) fn deeper(level: u32) -> Option<u32>
    ensures { MatchOption result (nat_le level max_levels ≡ false) (λ next. (nat_le level max_levels ≡ true) × (next ≡ level + 1)) }
{
    if level <= MAX_LEVELS {
        Some(level + 1)
    } else {
        None
    }
}

pub(crate) fn report_level(level: u32, at: u32, fault: &mut Option<Fault>)
    ensures { fault.new ≡ all_reported (level_faults level at) fault.old }
{
    if level > MAX_LEVELS {
        report(fault, Fault::Core(at));
    }
}

pub(crate) fn report_operands(at: u32, count: usize, fault: &mut Option<Fault>)
    ensures { fault.new ≡ all_reported (operand_faults at count) fault.old }
{
    if count > MAX_OPERANDS {
        report(fault, Fault::Operands(at));
    }
}

/// A node that lies too deep.
pub(crate) fn report_deep(at: u32, fault: &mut Option<Fault>)
    ensures { fault.new ≡ reported (Core at) fault.old }
{
    report(fault, Fault::Core(at));
}

pub(crate) fn report_wrong(
    alloc: Global,
    wrong: Wrong<'_>,
    fault: &mut Option<Fault>,
) -> Result<(), Mem>
    ensures { OnOk result (fault.new ≡ reported (fault_of wrong.entry) fault.old) }
{
    let f = match wrong {
        Wrong::KeywordDefined(at) => Fault::KeywordDefined(at),
        Wrong::BadForm(at) => Fault::BadForm(at),
        Wrong::Unbound(at, x) => Fault::Unbound(at, List::from_slice(alloc, x)?),
    };
    report(fault, f);
    Ok(())
}
