//! From a core program to a control program: the passes between them one after the other.
#![tactic(auto)]

ghost use Rattle.std.specs.List.{count_by};
ghost use Rattle.std.specs.Prelude.{◌≡◌, ◌≤◌, ◌+◌, ◌*◌, ◌^◌, ℕ, length, map, nat_eq, IfOk, IsTrue};
ghost use Rattle.sch_control.specs.Covered.{is_covered_program};
ghost use Rattle.sch_control.specs.Fits.{table_fits};
ghost use Rattle.sch_control.specs.ProgramView as control_view;
ghost use Rattle.sch_control.specs.Sizes as sizes;
ghost use Rattle.sch_control.specs.Sizes.{bind_within, dropped_of, sequences_within, tests_of};
ghost use Rattle.sch_control.specs.Valid.{sites_of_each};
ghost use Rattle.sch_control.specs.Work.{codes_work};
ghost use Rattle.sch_lang.specs.Bodies.{bodies_of, most_variables};
ghost use Rattle.sch_lang.specs.Measures as measures;
ghost use Rattle.sch_lang.specs.Measures.{nodes_and_bound, program_size};
ghost use Rattle.sch_lang.specs.ProgramView.{source};
ghost use Rattle.sch_lang.specs.Tree.{count_lambdas};
ghost use Rattle.sch_word.specs.trees.Shape.{max_library};
ghost use Rattle.sch_control.specs.OrderTable.{given_table};
ghost use Rattle.sch_passes.specs.Chain.{RunsAs, control_of};

use sch_anf::normalize;
use sch_assign::convert_assign;
use sch_closure::close;
use sch_control::ControlProgram;
use sch_lang::Program;
use sch_rename::rename;
use sch_word::Mem;
use std::alloc::Global;

/// The control program of a core program: variables have numbers, assigned ones cells, procedures are records of
/// their free variables, and operands are simple.
///
/// It takes stack in proportion to the levels of `p`.
pub fn control_program(alloc: Global, p: &Program) -> Result<ControlProgram, Mem>
    // A library has at most 1,048,576 procedures.
    requires library { count_lambdas (source p.now).library ≤ max_library }
    requires small { nodes_and_bound (source p.now) ≤ 2 ^ 30 }
    // It is what the passes are defined to make, one of what the one before it made, with the parts that are bound at
    // each site of the tree.
    ensures made { IfOk result (λ q. control_view.source q ≡ control_of (source p.now)) }
    ensures runs { IfOk result (λ q. RunsAs (source p.now) (control_view.source q)) }
    // The table that lists, at each site, what is bound and then the other parts by number fits it.
    ensures fits { IfOk result (λ q. IsTrue (table_fits (control_view.source q) (given_table (control_view.source q)))) }
    // It has as many procedures of the library, in the same order.
    ensures library { IfOk result (λ q. length (control_view.source q).library ≡ count_lambdas (source p.now).library) }
    ensures statics { IfOk result (λ q. (control_view.source q).statics ≡ (source p.now).statics) }
    // No call spreads its last operand, and there are no more procedures of the library than there may be.
    ensures covered { IfOk result (λ q. IsTrue (is_covered_program (control_view.source q))) }
    // There is at most seven times as much work in it as the size of `p`.
    ensures work { IfOk result (λ q. codes_work (control_view.source q).bodies ≤ 7 * program_size (source p.now)) }
    // No body has more variables, its return address and its closure among them, than two more than the largest body
    // of `p` may need.
    ensures variables { IfOk result (λ q. sizes.most_variables (control_view.source q).bodies ≤ 2 + most_variables (source p.now)) }
    // The bodies have the names of those of `p`, in their order: the library's procedures, each followed by those
    // inside it, and then each top-level form, whose name is `form`, followed by its procedures in the order of the
    // text.
    ensures names { IfOk result (λ q. map (λ c. c.name) (control_view.source q).bodies ≡ map (λ b. b.name) (bodies_of (source p.now))) }
    // It has as many tests as `p`.
    ensures tests { IfOk result (λ q. tests_of (control_view.source q).bodies ≡ measures.tests_of (source p.now)) }
    // It drops no more atoms than `p`.
    ensures dropped { IfOk result (λ q. dropped_of (control_view.source q).bodies ≤ measures.dropped_of (source p.now)) }
    // Its nodes with a site are the calls and primitives of `p`, each site as often.
    ensures calls { IfOk result (λ q. (n : ℕ) →
        count_by (λ at. nat_eq at.0 n) (sites_of_each (control_view.source q).bodies) ≡ count_by (λ x. nat_eq x n) (measures.call_sites_of (source p.now))) }
    // Each body has at most two variables more than the body of `p` at its place may need.
    ensures each_variables { IfOk result (λ q. IsTrue (bind_within (control_view.source q).bodies (map (λ b. b.variables) (bodies_of (source p.now))))) }
    // Each body has at most as many sequences, each of which has one part before the last, as variables that the body of `p`
    // at its place may need.
    ensures sequences { IfOk result (λ q.
        IsTrue (sequences_within (control_view.source q).bodies (map (λ b. b.variables) (bodies_of (source p.now))))) }
{
    let renamed = rename(alloc, p)?;
    let converted = convert_assign(alloc, &renamed)?;
    drop(renamed);
    let flat = close(alloc, &converted)?;
    drop(converted);
    let control = normalize(alloc, &flat)?;
    Ok(control)
}
