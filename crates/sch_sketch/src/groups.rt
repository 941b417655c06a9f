//! The `letrec` that bodies and bindings make (R5RS 4.2.2 and 5.2.2).

ghost use Rattle.std.specs.Prelude.{◌≡◌, ◌-◌, length, drop, IfOk, OnOk};
ghost use Rattle.sch_names.specs.Scope.{onto};
ghost use Rattle.sch_names.specs.ScopeView.{given_names};
ghost use Rattle.sch_sketch.specs.Sketch as words;
ghost use Rattle.sch_sketch.specs.SketchView.{sketch_of, sketches_of, ahead};
ghost use Rattle.sch_sketch.specs.Soundness.{are_procedures};
ghost use Rattle.sch_sketch.specs.Groups as table;

use crate::procedures::are_procedures;
use crate::sketch::{Kind, Sketch};
use crate::small::node;
use sch_names::{Name, Scope};
use sch_word::{List, Mem};
use std::alloc::Global;

/// Whether sketches are procedures by their forms, inside these variables.
fn are_procedures_inside(
    alloc: Global,
    scope: &mut Scope,
    names: &[Name<'_>],
    parts: &[Sketch<'_>],
) -> Result<bool, Mem>
    ensures are { IfOk result (λ b. b ≡ are_procedures (onto (given_names names.now) scope.old) (sketches_of parts.now)) }
    ensures scope { OnOk result (scope.new ≡ scope.old) }
{
    let depth = scope.depth();
    scope.bind_all(alloc, names)?;
    let are = are_procedures(scope, parts);
    scope.leave(depth);
    Ok(are)
}

/// Variables, and their inits in the same order.
pub struct Bindings<'a> {
    pub names: List<Name<'a>>,
    pub inits: List<Sketch<'a>>,
}

/// A `letrec` of these variables, with its inits and its body.
pub fn group<'a>(
    alloc: Global,
    scope: &mut Scope,
    at: u32,
    bound: Bindings<'a>,
    last: Sketch<'a>,
) -> Result<Sketch<'a>, Mem>
    ensures made { IfOk result (λ k. (is : words.Sketches → words.Sketches) → ((ks : words.Sketches) → ahead bound.entry.inits ks ≡ is ks) →
        sketch_of k ≡ table.group scope.old (given_names bound.entry.names) at is (sketch_of last.entry)) }
    ensures scope { OnOk result (scope.new ≡ scope.old) }
{
    let Bindings { names, inits } = bound;
    let procedures = are_procedures_inside(alloc, scope, names.as_slice(), inits.as_slice())?;
    let mut parts = inits;
    parts.push(last)?;
    Ok(node(Kind::Letrec(names, procedures), at, parts))
}
