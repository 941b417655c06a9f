//! Sketches that are procedures by their forms.

ghost use Rattle.std.specs.Prelude.{◌≡◌};
ghost use Rattle.sch_sketch.specs.SketchView.{kind_of, sketch_of, sketches_of};
ghost use Rattle.sch_sketch.specs.Soundness.{is_procedure_row, is_abstracting, is_procedure, are_procedures};

use crate::sketch::{Kind, Row, Sketch};
use crate::words::is_lambda;
use sch_names::{Keyword, Scope};

fn is_procedure_row(row: Row) -> bool
    ensures { result ≡ is_procedure_row row }
{
    match row {
        Row::Form(k) => match k {
            Keyword::Lambda => true,
            _ => false,
        },
        Row::Method => true,
        _ => false,
    }
}

fn is_abstracting(kind: &Kind<'_>) -> bool
    ensures { result ≡ is_abstracting (kind_of kind.now) }
{
    match kind {
        Kind::Lambda(_, _) => true,
        _ => false,
    }
}

fn is_procedure(scope: &Scope, sketch: &Sketch<'_>) -> bool
    ensures { result ≡ is_procedure scope.now (sketch_of sketch.now) }
{
    match sketch {
        Sketch::Text(d) => is_lambda(scope, d),
        Sketch::Rest(row, _, _, _) => is_procedure_row(*row),
        Sketch::Wrong(_) => true,
        Sketch::Leaf(_, _) => false,
        Sketch::Node(kind, _, _) => is_abstracting(kind),
        Sketch::Limited(_, _, _) => false,
    }
}

/// Whether all sketches are procedures by their forms, in this scope.
pub fn are_procedures(scope: &Scope, sketches: &[Sketch<'_>]) -> bool
    ensures { result ≡ are_procedures scope.now (sketches_of sketches.now) }
{
    for k in sketches {
        if !is_procedure(scope, k) {
            return false;
        }
    }
    true
}
