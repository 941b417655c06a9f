//! The bodies of a program: each top-level form directly before those of its procedures.

ghost use Rattle.std.specs.Prelude.{◌≡◌, ◌+◌, ◌++◌, ◌<◌, ◌≤◌, ◌^◌, [], IsTrue, drop, length, map, IfOk, OnOk};
ghost use Rattle.std.specs.List.{list_all};
ghost use Rattle.std.specs.List.Sorted.{IsNonDecreasing};
ghost use Rattle.sch_flat.specs.Tree.{count};
ghost use Rattle.sch_flat.specs.Valid.{ascending};
ghost use Rattle.sch_flat.specs.View.{body, tree, trees_of};
ghost use Rattle.sch_control.specs.SourceView.{code_of, codes_of};
ghost use Rattle.sch_control.specs.Valid.{code_valid};
ghost use Rattle.sch_anf_laws.specs.LabelsFit.{LabelsFit, LabelsFitEach, LabelsOfBodies};
ghost use Rattle.sch_anf_laws.specs.Normal.{form_code, normal_bodies, procedure_code};

use crate::normalizing::normalize_expression;
use crate::variables::Variables;
use sch_control as control;
use sch_control::Entry;
use sch_flat::{Body, Exp};
use sch_word::{List, Mem};
use std::alloc::Global;

// The body of a procedure.
fn normalize_procedure(
    alloc: Global,
    starts: &[u32],
    b: &Body,
    v: &mut Variables,
) -> Result<control::Body, Mem>
    requires sorted { IsNonDecreasing starts.now }
    requires labels { LabelsFit (length starts.now) (tree b.now.code) }
    requires valid { IsTrue (code_valid (procedure_code starts.now (body b.now))) }
    requires none { v.old.bound.items ≡ [] }
    ensures made { IfOk result (λ q. code_of q ≡ procedure_code starts.now (body b.now)) }
    ensures none { OnOk result (v.new.bound.items ≡ []) }
{
    v.begin();
    v.bind_group(b.first, b.formals as usize)?;
    let exp = normalize_expression(alloc, starts, &b.code, true, v)?;
    v.release(0);
    let name = List::from_slice(alloc, b.name.as_slice())?;
    let entry = Entry {
        formals: b.formals,
        rest: b.rest,
        fields: b.fields,
    };
    Ok(control::Body {
        name,
        entry: Some(entry),
        variables: v.next,
        exp: Box::into_inner(exp),
    })
}

// The body of a top-level form.
fn normalize_form(
    alloc: Global,
    starts: &[u32],
    e: &Exp,
    v: &mut Variables,
) -> Result<control::Body, Mem>
    requires sorted { IsNonDecreasing starts.now }
    requires labels { LabelsFit (length starts.now) (tree e.now) }
    requires valid { IsTrue (code_valid (form_code starts.now (tree e.now))) }
    requires none { v.old.bound.items ≡ [] }
    ensures made { IfOk result (λ q. code_of q ≡ form_code starts.now (tree e.now)) }
    ensures none { OnOk result (v.new.bound.items ≡ []) }
{
    v.begin();
    let exp = normalize_expression(alloc, starts, e, false, v)?;
    let exp = control::Exp::End(exp);
    let name = List::from_slice(alloc, b"form")?;
    Ok(control::Body {
        name,
        entry: None,
        variables: v.next,
        exp,
    })
}

// Adds the bodies of some procedures.
fn add_procedures(
    alloc: Global,
    starts: &[u32],
    bodies: &[Body],
    v: &mut Variables,
    all: &mut List<control::Body>,
) -> Result<(), Mem>
    requires sorted { IsNonDecreasing starts.now }
    requires labels { LabelsOfBodies (length starts.now) (map body bodies.now) }
    requires valid { IsTrue (list_all code_valid (map (procedure_code starts.now) (map body bodies.now))) }
    requires none { v.old.bound.items ≡ [] }
    ensures made { OnOk result (codes_of all.new ≡ codes_of all.old ++ map (procedure_code starts.now) (map body bodies.now)) }
    ensures none { OnOk result (v.new.bound.items ≡ []) }
{
    for b in bodies {
        all.push(normalize_procedure(alloc, starts, b, v)?)?;
    }
    Ok(())
}

/// All bodies of a program.
pub(crate) fn normalize_bodies(
    alloc: Global,
    starts: &[u32],
    bodies: &[Body],
    forms: &List<Exp>,
) -> Result<List<control::Body>, Mem>
    requires sorted { IsNonDecreasing starts.now }
    requires few { length bodies.now + length starts.now ≤ 2 ^ 32 }
    requires starts { length starts.now ≡ count (trees_of forms.now) }
    requires ascends { IsTrue (ascending 0 (length bodies.now) starts.now) }
    requires bodies { LabelsOfBodies (length starts.now) (map body bodies.now) }
    requires forms { LabelsFitEach (length starts.now) (trees_of forms.now) }
    requires valid { IsTrue (list_all code_valid (normal_bodies starts.now 0 (map body bodies.now) (trees_of forms.now) starts.now)) }
    ensures { IfOk result (λ all. codes_of all ≡ normal_bodies starts.now 0 (map body bodies.now) (trees_of forms.now) starts.now) }
{
    let mut v = Variables::new(alloc);
    let mut all = List::from_vec(Vec::with_capacity(alloc, bodies.len() + starts.len())?);
    let mut before = 0;
    let items = forms.as_slice();
    for i in 0..items.len() {
        let place = starts[i] as usize;
        add_procedures(alloc, starts, &bodies[before..place], &mut v, &mut all)?;
        all.push(normalize_form(alloc, starts, &items[i], &mut v)?)?;
        before = place;
    }
    add_procedures(alloc, starts, &bodies[before..], &mut v, &mut all)?;
    Ok(all)
}
