//! From drafts to expressions: symbols, literals, globals and sites have their numbers.

ghost use Rattle.std.specs.Prelude.{◌≡◌, ◌<◌, ◌^◌, ◌++◌, ◌∷◌, [], true, length, drop, map, List as Listed, Option, ℕ, IfOk, OnOk};
ghost use Rattle.sch_word.specs.declared.constant.Const.TheVariants.{Symbol};
ghost use Rattle.sch_word.specs.values.LiteralView.{literal};
ghost use Rattle.sch_lang.specs.Tree as tree;
ghost use Rattle.sch_lang.specs.View.{expression, expressions_of};
ghost use Rattle.sch_read.specs.Views.{tree_of};
ghost use Rattle.sch_names.specs.NamesView.{names_of, number_of};
ghost use Rattle.sch_names.specs.ScopeView.{one_name, given_names};
ghost use Rattle.sch_sketch.specs.DraftMeasures.{size, size_each};
ghost use Rattle.sch_sketch.specs.DraftView.{draft_of, drafts_of};
ghost use Rattle.sch_link_tables.specs.Named.{global_of};
ghost use Rattle.sch_link_tables.specs.Quoted.{quotes_in, quotes_in_each};
ghost use Rattle.sch_link_tables.specs.Room.{HasRoom, has_near_variables, have_near_variables};
ghost use Rattle.sch_link_tables.specs.Sites.{widths, widths_of_each};
ghost use Rattle.sch_link_tables.specs.Constants.{HasConstants, HaveConstants};
ghost use Rattle.sch_link_tables.specs.Numbered.{first_of};
ghost use Rattle.sch_sketch.specs.Kinds.{IsCall, IsIf, IsLet, IsLetrec};
ghost use Rattle.sch_link_drafts.specs.Numbering.{HasFewNames, expression_with, expressions_with, literals_with};

use sch_lang::Exp;
use sch_link_tables::{
    Output, bind, branch, call, call_site, constant, grouped, is_group, new_site, number_in,
    operation, procedure, quote, site_unless, write_global,
};
use sch_names::{Name, Names};
use sch_read::Datum;
use sch_sketch::Draft;
use sch_word::{Const, List, Mem};
use std::alloc::Global;

/// The tables by which numbers are given: the globals of the text's own, and all globals and symbols of the
/// program.
#[derive(Clone, Copy, Drop)]
pub struct Numbers<'a> {
    pub own: &'a Names,
    pub globals: &'a Names,
    pub symbols: &'a Names,
}

/// The number of the global that a name means.
#[inline(never)]
fn global_number(tables: &Numbers<'_>, x: &[u8], out: &mut Output) -> Result<u32, Mem>
    requires names { HasFewNames tables.now }
    ensures number { IfOk result (λ n. n ≡ number_of (global_of (names_of tables.now.own.now) x.now) (names_of tables.now.globals.now)) }
    ensures sites { OnOk result (out.new.sites ≡ out.old.sites) }
    ensures literals { OnOk result (out.new.literals ≡ out.old.literals) }
{
    write_global(tables.own, x, &mut out.key)?;
    Ok(number_in(tables.globals, out.key.as_slice()))
}

/// The constant that a symbol is.
#[inline(never)]
fn symbol(tables: &Numbers<'_>, x: &[u8]) -> Exp
    requires names { HasFewNames tables.now }
    ensures { expression result ≡ tree.constant (Symbol (number_of x.now (names_of tables.now.symbols.now))) }
{
    let n = number_in(tables.symbols, x);
    Exp::Constant(Const::Symbol(n))
}

/// One more literal.
#[inline(never)]
fn new_literal(alloc: Global, tables: &Numbers<'_>, d: &Datum, out: &mut Output) -> Result<Exp, Mem>
    requires names { HasFewNames tables.now }
    requires few { length out.old.literals < 2 ^ 32 }
    ensures made { IfOk result (λ q. expression q ≡ tree.literal (length out.old.literals)) }
    ensures sites { OnOk result (out.new.sites ≡ out.old.sites) }
    ensures literals { OnOk result (map literal out.new.literals ≡ literals_with tables.now out.old (tree_of d.now ∷ [])) }
{
    let n = out.literals.len() as u32;
    let l = quote(alloc, tables.symbols, d)?;
    out.literals.push(l)?;
    Ok(Exp::Literal(n))
}

/// The name with `at` names before it, where there is one.
fn name_at<'a>(names: &[Name<'a>], at: usize) -> Name<'a>
    ensures { one_name result ≡ first_of (drop at (given_names names.now)) }
{
    match names.get(at) {
        Some(v) => *v,
        None => None,
    }
}

/// The expression of a draft that is the init of a variable of this name. Its sites and literals follow those
/// that there are.
#[cycle(numbering)]
pub fn number(
    alloc: Global,
    tables: &Numbers<'_>,
    v: Name<'_>,
    e: &Draft<'_>,
    out: &mut Output,
) -> Result<Exp, Mem>
    requires names { HasFewNames tables.now }
    requires room { HasRoom out.old (size (draft_of e.now)) }
    requires variables { has_near_variables (draft_of e.now) ≡ true }
    ensures made { IfOk result (λ q. expression q ≡ expression_with tables.now out.old (one_name v.entry) (draft_of e.now)) }
    ensures sites { OnOk result (out.new.sites ≡ out.old.sites ++ widths (draft_of e.now)) }
    ensures literals { OnOk result (map literal out.new.literals ≡ literals_with tables.now out.old (quotes_in (draft_of e.now))) }
    ensures constants { OnOk result (HasConstants (draft_of e.now)) }
{
    match e {
        Draft::Constant(c) => Ok(constant(*c)),
        Draft::Symbol(x) => Ok(symbol(tables, x)),
        Draft::Literal(d) => new_literal(alloc, tables, d, out),
        Draft::Local(k) => {
            let nearer = *k as u32;
            Ok(Exp::Local(nearer))
        }
        Draft::Global(x) => Ok(Exp::Global(global_number(tables, x, out)?)),
        Draft::SetLocal(k, e) => {
            let nearer = *k as u32;
            let value = number(alloc, tables, None, e, out)?;
            Ok(Exp::SetLocal(nearer, Box::new(alloc, value)?))
        }
        Draft::SetGlobal(x, e) => {
            let global = global_number(tables, x, out)?;
            let value = number(alloc, tables, None, e, out)?;
            Ok(Exp::SetGlobal(global, Box::new(alloc, value)?))
        }
        Draft::Define(x, e) => {
            let global = global_number(tables, x, out)?;
            let value = number(alloc, tables, Some(x), e, out)?;
            Ok(Exp::Define(global, Box::new(alloc, value)?))
        }
        Draft::If(_, _, _) => Ok(number_branch(alloc, tables, e, out)?),
        Draft::Seq(es) => Ok(Exp::Seq(number_each(alloc, tables, &[], es.as_slice(), out)?)),
        Draft::Let(_, _, _) => Ok(number_let(alloc, tables, e, out)?),
        Draft::Letrec(_, _, _, _) => Ok(number_letrec(alloc, tables, e, out)?),
        Draft::Lambda(formals, rest, e) => {
            let body = number(alloc, tables, None, e, out)?;
            let made = procedure(alloc, v, *formals, *rest, body)?;
            Ok(made)
        }
        Draft::Call(_, _, _) => Ok(number_call(alloc, tables, e, out)?),
        Draft::Prim(p, es) => {
            let site = new_site(out, es.len())?;
            let operands = number_each(alloc, tables, &[], es.as_slice(), out)?;
            Ok(operation(site, *p, operands))
        }
    }
}

/// The expression of a choice.
#[cycle(numbering)]
#[inline(never)]
fn number_branch(
    alloc: Global,
    tables: &Numbers<'_>,
    e: &Draft<'_>,
    out: &mut Output,
) -> Result<Exp, Mem>
    requires kind { IsIf (draft_of e.now) }
    requires names { HasFewNames tables.now }
    requires room { HasRoom out.old (size (draft_of e.now)) }
    requires variables { has_near_variables (draft_of e.now) ≡ true }
    ensures made { IfOk result (λ q. (v : Option (Listed ℕ)) → expression q ≡ expression_with tables.now out.old v (draft_of e.now)) }
    ensures sites { OnOk result (out.new.sites ≡ out.old.sites ++ widths (draft_of e.now)) }
    ensures literals { OnOk result (map literal out.new.literals ≡ literals_with tables.now out.old (quotes_in (draft_of e.now))) }
    ensures constants { OnOk result (HasConstants (draft_of e.now)) }
{
    let Draft::If(a, b, c) = e else {
        unreachable!();
    };
    let a = number(alloc, tables, None, a, out)?;
    let b = number(alloc, tables, None, b, out)?;
    let c = number(alloc, tables, None, c, out)?;
    let made = branch(alloc, a, b, c)?;
    Ok(made)
}

/// The expression of a `let`.
#[cycle(numbering)]
#[inline(never)]
fn number_let(
    alloc: Global,
    tables: &Numbers<'_>,
    e: &Draft<'_>,
    out: &mut Output,
) -> Result<Exp, Mem>
    requires kind { IsLet (draft_of e.now) }
    requires names { HasFewNames tables.now }
    requires room { HasRoom out.old (size (draft_of e.now)) }
    requires variables { has_near_variables (draft_of e.now) ≡ true }
    ensures made { IfOk result (λ q. (v : Option (Listed ℕ)) → expression q ≡ expression_with tables.now out.old v (draft_of e.now)) }
    ensures sites { OnOk result (out.new.sites ≡ out.old.sites ++ widths (draft_of e.now)) }
    ensures literals { OnOk result (map literal out.new.literals ≡ literals_with tables.now out.old (quotes_in (draft_of e.now))) }
    ensures constants { OnOk result (HasConstants (draft_of e.now)) }
{
    let Draft::Let(names, es, e) = e else {
        unreachable!();
    };
    let site = new_site(out, es.len())?;
    let inits = number_each(alloc, tables, names.as_slice(), es.as_slice(), out)?;
    let body = number(alloc, tables, None, e, out)?;
    let made = bind(alloc, site, inits, body)?;
    Ok(made)
}

/// The expression of a `letrec`.
#[cycle(numbering)]
#[inline(never)]
fn number_letrec(
    alloc: Global,
    tables: &Numbers<'_>,
    e: &Draft<'_>,
    out: &mut Output,
) -> Result<Exp, Mem>
    requires kind { IsLetrec (draft_of e.now) }
    requires names { HasFewNames tables.now }
    requires room { HasRoom out.old (size (draft_of e.now)) }
    requires variables { has_near_variables (draft_of e.now) ≡ true }
    ensures made { IfOk result (λ q. (v : Option (Listed ℕ)) → expression q ≡ expression_with tables.now out.old v (draft_of e.now)) }
    ensures sites { OnOk result (out.new.sites ≡ out.old.sites ++ widths (draft_of e.now)) }
    ensures literals { OnOk result (map literal out.new.literals ≡ literals_with tables.now out.old (quotes_in (draft_of e.now))) }
    ensures constants { OnOk result (HasConstants (draft_of e.now)) }
{
    let Draft::Letrec(names, procedures, es, e) = e else {
        unreachable!();
    };
    let group = is_group(alloc, *procedures, es.as_slice(), e)?;
    let site = site_unless(group, out, es.len())?;
    let inits = number_each(alloc, tables, names.as_slice(), es.as_slice(), out)?;
    let body = number(alloc, tables, None, e, out)?;
    let made = grouped(alloc, group, site, inits, body)?;
    Ok(made)
}

/// The expression of a call.
#[cycle(numbering)]
#[inline(never)]
fn number_call(
    alloc: Global,
    tables: &Numbers<'_>,
    e: &Draft<'_>,
    out: &mut Output,
) -> Result<Exp, Mem>
    requires kind { IsCall (draft_of e.now) }
    requires names { HasFewNames tables.now }
    requires room { HasRoom out.old (size (draft_of e.now)) }
    requires variables { has_near_variables (draft_of e.now) ≡ true }
    ensures made { IfOk result (λ q. (v : Option (Listed ℕ)) → expression q ≡ expression_with tables.now out.old v (draft_of e.now)) }
    ensures sites { OnOk result (out.new.sites ≡ out.old.sites ++ widths (draft_of e.now)) }
    ensures literals { OnOk result (map literal out.new.literals ≡ literals_with tables.now out.old (quotes_in (draft_of e.now))) }
    ensures constants { OnOk result (HasConstants (draft_of e.now)) }
{
    let Draft::Call(names, f, es) = e else {
        unreachable!();
    };
    let site = call_site(out, es.len())?;
    let operator = number(alloc, tables, None, f, out)?;
    let operands = number_each(alloc, tables, names.as_slice(), es.as_slice(), out)?;
    let made = call(alloc, site, operator, operands)?;
    Ok(made)
}

/// The expressions of drafts that are the inits of variables of these names; where the names end, of none.
#[cycle(numbering)]
#[inline(never)]
pub fn number_each(
    alloc: Global,
    tables: &Numbers<'_>,
    names: &[Name<'_>],
    es: &[Draft<'_>],
    out: &mut Output,
) -> Result<List<Exp>, Mem>
    requires names { HasFewNames tables.now }
    requires room { HasRoom out.old (size_each (drafts_of es.now)) }
    requires variables { have_near_variables (drafts_of es.now) ≡ true }
    ensures made { IfOk result (λ qs. expressions_of qs ≡ expressions_with tables.now out.old (given_names names.now) (drafts_of es.now)) }
    ensures sites { OnOk result (out.new.sites ≡ out.old.sites ++ widths_of_each (drafts_of es.now)) }
    ensures literals { OnOk result (map literal out.new.literals ≡ literals_with tables.now out.old (quotes_in_each (drafts_of es.now))) }
    ensures constants { OnOk result (HaveConstants (drafts_of es.now)) }
{
    let mut all = List::from_vec(Vec::with_capacity(alloc, es.len())?);
    let mut at = 0;
    for e in es {
        let v = name_at(names, at);
        let made = number(alloc, tables, v, e, out)?;
        all.push(made)?;
        at += 1;
    }
    Ok(all)
}
