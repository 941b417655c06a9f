//! Bodies, and how they are entered.

ghost use Rattle.std.specs.Prelude.{IsTrue};
ghost use Rattle.sch_control.specs.View.{code};
ghost use Rattle.sch_control.specs.Valid.{ended, fields_known, in_scope_whole, numbered, shaped_whole};

use crate::tree::Exp;
use sch_word::Bytes;

/// How a procedure is entered: its formals, whether the last of them takes a list of the operands that are
/// left over, and how many free variables its closure has.
#[derive(Clone, Copy)]
pub struct Entry {
    pub formals: u32,
    pub rest: bool,
    pub fields: u32,
}

/// A valid body, of a procedure, or of a top-level form, which has no entry. Each of its variables is below
/// `variables`.
#[derive(Drop)]
pub struct Body {
    pub name: Bytes,
    pub entry: Option<Entry>,
    pub variables: u32,
    pub exp: Exp<()>,
    // Each variable that is read is bound there.
    ghost scoped: { IsTrue (in_scope_whole (code name entry variables exp)) },
    // Each variable is bound once, behind the formals, and there are at most 1,002.
    ghost numbered: { IsTrue (numbered (code name entry variables exp)) },
    // Each call is bound, tested, in tail position or the last of a form, and each way through the body ends it. There is
    // no region.
    ghost ended: { IsTrue (ended (code name entry variables exp)) },
    // Operands are simple, counts are those of the primitives, and the limits on operands and formals hold.
    ghost shaped: { IsTrue (shaped_whole (code name entry variables exp)) },
    // Each field that is read is one of the closure's.
    ghost fields: { IsTrue (fields_known (code name entry variables exp)) },
}
