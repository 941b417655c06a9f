//! What names mean.

ghost use Rattle.std.specs.Prelude.{◌≡◌, [], ◌∷◌, ◌-◌, Some, None, length, drop, OnOk};
ghost use Rattle.sch_names.specs.Scope.{find, head_of, onto};
ghost use Rattle.sch_names.specs.ScopeView.{one_name, given_names};
ghost use Rattle.sch_names.specs.HeadView.{head_view};
ghost use Rattle.sch_names.specs.NamesView.{globals_of};

use crate::keyword::{Keyword, keyword_of};
use crate::names::Names;
use crate::operation::{Operation, operation_of};
use indexmap::IndexMap;
use sch_word::Mem;
use std::alloc::Global;
use std::marker::Model;

/// A variable's name, where it has one.
pub type Name<'a> = Option<&'a [u8]>;

/// A variable that is bound, and has a name.
#[derive(Drop)]
pub(crate) struct Binding {
    name: Vec<u8>,
    /// How many variables are bound farther than the one of the same name that this one shadows.
    shadowed: Option<usize>,
}

/// The variables that are bound. A contract sees the list of their names, the nearest first.
#[derive(Drop)]
pub struct Scope {
    /// The nearest last. One that a rewriting adds has no name.
    bound: Vec<Option<Binding>>,
    /// For each name that was ever bound, how many variables are bound farther than its nearest one.
    nearest: IndexMap<Vec<u8>, Option<usize>>,
}

impl Model for Scope {
    ghost use Rattle.sch_names.specs.Scope as words;

    ghost Value = { words.Scope };

    ghost use Rattle.sch_names.specs.ScopeView.{scope_of, IsTabled};

    ghost view = { scope_of };

    ghost invariant = { IsTabled };
}

impl Scope {
    pub fn new(alloc: Global) -> Scope
        ensures { result ≡ [] }
    {
        Scope {
            bound: Vec::new(alloc),
            nearest: IndexMap::new(alloc),
        }
    }

    /// How many variables are bound.
    pub fn depth(&self) -> usize
        ensures { result ≡ length self.now }
    {
        self.bound.len()
    }

    /// The number of variables that are bound nearer than this name's.
    pub fn find(&self, x: &[u8]) -> Option<usize>
        ensures { result ≡ find self.now x.now }
    {
        if self.bound.is_empty() {
            return None;
        }
        match self.nearest.get(x).copied().flatten() {
            Some(farther) => Some(self.bound.len() - 1 - farther),
            None => None,
        }
    }

    /// Binds a variable of this name, which is then the nearest.
    fn bind_name(&mut self, alloc: Global, x: &[u8]) -> Result<(), Mem>
        ensures { OnOk result (self.new ≡ Some x.now ∷ self.old) }
    {
        let name = Vec::from_slice(alloc, x)?;
        let key = Vec::from_slice(alloc, x)?;
        let depth = self.bound.len();
        self.bound.reserve(1)?;
        let shadowed = self.nearest.insert(key, Some(depth))?.flatten();
        self.bound.push(Some(Binding { name, shadowed }))?;
        Ok(())
    }

    /// Binds a variable without a name, which is then the nearest.
    fn bind_fresh(&mut self) -> Result<(), Mem>
        ensures { OnOk result (self.new ≡ None ∷ self.old) }
    {
        self.bound.push(None)?;
        Ok(())
    }

    /// Binds a variable, which is then the nearest.
    pub fn bind(&mut self, alloc: Global, v: Name<'_>) -> Result<(), Mem>
        ensures { OnOk result (self.new ≡ one_name v.entry ∷ self.old) }
    {
        match v {
            Some(x) => self.bind_name(alloc, x),
            None => self.bind_fresh(),
        }
    }

    /// Binds variables, the last of which is then the nearest.
    pub fn bind_all(&mut self, alloc: Global, names: &[Name<'_>]) -> Result<(), Mem>
        ensures bound { OnOk result (self.new ≡ onto (given_names names.now) self.old) }
        ensures kept { OnOk result (drop (length self.new - length self.old) self.new ≡ self.old) }
    {
        for v in names {
            self.bind(alloc, *v)?;
        }
        Ok(())
    }

    /// Forgets the nearest variable.
    fn unbind(&mut self)
        ensures { self.new ≡ drop 1 self.old }
    {
        let Some(last) = self.bound.pop() else {
            return;
        };
        let Some(Binding { name, shadowed }) = last else {
            return;
        };
        // A name that is there takes no memory.
        if let Err(_) = self.nearest.insert(name, shadowed) {
            unreachable!();
        }
    }

    /// Forgets the nearest variables, so that as many are left as were bound at this depth.
    pub fn leave(&mut self, depth: usize)
        ensures { self.new ≡ drop (length self.old - depth) self.old }
    {
        while self.depth() > depth {
            self.unbind();
        }
    }
}

/// The global variables of a text.
#[derive(Drop)]
pub struct Globals {
    /// The names that there are.
    pub bound: Names,
    /// The names that the text defines or assigns: they mean no operation.
    pub own: Names,
    /// Whether the names that begin with `%` are those of operations, as in the text of a library.
    pub internal: bool,
}

/// What a combination is by the name at its head.
#[derive(Clone, Copy, Drop)]
pub enum Head {
    Form(Keyword),
    Operating(Operation),
    Calling,
}

/// What a name and the number of operands make of a combination.
pub fn head_of(globals: &Globals, scope: &Scope, x: &[u8], operands: usize) -> Head
    ensures { head_view result ≡ head_of (globals_of globals.now) scope.now x.now operands }
{
    if let Some(_) = scope.find(x) {
        return Head::Calling;
    }
    if let Some(k) = keyword_of(x) {
        return Head::Form(k);
    }
    if globals.own.contains(x) {
        return Head::Calling;
    }
    match operation_of(globals.internal, x, operands) {
        Some(o) => Head::Operating(o),
        None => Head::Calling,
    }
}
