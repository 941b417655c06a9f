//! The variables of the body that is made, and which of them stand for the variables of the flat body.

ghost use Rattle.std.specs.Prelude.{◌≡◌, ◌+◌, ◌-◌, ◌<◌, ◌^◌, suc, [], ◌∷◌, ◌++◌, length, map, take, replicate, slice_index, IsTrue, OnOk};
ghost use Rattle.sch_flat.specs.View.{made, new_cell};
ghost use Rattle.sch_word.specs.trees.Bindings.{numbers, with_variables};
ghost use Rattle.sch_anf_laws.specs.Normal.{number_of, numbers_for, cells_scope};
ghost use Rattle.sch_anf.specs.ScopeTable.{scope_of, is_table};

use sch_flat::{Made, NewCell};
use sch_word::{List, Mem};
use std::alloc::Global;

/// A variable of the flat body in scope, its number in the new one, and the number that it had before.
#[derive(Clone, Copy)]
pub struct Binding {
    pub variable: usize,
    pub number: u32,
    pub before: u32,
}

/// The variables in scope, the last bound nearest, and the number of the next variable that is bound.
///
/// A table has the number of each, so that a variable is looked up in one step.
#[derive(Drop)]
pub struct Variables {
    pub bound: Vec<Binding>,
    pub table: Vec<u32>,
    pub next: u32,
    // The table has the nearest number of each variable in scope.
    ghost tabled: { IsTrue (is_table table.items bound.items) },
}

// The number of a variable in a table, or 0 where it has none.
fn entry(table: &[u32], x: usize) -> u32
    ensures { result ≡ slice_index table.now x }
{
    if x < table.len() { table[x] } else { 0 }
}

// Makes a table of numbers so long that a variable has a place in it.
fn lengthen(table: &mut Vec<u32>, variable: usize) -> Result<(), Mem>
    requires { variable + 1 < 2 ^ 63 }
    ensures room { OnOk result (variable < length table.new.items) }
    ensures zeros { table.new.items ≡ table.old.items ++ replicate (length table.new.items - length table.old.items) 0 }
{
    if variable >= table.len() {
        table.resize(variable + 1, 0)?;
    }
    Ok(())
}

impl Variables {
    /// Nothing in scope.
    pub fn new(alloc: Global) -> Variables
        ensures bound { result.bound.items ≡ [] }
        ensures next { result.next ≡ 2 }
    {
        Variables {
            bound: Vec::new(alloc),
            table: Vec::new(alloc),
            next: 2,
        }
    }

    /// A body begins: its first variables are the return address and the closure.
    pub fn begin(&mut self)
        ensures bound { self.new.bound.items ≡ self.old.bound.items }
        ensures next { self.new.next ≡ 2 }
    {
        self.next = 2;
    }

    /// The number of a variable in scope.
    pub fn number(&self, x: u32) -> u32
        ensures { result ≡ number_of (scope_of self.now.bound.items) x }
    {
        entry(self.table.as_slice(), x as usize)
    }

    /// A new variable.
    pub fn fresh(&mut self) -> u32
        requires { suc self.old.next < 2 ^ 32 }
        ensures number { result ≡ self.old.next }
        ensures next { self.new.next ≡ suc self.old.next }
        ensures bound { self.new.bound.items ≡ self.old.bound.items }
    {
        let number = self.next;
        self.next = number + 1;
        number
    }

    /// How many variables are in scope.
    pub fn depth(&self) -> usize
        ensures { result ≡ length self.now.bound.items }
    {
        self.bound.len()
    }

    // Makes room in the table for a variable.
    fn make_room(&mut self, variable: usize) -> Result<(), Mem>
        requires { variable + 1 < 2 ^ 63 }
        ensures room { OnOk result (variable < length self.new.table.items) }
        ensures bound { self.new.bound.items ≡ self.old.bound.items }
        ensures next { self.new.next ≡ self.old.next }
    {
        lengthen(&mut self.table, variable)
    }

    /// A variable comes into scope, with a number.
    fn bind(&mut self, variable: usize, number: u32) -> Result<(), Mem>
        requires { variable + 1 < 2 ^ 63 }
        ensures scope { OnOk result (scope_of self.new.bound.items ≡ (variable, number) ∷ scope_of self.old.bound.items) }
        ensures kept { OnOk result (take (length self.old.bound.items) self.new.bound.items ≡ self.old.bound.items) }
        ensures len { OnOk result (length self.new.bound.items ≡ suc (length self.old.bound.items)) }
        ensures next { self.new.next ≡ self.old.next }
    {
        self.make_room(variable)?;
        let before = entry(self.table.as_slice(), variable);
        self.bound.push(Binding {
            variable,
            number,
            before,
        })?;
        self.table[variable] = number;
        Ok(())
    }

    // A variable comes into scope, and has a new number.
    fn bind_new(&mut self, variable: usize) -> Result<(), Mem>
        requires room { variable + 1 < 2 ^ 63 }
        requires few { suc self.old.next < 2 ^ 32 }
        ensures scope { OnOk result (scope_of self.new.bound.items ≡ (variable, self.old.next) ∷ scope_of self.old.bound.items) }
        ensures kept { OnOk result (take (length self.old.bound.items) self.new.bound.items ≡ self.old.bound.items) }
        ensures len { OnOk result (length self.new.bound.items ≡ suc (length self.old.bound.items)) }
        ensures next { self.new.next ≡ suc self.old.next }
    {
        let number = self.fresh();
        self.bind(variable, number)
    }

    /// New variables for a group of the flat body.
    pub fn bind_group(&mut self, first: u32, count: usize) -> Result<(), Mem>
        requires { self.old.next + count < 2 ^ 32 }
        ensures scope { OnOk result (scope_of self.new.bound.items ≡
            with_variables first (numbers self.old.next count) (scope_of self.old.bound.items)) }
        ensures kept { OnOk result (take (length self.old.bound.items) self.new.bound.items ≡ self.old.bound.items) }
        ensures next { OnOk result (self.new.next ≡ self.old.next + count) }
    {
        for place in 0..count {
            self.bind_new(first as usize + place)?;
        }
        Ok(())
    }

    /// These numbers for a group of the flat body.
    pub fn bind_each(&mut self, first: u32, numbers: &List<u32>) -> Result<(), Mem>
        ensures scope { OnOk result (scope_of self.new.bound.items ≡ with_variables first numbers.now (scope_of self.old.bound.items)) }
        ensures kept { OnOk result (take (length self.old.bound.items) self.new.bound.items ≡ self.old.bound.items) }
        ensures next { OnOk result (self.new.next ≡ self.old.next) }
    {
        let numbers = numbers.as_slice();
        for place in 0..numbers.len() {
            self.bind(first as usize + place, numbers[place])?;
        }
        Ok(())
    }

    /// New variables for a group of closures.
    pub fn bind_closures(&mut self, first: u32, closures: &List<Made>) -> Result<(), Mem>
        requires { self.old.next + length (map made closures.now) < 2 ^ 32 }
        ensures scope { OnOk result (scope_of self.new.bound.items ≡
            with_variables first (numbers_for (map made closures.now) self.old.next) (scope_of self.old.bound.items)) }
        ensures kept { OnOk result (take (length self.old.bound.items) self.new.bound.items ≡ self.old.bound.items) }
        ensures next { OnOk result (self.new.next ≡ self.old.next + length (map made closures.now)) }
    {
        self.bind_group(first, closures.len())
    }

    /// New variables for those of new cells.
    pub fn bind_cells(&mut self, cells: &List<NewCell>) -> Result<(), Mem>
        requires { self.old.next + length (map new_cell cells.now) < 2 ^ 32 }
        ensures scope { OnOk result (scope_of self.new.bound.items ≡
            cells_scope (map new_cell cells.now) self.old.next (scope_of self.old.bound.items)) }
        ensures kept { OnOk result (take (length self.old.bound.items) self.new.bound.items ≡ self.old.bound.items) }
        ensures next { OnOk result (self.new.next ≡ self.old.next + length (map new_cell cells.now)) }
    {
        for cell in cells.as_slice() {
            self.bind_new(cell.variable as usize)?;
        }
        Ok(())
    }

    // The variable that was bound last leaves the scope.
    fn release_last(&mut self)
        ensures bound { self.new.bound.items ≡ take (length self.old.bound.items - 1) self.old.bound.items }
        ensures next { self.new.next ≡ self.old.next }
    {
        if let Some(last) = self.bound.pop() {
            self.table[last.variable] = last.before;
        }
    }

    /// All variables but the first of the scope leave it.
    pub fn release(&mut self, depth: usize)
        ensures bound { self.new.bound.items ≡ take depth self.old.bound.items }
        ensures next { self.new.next ≡ self.old.next }
    {
        while self.bound.len() > depth {
            self.release_last();
        }
    }
}
