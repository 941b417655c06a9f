//! The tables by which numbers are given, and what is numbered so far.

ghost use Rattle.std.specs.Prelude.{◌≡◌, ◌<◌, ◌^◌, [], length, IfOk, OnOk};
ghost use Rattle.sch_names.specs.NamesView.{names_of, number_of, with_name};
ghost use Rattle.sch_link_tables.specs.Listed.{IsListed, AreListed};
ghost use Rattle.sch_link_tables.specs.Named.{global_of};

use sch_names::Names;
use sch_word::{Bytes, List, Lit, Mem};
use std::alloc::Global;

/// Names in the order of their first occurrences: a table to find their numbers in, and a list of them.
#[derive(Drop)]
pub struct Table {
    pub names: Names,
    pub list: List<Bytes>,
}

impl Table {
    pub fn new(alloc: Global) -> Table
        ensures names { names_of result.names ≡ [] }
        ensures listed { IsListed result }
    {
        Table {
            names: Names::new(alloc),
            list: List::new(alloc),
        }
    }

    /// One more name, if it is new.
    pub fn insert(&mut self, alloc: Global, x: &[u8]) -> Result<(), Mem>
        ensures names { OnOk result (names_of self.new.names ≡ with_name x.now (names_of self.old.names)) }
        ensures listed { OnOk result (IsListed self.old → IsListed self.new) }
    {
        if self.names.contains(x) {
            return Ok(());
        }
        self.names.insert(alloc, x)?;
        let name = List::from_slice(alloc, x)?;
        self.list.push(name)?;
        Ok(())
    }
}

/// The globals and the symbols of a program, in the order in which it first names them.
#[derive(Drop)]
pub struct Tables {
    pub globals: Table,
    pub symbols: Table,
    /// Room for the global that is looked up.
    pub(crate) key: Vec<u8>,
}

impl Tables {
    pub fn new(alloc: Global) -> Tables
        ensures globals { names_of result.globals.names ≡ [] }
        ensures symbols { names_of result.symbols.names ≡ [] }
        ensures listed { AreListed result }
    {
        Tables {
            globals: Table::new(alloc),
            symbols: Table::new(alloc),
            key: Vec::new(alloc),
        }
    }
}

/// The sites and the literals that have numbers: how many parts each site has, and the literals.
#[derive(Drop)]
pub struct Output {
    pub sites: List<u32>,
    pub literals: List<Lit>,
    /// Room for the global that is looked up.
    pub key: Vec<u8>,
}

impl Output {
    pub fn new(alloc: Global) -> Output
        ensures sites { result.sites ≡ [] }
        ensures literals { result.literals ≡ [] }
    {
        Output {
            sites: List::new(alloc),
            literals: List::new(alloc),
            key: Vec::new(alloc),
        }
    }
}

/// Writes the global that a name means in a text that has these of its own: the name behind a mark. It takes the
/// place of what was written there.
pub fn write_global(own: &Names, x: &[u8], key: &mut Vec<u8>) -> Result<(), Mem>
    ensures { OnOk result (key.new.items ≡ global_of (names_of own.now) x.now) }
{
    key.clear();
    if own.contains(x) {
        key.push(0)?;
    } else {
        key.push(1)?;
    }
    key.extend_from_slice(x)?;
    Ok(())
}

/// The same in a vector of its own.
pub fn global_key(alloc: Global, own: &Names, x: &[u8]) -> Result<Vec<u8>, Mem>
    ensures { IfOk result (λ key. key.items ≡ global_of (names_of own.now) x.now) }
{
    let mut key = Vec::new(alloc);
    write_global(own, x, &mut key)?;
    Ok(key)
}

/// The number of a name in a table, as one of 32 bits.
#[tactic(auto, using(crate::proofs::FewNumbers::number_within))]
pub fn number_in(table: &Names, x: &[u8]) -> u32
    requires few { length (names_of table.now) < 2 ^ 32 }
    ensures { result ≡ number_of x.now (names_of table.now) }
{
    table.number(x) as u32
}
