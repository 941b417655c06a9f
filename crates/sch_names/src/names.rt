//! Tables of names.

ghost use Rattle.std.specs.Prelude.{◌≡◌, [], length, OnOk};
ghost use Rattle.sch_names.specs.Scope.{is_among};
ghost use Rattle.sch_names.specs.NamesView.{names_of, with_name, number_of};

use indexmap::IndexSet;
use sch_word::Mem;
use std::alloc::Global;

/// Names in the order of their first occurrences, each with its number.
#[derive(Drop)]
pub struct Names {
    set: IndexSet<Vec<u8>>,
}

impl Names {
    pub fn new(alloc: Global) -> Names
        ensures { names_of result ≡ [] }
    {
        Names {
            set: IndexSet::new(alloc),
        }
    }

    /// How many names there are.
    pub fn len(&self) -> usize
        ensures { result ≡ length (names_of self.now) }
    {
        self.set.len()
    }

    /// Whether the name is among them.
    #[tactic(auto, using(crate::proofs::NameTables::among))]
    pub fn contains(&self, x: &[u8]) -> bool
        ensures { result ≡ is_among x.now (names_of self.now) }
    {
        if self.len() == 0 {
            return false;
        }
        self.set.contains(x)
    }

    /// One more name, if it is new.
    pub fn insert(&mut self, alloc: Global, x: &[u8]) -> Result<(), Mem>
        ensures { OnOk result (names_of self.new ≡ with_name x.now (names_of self.old)) }
    {
        if self.contains(x) {
            return Ok(());
        }
        let name = Vec::from_slice(alloc, x)?;
        self.set.insert_full(name)?;
        Ok(())
    }

    /// The number of a name: how many there are before it.
    pub fn number(&self, x: &[u8]) -> usize
        ensures { result ≡ number_of x.now (names_of self.now) }
    {
        match self.set.get_index_of(x) {
            Some(index) => index,
            None => self.set.len(),
        }
    }
}
