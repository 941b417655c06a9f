//! The marks of each address.

ghost use Rattle.std.specs.Prelude.{◌≡◌, ◌<◌, ◌^◌, length, IfOk};
ghost use Rattle.sch_count.specs.MarkTables.{IsTable, table_marks};

use sch_asm::Mark;
use sch_word::{List, MarkKind, Mem};
use std::alloc::Global;
use std::collections::HashMap;

/// The marks of each address that has some, in their order.
#[derive(Drop)]
pub(crate) struct MarkTable {
    pub(crate) kinds: HashMap<u64, List<MarkKind>>,
}

impl MarkTable {
    pub(crate) fn new(alloc: Global, marks: &[Mark]) -> Result<MarkTable, Mem>
        ensures table { IfOk result (IsTable marks.now) }
        ensures few { IfOk result (λ _. length marks.now < 2 ^ 64) }
    {
        let mut kinds = HashMap::with_capacity(alloc, marks.len())?;
        for mark in marks {
            let mut here = kinds.remove(&mark.address).unwrap_or(List::new(alloc));
            here.push(mark.kind)?;
            kinds.insert(mark.address, here)?;
        }
        Ok(MarkTable { kinds })
    }

    /// The marks of an address.
    pub(crate) fn marks_of(&self, address: u64) -> &[MarkKind]
        ensures { result.now ≡ table_marks self.now address }
    {
        match self.kinds.get(&address) {
            Some(kinds) => kinds.as_slice(),
            None => &[],
        }
    }
}
