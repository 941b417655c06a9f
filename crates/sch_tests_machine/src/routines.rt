//! The run-time routines, and a program resolved with them.

ghost use Rattle.std.specs.Prelude.{IfOk};
ghost use Rattle.sch_asm.specs.Items.{AreOwn};

use sch_asm::{Asm, AsmError, ItemList, Resolved, Word, resolve};
use sch_runtime::routines;
use sch_word::{List, Mem};
use std::alloc::Global;
use std::test::Fail;

/// Where the heap ends, of which these programs take nothing.
const HEAP_END: u32 = 0x1000_1000;

/// A program resolved with the routines.
pub(crate) fn resolved(alloc: Global, program: &Asm) -> Result<Resolved, AsmError>
    requires { AreOwn program.now.items }
{
    let routines = routines(alloc, HEAP_END)?;
    resolve(alloc, program, &routines)
}

// No items, a word and a zero.
fn one_word(alloc: Global) -> Result<Asm, Mem>
    ensures { IfOk result (λ a. AreOwn a.items) }
{
    let mut words = List::new(alloc);
    words.push(Word::Fixed(258))?;
    Ok(Asm {
        items: ItemList::new(alloc),
        words,
        zeros: 8,
    })
}

// It resolved.
fn resolved_word(alloc: Global) -> Result<Resolved, AsmError> {
    let program = one_word(alloc)?;
    resolved(alloc, &program)
}

#[test]
fn routines_are_resolved(rt: HostRuntime) -> Result<(), Fail> {
    let resolved = resolved_word(rt.alloc())?;
    assert!(rt; resolved.code.len() == 339);
    assert!(rt; resolved.words.as_slice() == [2, 1, 0, 0, 0, 0, 0, 0].as_slice());
    Ok(())
}
