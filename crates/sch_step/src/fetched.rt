//! Instructions that were fetched, kept for the next time.

ghost use Rattle.std.specs.Prelude.{◌≡◌, ◌+◌, ◌≤◌, ◌^◌, IfSome, IfOk, replicate};
ghost use Rattle.sch_insn.specs.declared.insn.Insn.TheVariants.{Cqo};
ghost use Rattle.sch_insn.specs.Spelling.{IsValid};
ghost use Rattle.sch_insn.specs.Step.{fetch as fetch_of};
ghost use Rattle.sch_step.specs.Fetched.{fetch_fixed, nothing_fetched};

use crate::processor::Processor;
use sch_code::decode;
use sch_insn::Insn;
use sch_word::Mem;
use std::alloc::Global;

/// How many instructions are kept, each at its address modulo this number. That of another address takes its place.
pub const KEPT: usize = 4096;

/// An instruction that was fetched from an address, and its length; where that is 0, there is none.
#[derive(Clone, Copy)]
pub struct Fetched {
    pub at: u64,
    pub size: usize,
    pub insn: Insn,
}

/// Room for the instructions that are kept, of which there is none yet.
pub(crate) fn none_fetched(alloc: Global) -> Result<Vec<Fetched>, Mem>
    ensures { IfOk result (λ v. v.items ≡ replicate KEPT nothing_fetched) }
{
    let none = Fetched {
        at: 0,
        size: 0,
        insn: Insn::Cqo,
    };
    Ok(vec![in alloc; none; KEPT]?)
}

impl Processor {
    ghost use Rattle.sch_step.specs.View.{core_of};

    /// The instruction that comes next, and its length, from the memory. It is kept where nothing can write over it.
    #[inline(never)]
    pub(crate) fn fetch(&mut self) -> Option<(Insn, usize)>
        ensures value { result ≡ fetch_of (core_of self.old).segments (core_of self.old).place }
        ensures same { core_of self.new ≡ core_of self.old }
        ensures valid { IfSome result (λ p. IsValid p.0) }
        ensures low { IfSome result (λ p. (core_of self.old).place + p.1 ≤ 2 ^ 47) }
    {
        let i = self.find(self.code, self.at, 1)?;
        self.code = i;
        let s = &self.segments[i];
        if !s.executable {
            return None;
        }
        let found = decode(s.tail((self.at - s.address) as usize));
        if !s.writable {
            self.keep(found);
        }
        found
    }

    /// Keeps the instruction that comes next, where there is one.
    fn keep(&mut self, found: Option<(Insn, usize)>)
        requires fixed { fetch_fixed (core_of self.old).segments (core_of self.old).place ≡ found }
        requires valid { IfSome found (λ p. IsValid p.0) }
        requires low { IfSome found (λ p. (core_of self.old).place + p.1 ≤ 2 ^ 47) }
        ensures { core_of self.new ≡ core_of self.old }
    {
        if let Some((insn, size)) = found {
            self.fetched[self.at as usize % KEPT] = Fetched {
                at: self.at,
                size,
                insn,
            };
        }
    }
}
