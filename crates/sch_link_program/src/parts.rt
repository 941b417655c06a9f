//! The parts of a program, before it is known to be valid.

ghost use Rattle.std.specs.Prelude.{◌≡◌, IsTrue};
ghost use Rattle.sch_lang.specs.ProgramView.{source};
ghost use Rattle.sch_lang.specs.Valid.{is_valid};
ghost use Rattle.sch_link_program.specs.PartsView.{parts_of};

use sch_lang::{Exp, Lambda, Program};
use sch_word::{Bytes, List, Lit};

/// The parts that a program of the core language has.
#[derive(Drop)]
pub struct Parts {
    pub symbols: List<Bytes>,
    pub literals: List<Lit>,
    pub globals: List<Option<u32>>,
    pub library: List<Lambda>,
    pub forms: List<Exp>,
    pub sites: List<u32>,
}

impl Parts {
    /// The program of parts that make a valid one.
    pub fn into_program(self) -> Program
        requires valid { IsTrue (is_valid (parts_of self)) }
        ensures { source result ≡ parts_of self }
    {
        let Parts {
            symbols,
            literals,
            globals,
            library,
            forms,
            sites,
        } = self;
        Program {
            symbols,
            literals,
            globals,
            library,
            forms,
            sites,
        }
    }
}
