//! What is listed of a compiled program.

use sch_asm::Mark;
use sch_word::{Bytes, List, Place};

/// Places whose values go round as the operands of a call are moved to where they are passed: each gets what the next one
/// holds, and the last what the first holds.
#[derive(Drop)]
pub struct Cycle {
    /// The site of the call.
    pub site: u32,
    pub places: List<Place>,
}

/// What is listed of a program that is compiled.
#[derive(Drop)]
pub struct Listing {
    /// The names of its bodies: those of the library's procedures that are kept, and of the procedures in them; then
    /// `form` for each top-level form, and behind it the names of its procedures in the order of the text. A
    /// procedure that is directly the value of a definition, or of a variable of a `let`, a `letrec`, a `do` or a body,
    /// has the name of its variable, unless that was added, and any other is a `lambda`.
    pub bodies: List<Bytes>,
    /// For each site of its core program the order in which the parts of the site are evaluated (R5RS 4.1.3 leaves
    /// it open): of a call what is bound, and then the others as they are moved.
    pub orders: List<List<u32>>,
    /// The cycles among the moves of its calls, each with the site of its call (PLDI 1995, greedy shuffling).
    pub cycles: List<Cycle>,
    /// How many words of 8 bytes its largest frame has.
    pub frame_words: u32,
    /// How many instructions its text has.
    pub instructions: u64,
    /// The marks of its text, in their order: at which address the instructions of a body begin, and at which those
    /// of the call or the tail call of a site, or of a return.
    pub marks: List<Mark>,
}
