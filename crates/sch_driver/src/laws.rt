//! Laws of the texts that are compiled, as contracts of functions that do nothing.

ghost use Rattle.std.specs.Prelude.{◌≡◌, ◌≤◌, ℕ, List, length};
ghost use Rattle.std.specs.List.{flat_map};
ghost use Rattle.sch_insn.specs.Spelling.{spelling};
ghost use Rattle.sch_lang.specs.Tree.{Source};
ghost use Rattle.sch_driver.specs.Assembled.{steps_of};
ghost use Rattle.sch_driver.specs.Bounds.{AreWordsOf, round_steps};
ghost use Rattle.sch_driver.specs.Causes.{IsStackTooLarge, IsTextTooLarge, Means, text_bound};
ghost use Rattle.sch_driver.specs.Compiled.{IsCompiled};
ghost use Rattle.sch_listing.specs.declared.listing.Listing.{Listing};

/// A text has at most one meaning with the text of a library.
pub fn a_text_has_one_meaning()
    ensures { (library text : List ℕ) (p q : Source) → Means library text p → Means library text q → p ≡ q }
{}

/// Of a text that means a program the words of the largest frame, and the bytes of the text of its image, are within the
/// bounds of this program, where it is compiled and where it is refused for them.
pub fn sizes_are_bounded()
    ensures words { (library text : List ℕ) (p : Source) → Means library text p
        → (heap depth : ℕ) (file : List ℕ) (listing : Listing) → IsCompiled library text heap depth file listing → AreWordsOf p listing.frame_words }
    ensures bytes { (library text : List ℕ) (p : Source) → Means library text p
        → (heap depth : ℕ) (file : List ℕ) (listing : Listing) → (c : IsCompiled library text heap depth file listing)
        → length (flat_map spelling c.is_program.does.laid_out.code) ≤ text_bound p }
    ensures refused_words { (library text : List ℕ) (p : Source) → Means library text p
        → (depth words : ℕ) → IsStackTooLarge library text depth words → AreWordsOf p words }
    ensures refused_bytes { (library text : List ℕ) (p : Source) → Means library text p
        → (depth bytes : ℕ) → IsTextTooLarge library text depth bytes → bytes ≤ text_bound p }
{}

/// The bound of steps by which a run ends is no more than the one in round numbers, however many forms there are.
pub fn steps_are_within_round_steps()
    ensures { (instructions forms entries answers charged : ℕ)
        → steps_of instructions entries answers charged ≤ round_steps instructions forms entries answers charged }
{}
