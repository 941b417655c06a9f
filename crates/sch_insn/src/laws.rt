//! The laws of spelling, as the clauses of functions that do nothing.

ghost use Rattle.std.specs.Prelude.{◌≡◌, ℕ, ◌+◌, ◌<◌, ◌≤◌, List, [], ◌++◌, length, take, Some};
ghost use Rattle.sch_insn.specs.declared.insn.Insn.{Insn};
ghost use Rattle.sch_insn.specs.Spelling.{spelling, AreBytes, IsValid, Spells};
ghost use Rattle.sch_insn.specs.Decode.{decode};
ghost use Rattle.sch_insn.specs.Machine.{State};
ghost use Rattle.sch_insn.specs.Step.{mach};
ghost use Rattle.sch_insn.specs.Path.{Path, passed, traced};

/// Each instruction has one spelling, each list of bytes is the spelling of at most one instruction,
/// and no spelling is a proper prefix of another. None is longer than the 15 bytes that a processor
/// reads as one instruction (SDM, volume 2, section 2.3.11).
pub fn spellings_are_a_prefix_code()
    ensures spelled { (i : Insn) → IsValid i → Spells i (spelling i) }
    ensures one_spelling { (i : Insn) (xs ys : List ℕ) → Spells i xs → Spells i ys → xs ≡ ys }
    ensures one_instruction { (i j : Insn) (xs : List ℕ) → Spells i xs → Spells j xs → i ≡ j }
    // what follows a spelling in a spelling is nothing
    ensures no_proper_prefix { (i j : Insn) (xs rest : List ℕ) → Spells i xs → Spells j (xs ++ rest) → rest ≡ [] }
    ensures short { (i : Insn) (xs : List ℕ) → Spells i xs → length xs ≤ 15 }
{}

/// The machine's reading of an instruction is the inverse of spelling: a spelling is read as its
/// instruction with its length, whatever follows it, and bytes that are read as an instruction begin
/// with its spelling.
pub fn reading_inverts_spelling()
    ensures reads { (i : Insn) (rest : List ℕ) → IsValid i → decode (spelling i ++ rest) ≡ Some (i, length (spelling i)) }
    ensures was_spelled { (bs : List ℕ) (i : Insn) (n : ℕ) → AreBytes bs → decode bs ≡ Some (i, n) → Spells i (take n bs) }
    ensures within { (bs : List ℕ) (i : Insn) (n : ℕ) → AreBytes bs → decode bs ≡ Some (i, n) → n ≤ length bs }
{}

/// A traced run without its trace is the bounded run. A path of as many steps begins the instructions
/// at the addresses that it passes, and what follows is the run from its end.
pub fn traces_are_of_runs()
    ensures erased { (n : ℕ) (s : State) → (traced n s).progress ≡ mach n s }
    ensures run_along { (s : State) (us : List State) (t : State) → Path s us t → (n : ℕ) → mach (length us + n) s ≡ mach n t }
    ensures trace_along { (s : State) (us : List State) (t : State) → Path s us t → (n : ℕ) → (traced (length us + n) s).trace ≡ passed s us ++ (traced n t).trace }
{}
