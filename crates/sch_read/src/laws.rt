//! Laws of texts, as contracts of functions that do nothing.

ghost use Rattle.std.specs.Prelude.{◌≡◌, ◌⊎◌, ℕ, List};
ghost use Rattle.sch_read.specs.Fault.{Fault};
ghost use Rattle.sch_read.specs.Grammar.{Data};
ghost use Rattle.sch_read.specs.Text.{HasFault, Spells};

/// A text spells data or has a fault, and never both.
pub fn a_text_spells_data_or_has_a_fault()
    ensures one { (text : List ℕ) → ((xs : Data) × Spells text xs) ⊎ ((f : Fault) × HasFault text f) }
    ensures never_both { (text : List ℕ) (xs : Data) (f : Fault) → Spells text xs → HasFault text f → ⊥ }
{}

/// A text spells one list of data at most.
pub fn a_text_spells_one_list_of_data()
    ensures { (text : List ℕ) (xs ys : Data) → Spells text xs → Spells text ys → xs ≡ ys }
{}

/// A text has one fault at most.
pub fn a_text_has_one_fault()
    ensures { (text : List ℕ) (f g : Fault) → HasFault text f → HasFault text g → f ≡ g }
{}
