//! The validity of programs, as contracts of functions that do nothing.

ghost use Rattle.sch_core.specs.ValidityLaws.{
  ConstantsAreOfData,
  ItemsAreDefinitions,
  ItemsAreOrdered,
  ItemsAreSmall,
  ItemsHaveConstants,
  ProgramsAreNotLarge,
  TextsAreValid,
};

/// The program of a library and a text is valid, where both are small enough and no body of it has too many
/// variables.
pub fn program_of_text_is_valid()
    ensures { TextsAreValid }
{}

/// The program of a library and a text is at most as large as the library and the text allow.
pub fn program_of_text_is_not_large()
    ensures { ProgramsAreNotLarge }
{}

/// The constants of drafts are in range, and so is what they quote, where they stand for forms of data that are.
pub fn constants_are_of_data()
    ensures { ConstantsAreOfData }
{}

/// An item of a library stands for a definition of a valid program, which is small, names itself and earlier
/// ones alone, and has the constants that its data allow.
pub fn items_are_definitions()
    ensures sound { ItemsAreDefinitions }
    ensures ordered { ItemsAreOrdered }
    ensures small { ItemsAreSmall }
    ensures constants { ItemsHaveConstants }
{}
