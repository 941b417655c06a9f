//! The expander: data to a program of the core language.
#![tactic(auto)]

mod definitions;
mod error;
mod expander;
mod laws;
mod libraries;
mod library_laws;
mod limits;
mod quotable;
mod small;
mod validity;

pub use definitions::library;
pub use error::{CoreError, Kind};
pub use expander::core;
pub use laws::{
    data_have_a_program_or_an_error, data_have_one_error, data_have_one_program,
    expansion_is_unique, fault_or_expansion, text_assigns_the_names_found,
};
pub use libraries::Library;
pub use library_laws::{
    items_have_a_library_or_an_error, items_have_one_error, items_have_one_library,
};
pub use validity::{
    constants_are_of_data, items_are_definitions, program_of_text_is_not_large,
    program_of_text_is_valid,
};
