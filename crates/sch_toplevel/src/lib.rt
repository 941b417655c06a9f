//! From data to the drafts of top-level forms.
#![tactic(auto)]

mod assigned;
mod forms;
mod given;
mod items;
mod places;
mod texts;

pub use items::{Items, read_items};
pub use texts::{Text, read_text};
