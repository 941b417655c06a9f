//! Names, and what each means where it stands.
#![tactic(auto)]

mod keyword;
mod names;
mod operation;
mod scope;

pub use keyword::{Keyword, keyword_of};
pub use names::Names;
pub use operation::{Operation, operation_of, unit_of};
pub use scope::{Globals, Head, Name, Scope, head_of};
