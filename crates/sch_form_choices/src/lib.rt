//! The rows of choices, sequences and operations.
#![tactic(auto)]

mod cases;
mod choices;
mod clauses;
mod combinations;

pub use cases::{row_case, row_cases, row_tests};
pub use choices::{row_and, row_begin, row_if, row_or, row_quote};
pub use clauses::{row_clauses, row_cond};
pub use combinations::{combination, row_chain, row_join};
