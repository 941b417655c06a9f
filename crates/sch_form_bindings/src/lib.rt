//! The rows of forms that bind variables: `let`, `let*`, `letrec`, a `let` with a name, and `do`.
#![tactic(auto)]

mod binders;
mod loops;
mod shape;

pub use binders::{row_let, row_let_star, row_letrec, row_nest};
pub use loops::row_do;
