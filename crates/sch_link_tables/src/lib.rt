//! From drafts to the core language: the tables by which globals and symbols have numbers, the literals, which
//! groups are groups of procedures, and the nodes that are made of numbered parts.
#![tactic(auto)]

mod assigned;
mod naming;
mod nodes;
mod quoting;
mod tables;

pub use assigned::is_group;
pub use naming::{name_draft, name_each};
pub use nodes::{
    bind, branch, call, call_site, constant, grouped, new_site, operation, procedure, site_unless,
};
pub use quoting::quote;
pub use tables::{Output, Table, Tables, global_key, number_in, write_global};
