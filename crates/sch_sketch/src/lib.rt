//! Sketches and drafts: expressions of the core language whose parts are still text, and expressions whose
//! names have no numbers yet. Also what several rows of forms share: formals, names that are distinct, the
//! definitions at the head of a body, and the `letrec` of a group of bindings.
#![tactic(auto)]

mod body_heads;
mod definitions;
mod distinct;
mod draft;
mod fault;
mod formals;
mod groups;
mod procedures;
mod sketch;
mod small;
mod words;

pub use body_heads::{add_head, is_body};
pub use definitions::{defined_name, defined_sketch, is_definition};
pub use distinct::are_distinct;
pub use draft::Draft;
pub use fault::Fault;
pub use formals::{distinct_formals, parts_of};
pub use groups::{Bindings, group};
pub use sketch::{Kind, Leaf, Position, Row, Sketch, Wrong};
pub use small::{
    add_texts, alone, and_texts, bad, bind_fresh, choice, constant, either_of, fresh_each, limited,
    local, node, one, place_of, plain_call, quoted, rest, text, texts_and, texts_only, truth, two,
    unspecified,
};
pub use words::{is_lambda, word};
