//! What normalizing makes of a flat program, on plain trees, and its laws: it runs as the flat program does, it is
//! valid, and what is counted of it.
#![tactic(auto)]
