//! Commands: which words after the program's name are one, and which one.
#![tactic(auto)]

mod command;

pub use command::{Command, Compilation, SourceRun, default_limits, read_command};
