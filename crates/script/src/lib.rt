// Editing scripts: a text with one command on a line is read into steps, or refused at a line.
#![tactic(auto)]

mod commands;
mod contracts;
mod fields;
mod numbers;
mod scripts;
mod sets;
mod words;

pub use commands::Command;
pub use scripts::{ScriptError, Step, parse_script};
pub use sets::class_set;
