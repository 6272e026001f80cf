//! The command `run`: a script is read, run over a file, and what its workers were answered is printed.
#![tactic(auto)]

mod command;
mod faults;
mod found;

pub use command::{RunTarget, run_command};
