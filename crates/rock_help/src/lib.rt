//! What the program `rock` says to people: the help text, and the line on standard error of a run that did not end
//! well.
#![tactic(auto)]

mod help;
mod message;

pub use help::help_text;
pub use message::{Asked, DiskCause, line_of};
