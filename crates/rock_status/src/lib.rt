//! How a run of the program ends, and the exit status that stands for it.
#![tactic(auto)]

mod status;

pub use status::Status;
