//! The command lines of the program, and the call [`rock`] that carries one out over any volume and any
//! sink.
#![tactic(auto)]

mod command;
mod top_call;

pub use top_call::rock;
