//! The pure core of a store as it runs: a state, and its atomic steps one at a time.
//!
//! `core_model` defines what a state is, which step is allowed where and what it does. [`Core::apply`] does
//! exactly that, and what is in a [`Core`] is always sound. A step is first worked out as a change, for which
//! all memory is taken, and then made: so a refusal leaves the core as it was.
#![tactic(auto)]

mod act;
mod decode;
mod machine;
mod plan;
mod step;

pub use act::{Act, Picks, Step, StepFault};
pub use core_table::Content;
pub use machine::Core;
