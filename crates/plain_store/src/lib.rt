//! The plain store as a program: what one worker is answered, computed from the definitions of
//! `plain_model`. A running store is tried against it.
#![tactic(auto)]

mod laws;
mod look;
mod opening;
mod reading;
mod serving;
mod slots;
mod writing;

pub use laws::good_lines_are_servable;
pub use opening::{fresh, opened};
pub use serving::{Served, answers_of};
pub use slots::held;
