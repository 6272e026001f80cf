//! Workers: each serves its lines of a script on a shelf of its own, on threads, and they tell one another what they
//! know at marks.
#![tactic(auto)]

mod crew;
mod gate;
mod laws;
mod meeting;
mod notes;
mod run;
mod serving;
mod setters;
mod worker;

pub use gate::{Gate, OpenGate};
pub use laws::scripts_may_be_run;
pub use notes::Of;
pub use run::{Ran, run_workers};
