//! Entries that were wiped, along lists of steps, crashes and rebuilds of the pure core. The functions here do
//! nothing. What they ensure are the laws.
#![tactic(auto)]

mod laws;

pub use laws::{lives_keep_wipes, lives_leave_nothing_wiped};
