//! The slot size of a file: its header area records it, or it was given.
#![tactic(auto)]

mod faults;
mod finding;
mod laws;

pub use faults::status_of_find;
pub use finding::{FindFault, Looked, find_slot, look_at_header, may_be_given};
pub use laws::one_slot_is_found;
