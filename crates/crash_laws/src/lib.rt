//! What a crash leaves of a state of the core whose contents are bytes. The functions here do nothing. What they
//! ensure are laws.
#![tactic(auto)]

mod laws;

pub use laws::{
    crashes_leave_responses, lives_add_responses, new_entries_outlive_crashes,
    old_entries_outlive_crashes, standing_entries_are_kept,
};
