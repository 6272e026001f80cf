//! What a crash leaves of an entry that was wiped: nothing that a rebuild could find. The functions here do
//! nothing. What they ensure are the laws.
#![tactic(auto)]

mod laws;

pub use laws::{
    crashes_now_are_crashes_within, lives_leave_no_wiped_entries, wiped_entries_are_gone,
    wiped_slots_are_not_of_their_entry,
};
