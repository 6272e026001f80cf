//! Entries that were wiped: what it means that a pass has seen so, and that every step keeps it. The functions
//! here do nothing. What they ensure are the laws.
#![tactic(auto)]

mod laws;

pub use laws::{
    held_cells_keep_wipes, notes_learned_keep_wipes, notes_made_keep_wipes, openings_have_no_wipes,
    runs_keep_wipes, steps_keep_wipes, wiped_entries_begin_nowhere, wiped_slots_are_left_to_others,
    wiped_turns_are_seen, wiped_versions_are_not_logged, wiped_versions_are_over,
    wipes_hold_with_any_log,
};
