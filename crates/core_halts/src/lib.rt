//! Entries whose writer gave up: where a pass found that such an entry goes no further, it goes no further ever
//! after. The functions here do nothing. What they ensure are the laws.
#![tactic(auto)]

mod laws;

pub use laws::{
    found_ends_stay_found, halted_entries_go_no_further, held_cells_keep_halts,
    notes_learned_keep_halts, notes_made_keep_halts, openings_have_no_halts, steps_keep_halts,
};
