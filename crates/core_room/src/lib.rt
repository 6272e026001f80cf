//! Room: where the most that each anchor ever holds is together no more than a store has, there is a free slot
//! at every moment for each tab that searches for one, however workers interleave. Here are the definitions of
//! a store that fits, of room, and of the conditions that steps meet there, and the laws that room is kept. The
//! functions here do nothing. What they ensure are the laws.
#![tactic(auto)]

mod laws;

pub use laws::{
    held_cells_keep_room, no_search_passes_all_slots, notes_learned_keep_room,
    notes_made_keep_room, opened_stores_have_room, steps_keep_room,
};
