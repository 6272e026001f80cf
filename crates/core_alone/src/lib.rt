//! Anchors that are left to one pass, which nobody else comes to: the pass knows their words, and the links of the
//! entries there. The functions here do nothing. What they ensure are the laws.
#![tactic(auto)]

mod laws;

pub use laws::{
    chains_are_known_alone, drawn_versions_rise, held_cells_keep_what_is_alone,
    links_are_known_alone, notes_learned_keep_what_is_alone, notes_made_keep_what_is_alone,
    openings_stand_alone, passes_come_to_their_own, passes_have_what_they_left, renamings_go_on,
    steps_keep_what_is_alone, what_is_alone_is_found,
};
