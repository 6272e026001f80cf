//! The log of pieces: each piece is logged before its slot's turn is taken, and is never forgotten, since it is
//! what passes and notes have seen. Here are the laws on what a crash may leave of a slot: the opening's
//! content, or that of a piece that was logged for it; and of a published slot whose piece is durable nothing
//! else than what is published. The functions here do nothing. What they ensure are the laws.
#![tactic(auto)]

mod laws;

pub use laws::{
    held_cells_keep_the_log, held_versions_are_not_logged, logged_pieces_are_few,
    logged_versions_stand, notes_learned_keep_the_log, notes_made_keep_the_log,
    openings_have_no_log, runs_keep_the_log, sights_are_kept, steps_keep_the_log,
};
