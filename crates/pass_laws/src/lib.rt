//! What every call on a pass of the shared store says beside what it does, and the laws on it: which tabs a step
//! leaves alone, that the epochs that it answers are not older than what the pass has seen, what steps add up to,
//! what a pass knows of words, links and chains that nobody else changes, and of entries that were given up, and that a
//! pass is one of its store still.
//!
//! The functions here do nothing. What they ensure are the laws: the proof of a function that calls one may use
//! what it ensures.
#![tactic(auto)]

mod passes;
mod steps;

pub use passes::{drafts_keep_passes, lending_keeps_passes, new_passes_rest};
pub use steps::{
    chains_are_known, ends_are_known, enterings_count_and_dooms_doom, epochs_are_fresh,
    halted_links_stay_unwritten, links_are_known, quiet_calls_add_up, runs_add_up,
    steps_leave_other_tabs, words_are_known,
};
