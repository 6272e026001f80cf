//! What a store with one pass answers to a script, line by line and as a whole, as the plain store does.
//!
//! The functions here do nothing. What they ensure are laws.
#![tactic(auto)]

mod laws;
mod line_laws;

pub use laws::{
    closed_entries_are_complete, closed_words_are_plain, lone_runs_are_plain,
    new_passes_show_plain_stores, private_runs_are_plain, whole_entries_stand_closed,
};
pub use line_laws::{
    lone_lines_are_plain, lone_tabs_are_left_plainly, other_lines_leave_the_lot,
    private_tabs_are_left_plainly,
};
