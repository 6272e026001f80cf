//! What the workers of a store do, as accounts: a line that is served, the lines of a worker on its shelf, and all
//! workers of a store that was closed. And what a store that was opened over a file has of it, in these words.
//!
//! The functions here do nothing. What they ensure are laws.
#![tactic(auto)]

mod closed;
mod course;
mod openings;
mod reading;
mod saved;
mod shelves;
mod writing;

pub use closed::{crews_are_closed, faults_are_counted};
pub use course::{ends_leave, lines_add, marks_add, new_passes_track};
pub use openings::opened_stores_have_runs;
pub use reading::{closes_add, gets_add, mores_add, opens_add, purges_add, wipes_add};
pub use saved::{closed_entries_are_of_lines, saved_entries_stay_known, wiped_slots_stay_seen};
pub use shelves::shelves_have_courses;
pub use writing::{adds_add, begins_add, drops_add, ends_add, puts_add};
