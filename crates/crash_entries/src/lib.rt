//! The complete entries of a file that a crash may leave, where each slot has what it had when the store was
//! opened, or a piece that was logged for it. The functions here do nothing. What they ensure are laws.
#![tactic(auto)]

mod laws;

pub use laws::{crash_images_have_known_entries, standing_entries_win};
