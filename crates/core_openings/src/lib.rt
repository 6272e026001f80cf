//! What an opening of a store needs of a rebuild: of a file, or of what a crash left, told by names.
//!
//! The functions do nothing. What they ensure are the laws.
#![tactic(auto)]

mod laws;

pub use laws::{kept_openings_are_sound, kept_openings_have_no_log, rebuilds_may_be_opened};
