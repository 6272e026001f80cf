//! What is a complete entry of a file, and what a rebuild keeps of it, computed from whole images, slot by slot and
//! anchor by anchor, as `rebuild_model` defines them. This is slow, and for tests and for the pure core: the program
//! reads a file once, by `rock_rebuild`.
#![tactic(auto)]

mod keeping;
mod plain;

pub use keeping::rebuilt_of;
pub use plain::complete_at;
