//! What a crash left of a store, told by names, and what a rebuild keeps of it: for each slot what the first file
//! has, a piece that was logged for it, or the blank content. An entry of the file is complete where all its slots
//! are the file's still, and a new one where its pieces stand one behind the other, up to a last one.
//!
//! This is slow, and for the pure core alone. The program rebuilds a store from the bytes of its file.
#![tactic(auto)]

mod contents;
mod entry;
mod keeping;
mod laws;

pub use contents::FirstContent;
pub use keeping::rebuilt_of_names;
pub use laws::named_rebuilds_may_be_opened;
