//! The complete entries of a database file, found in one pass over its slots, and what a rebuild of
//! the store keeps of them.
//!
//! Each slot is read once, in order. What is kept of it is its header, and the URL where an entry may
//! begin there; these URLs lie behind one another in one buffer. Then the chains are followed from one
//! header to the next. A chain takes the headers of its slots out of the table, so time and memory grow
//! with the number of slots and no faster, whatever the slots hold.
//!
//! A rebuild finds the best entry at each anchor, copies these in order of anchors, and then tells whose
//! each slot is: its time and memory grow with slots and anchors. A tally counts what a rebuild keeps. It
//! copies no entry, no URL and no chain: of each entry it keeps three numbers, its anchor, its version and
//! how many slots it has, and sums up those of the best.
#![tactic(auto)]

mod best;
mod candidates;
mod chain;
mod chosen;
mod entries;
mod entry_head;
mod outcome;
mod owners;
mod read;
mod rebuilding;
mod scanning;
mod slots;
mod table;
mod tallying;
mod winners;

pub use outcome::{RebuildFault, Scan, Tally};
pub use rebuild_model::{Found, FoundList, Rebuilt};
pub use rebuilding::rebuild;
pub use scanning::scan;
pub use tallying::tally;
