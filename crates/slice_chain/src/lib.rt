//! The slots of an entry in the shared store, and what names it: the halves of its key, the offer that it is
//! of, and the slot where it begins.
//!
//! None of these calls takes memory, and none but `read_slot` waits: for the turn at the slot that it reads. A tab is
//! the number of one of the nine tabs of the pass.
#![tactic(auto)]

mod cells;
mod chains;
mod links;
mod names;
mod slots;
mod victims;
mod wiping;

pub use chains::free_chain;
pub use links::{link, publish};
pub use names::{entry_key, entry_offer, name_entry};
pub use slots::{read_slot, write_slot};
pub use victims::{NoVictim, evict_one};
pub use wiping::wipe_first;
