//! Random walks of the core, for tests: the stores over which they go, and the step that a pass tries next.
#![tactic(auto)]

mod choice;
mod freeing;
pub mod kinds;
mod random;
mod reading;
mod store;
mod straying;
mod table;
mod writing;

pub use choice::{Seat, calm_of, choose, inner_tab, next_seat, tab_of};
pub use freeing::has_room;
pub use random::Numbers;
pub use store::{STORE, STORES_THAT_FIT, Store, core_of};
pub use table::{beside, chain_of, hold_of, is_taken, published_at, start_number, word_at};

/// The anchors that walks are about, and the passes that take part. A store may have more of both.
pub const ANCHORS: u32 = 2;

pub const PASSES: u32 = 3;

/// The slots of a store that are free for these.
pub const SLOTS: u32 = 4;
