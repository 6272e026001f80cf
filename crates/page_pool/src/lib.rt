//! Pages of memory that workers share: each is free, or one seat holds it. A caller that took a page has its
//! bytes to itself until it gives the page back. No call waits, and only making a pool takes memory.
#![tactic(auto)]

mod laws;
mod page;
mod pool;
mod rule;
mod seat;
mod view;

pub use laws::{lone_seats_hold_what_is_taken, pages_are_free_or_held};
pub use page::Page;
pub use pool::{NoPage, Pool, PoolSize};
pub use seat::PoolSeat;
pub use view::View;
