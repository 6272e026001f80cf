//! A store in memory: its slots are pages of a pool.
#![tactic(auto)]

mod cell;
mod closing;
mod opening;
mod station;

pub use cell::PageCell;
pub use closing::close_mem;
pub use opening::{MemFault, open_mem};
pub use station::PageStation;
