//! Files in memory. They tell all that they hold, and exactly the calls that are listed fail.

mod cell;
mod cutting;
mod entry;
mod file;
mod station;
mod volume;

pub use cell::MemCell;
pub use station::MemStation;
pub use volume::MemVolume;
