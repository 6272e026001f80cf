//! Database files of the system: the edge at which the store meets the disk.
//!
//! No clause can say what the system holds, so the types here tell of a file only its shape, and of a
//! call only whether it failed. [`FileVolume`] is generic over the system, so that tests can put a made
//! one in its place.
#![tactic(auto)]

mod cause;
mod cell;
mod cell_reads;
mod lock;
mod open_files;
mod opening;
mod retried;
mod station;
mod volume;

pub use cause::{FaultCause, SaysWhy};
pub use cell::FileCell;
pub use lock::{Access, LockFile};
pub use retried::Retried;
pub use station::FileStation;
pub use volume::FileVolume;
