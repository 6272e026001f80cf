//! The commands that need no store: a report of a file is printed, a file of empty slots is made, and the header area of
//! an older file is made to record its slots.
//!
//! A report reads each slot of a file once, by one station, and gives the file back before it prints.
//! What is printed is gathered in one buffer, whose room is taken before the first line. So printing
//! wants no memory, and meets no fault but the sink's.
#![tactic(auto)]

mod create;
mod found;
mod listing;
mod migrate;
mod read;
mod recording;
mod report;
mod summary;

pub use create::create_file;
pub use migrate::migrate_file;
pub use report::{Report, print_report};
