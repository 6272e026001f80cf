//! How many anchors of a table are closed, how many slots stand in their chains, and how many are free: counted in the
//! words of the table, once no thread shares it any more.
#![tactic(auto)]

mod chains;
mod counts;
mod free;

pub use counts::{SlotCounts, count_closed};
