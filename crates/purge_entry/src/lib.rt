//! Purging an entry of the shared store, by the key of its URL: in the table alone, or on the disk too.
//!
//! The calls take no memory and do not wait. They use the inner tab of the pass alone.
#![tactic(auto)]

mod purging;
mod wiping;

pub use purging::purge;
pub use wiping::{WipeFault, Wiped, purge_durable};
