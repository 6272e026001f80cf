//! Steps at anchors, each worked out as a change: readers that look, enter, leave and doom, the counter of
//! versions, tabs that take an anchor, evict its entry and raise its stage, and the words beside it.
//!
//! Each function answers the change of a step that is allowed, and refuses one that is not. Nothing is
//! changed yet.
#![tactic(auto)]

mod counter;
mod readers;
mod recall;
mod sides;
mod tabs;
mod takers;
mod writers;

pub use counter::{count, draw};
pub use readers::{doom, enter, leave, look};
pub use sides::{load_side, store_side};
pub use takers::{evict, take};
pub use writers::raise;
