//! Cells go into the places of a table, and come out again in their order. No call takes memory but that of
//! the places.
#![tactic(auto)]

mod cells;

pub use cells::{from_places, take_cells, to_places};
