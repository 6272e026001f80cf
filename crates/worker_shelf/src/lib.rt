//! A worker's shelf: its pass of the shared store, its station and what is kept of the script's tabs. Lines of a
//! script are served on it.
#![tactic(auto)]

mod leaving;
mod serving;
mod shelf;

pub use shelf::{ShelfRoom, WorkerShelf};
