//! A file is opened as a store, and the store is closed again.
#![tactic(auto)]

mod closing;
mod fault;
mod keeping;
mod opening;

pub use closing::{Counted, close_counted, close_store, closed_cells_may_be_given_back};
pub use fault::OpenStoreFault;
pub use opening::{OpenStore, open_store};
