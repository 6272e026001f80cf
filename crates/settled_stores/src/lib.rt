//! What is left of a store that was closed: nothing that anyone still has to do.
#![tactic(auto)]

mod laws;

pub use laws::closed_stores_are_settled;
