//! The plain store: what one worker is answered, as a model by itself. A store is a list of entries with
//! a counter and a hand; it has no words, no links and no numbers of slots.
//!
//! The definitions stand in `specs/`: `Store` says what can be read off a store, `Place` what stands at an
//! anchor, `Slots` how slots are found, `Writing` and `Reading` what requests do, `Opening` what a store is
//! on a file, and `Serving` what lines and scripts are answered. The types here are what they speak of.
#![tactic(auto)]

mod entry;
mod kept;
mod lists;
mod store;

pub use entry::{Entry, Life, Place, Size, Text};
pub use kept::Kept;
pub use lists::{Answers, Places};
pub use store::{Plain, Refusal, Setting, Tab};
