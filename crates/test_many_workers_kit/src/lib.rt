//! For tests of many workers at once: scripts, the rules that what the workers print must keep, and volumes whose stations
//! wait for each other, or give other bytes than were written.
#![tactic(auto)]

mod lines;
mod lying;
mod meetings;
mod offers;
mod rules;
mod tabs;

pub use lines::{Asked, Kind, WORKERS, lines_about, script_of};
pub use lying::{Liar, Lying, Veiled};
pub use meetings::{Meeting, MeetingStation, Part};
pub use offers::Offers;
pub use rules::{Judged, judge};
