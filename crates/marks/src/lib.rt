//! Marks: places through which workers hand notes to one another, under a rule by which the one who finds a note
//! knows which note was set there.
#![tactic(auto)]

mod home;
mod places;
mod rule;
mod seat;
mod view;

pub use home::Home;
pub use places::Marks;
pub use seat::MarkSeat;
pub use view::View;
