//! Lists of steps of the pure core, and what holds along each of them.
#![tactic(auto)]

mod laws;
mod run;

pub use laws::{
    idle_runs_are_settled, offers_stand_along_runs, published_slots_hold_responses,
    runs_stay_sound, slots_are_apart_along_runs,
};
pub use run::{RunEnd, run_steps};
