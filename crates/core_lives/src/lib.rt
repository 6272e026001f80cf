//! The pure core over crashes: it runs, a crash leaves each slot one of the contents that its cell may hold then,
//! and a rebuild opens it anew over what was left. So it lives on, any number of times.
#![tactic(auto)]

mod cells;
mod laws;
mod left;
mod life;
mod pieces;

pub use laws::{lives_leave_responses, lives_stay_sound};
pub use life::Life;
pub use named_rebuild::FirstContent;
