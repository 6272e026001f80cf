//! What a run of a script over a file prints, by the rules that lines keep, by the file and by the script.
//!
//! The functions here do nothing. What they ensure are laws.
#![tactic(auto)]

mod absurd;
mod crashes;
mod lawful;
mod laws;
mod served;
mod standing;

pub use absurd::{
    no_entry_has_version_0, no_fault_comes_of_no_call, no_winner_is_freed_by_refusals,
    nothing_is_full_where_the_script_fits,
};
pub use crashes::closed_runs_leave_responses;
pub use lawful::a_put_and_a_get_keep_the_rules;
pub use laws::{
    each_line_has_one_answer, lone_runs_are_answered_plainly, private_lines_are_answered_plainly,
    read_lines_are_numbered, runs_keep_the_rules, scripts_fit_into_unwritten_files,
};
pub use served::finished_runs_were_served;
pub use standing::runs_leave_standing;
