//! What a crash leaves of a store that runs, whatever its workers do. The functions here do nothing. What they
//! ensure are laws.
#![tactic(auto)]

mod laws;

pub use laws::{
    calls_under_way_leave_pieces, closed_cells_leave_responses, closed_entries_win,
    crashes_of_stores_leave_responses, durable_entries_outlive_crashes,
    durable_slots_have_one_content, finished_entries_are_durable, finished_entries_last,
    finished_entries_outlive_crashes, kept_entries_outlive_crashes, wiped_entries_do_not_come_back,
};
