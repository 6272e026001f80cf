//! What holds of the plain store, whatever the script. These functions do nothing: the proof of a function
//! that calls one may use what it ensures.
#![tactic(auto)]

mod laws;

pub use laws::{
    anchors_hold_slots_of_the_file, entries_are_of_lines, fitting_scripts_have_room,
    held_slots_are_there, hits_are_whole, private_lines_are_answered_alone, stores_begin_at_rest,
    unwritten_slots_have_no_entry, unwritten_slots_open_fresh_stores, versions_are_begun_once,
    workers_are_served_alone,
};
