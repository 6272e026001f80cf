//! Database files, as the store sees them: cells, stations that read and write them, and volumes
//! that make and open files by name. The cells of a volume can move between threads.
//!
//! The traits say what a caller may rely on. The kinds in memory keep everything that they say
//! visible, and fail where they are told to.
#![tactic(auto)]

mod cell;
mod file_laws;
mod laws;
mod memory;
mod station;
mod stations;
mod volume;

pub use cell::{Cell, HEADER_NUMBER};
pub use file_laws::{
    created_files_are_in, cutting_keeps_the_bytes, header_number_is_no_slots,
    kept_files_have_their_bytes, opened_cells_are_the_files, opened_cells_may_be_given_back,
    opened_slots_are_wide_and_few, peeked_headers_are_read,
};
pub use laws::{
    cells_of_one_width_add_up, now_is_a_crash_image, synced_cells_leave_one_image,
    write_keeps_the_old, write_then_read, write_then_sync,
};
pub use memory::{MemCell, MemStation, MemVolume};
pub use station::{FailedAfter, Station};
pub use stations::Stations;
pub use volume::{CreateFault, OpenFault, Opened, PeekFault, StationFault, Volume};
