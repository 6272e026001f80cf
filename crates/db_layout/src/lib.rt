//! Where the slots of a database file lie: the sizes that slots may have, how many a file has, where
//! each begins, and how long a file of so many is; and how a header area records the size and the number
//! of its file's slots.
//!
//! The functions of `laws` say how these fit: a file that was made for so many slots has as many, and
//! slots lie apart and within their file. Those of `geometry_laws` say that what is recorded is read.
#![tactic(auto)]

mod geometry;
mod geometry_laws;
mod laws;
mod layout;

pub use geometry::{Geometry, read_geometry, write_geometry};
pub use geometry_laws::geometries_are_read_as_written;
pub use laws::{
    limits_are_these, made_files_have_their_slots, offsets_are_in_range, slots_are_apart,
    slots_are_whole,
};
pub use layout::{
    GREATEST_SLOT, HEADER_BYTES, LEAST_SLOT, MOST_SLOTS, file_size, offset_of, slot_size_ok,
    slots_of,
};
