//! One slot of a database file: a header of 40 bytes, a payload, and zeros to the slot's end.
#![tactic(auto)]

mod header;
mod image;
mod laws;

pub use header::{GREATEST_VERSION, HEADER_SIZE, Header};
pub use image::{build_image, read_image};
pub use laws::{headers_are_read_as_written, images_are_read_as_built, limits_are_these};
