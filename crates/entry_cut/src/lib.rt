//! How the content of an entry is cut into slots: metadata and body, joined, in pieces of as many bytes as
//! a slot has room for.
//!
//! Nothing here takes memory. A [`Cutter`] fills a page with one piece after the other,
//! [`piece_header`] and [`put_header`] make the image of its slot, and
//! [`placed_pieces_are_an_entry`] says what the pieces make where they stand in a file.
#![tactic(auto)]

mod cutter;
mod laws;
mod piece;
mod sizes;

pub use cutter::Cutter;
pub use laws::{filled_pages_are_pieces, pieces_make_the_content, placed_pieces_are_an_entry};
pub use piece::{Behind, Label, piece_header, put_header};
pub use sizes::{published, slots_needed};
