//! The metadata at the front of a stored object: its key, its URL and other items.
//!
//! Metadata is the byte 3, the whole length as a `u32` (lowest byte first, these five bytes
//! counted), and items up to the whole length. An item is a byte for its type, the length of its
//! value as such a `u32`, and the value. Type 3 is the key of 16 bytes, and type 4 the URL with a
//! zero byte behind it. Other types are passed over.
#![tactic(auto)]

mod fault;
mod items;
mod laws;
mod meta_head;
mod reading;
mod writing;

pub use fault::MetaFault;
pub use laws::{no_spelling_is_a_prefix, written_meta_is_spelled};
pub use reading::{Meta, read_meta};
pub use writing::{META_SIZE, write_meta};
