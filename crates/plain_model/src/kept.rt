// What a file has for a store.
use crate::entry::{Size, Text};

/// An entry of a file that a rebuild keeps.
#[derive(Debug, Drop)]
pub struct Kept {
    pub version: u32,
    pub url: Text,
    pub key: [u8; 16],
    pub body: Text,
    /// Its first slot.
    pub first: u32,
    /// How many bytes its slots have, the metadata among them.
    pub content: Size,
}
