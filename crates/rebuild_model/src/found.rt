// A complete entry, as a scan tells it.
use rock_io::{Numbers, Octets};

/// A complete entry that was found.
#[derive(Debug, Drop)]
pub struct Found {
    pub first: u32,
    pub version: u32,
    pub key: [u8; 16],
    pub url: Octets,
    /// How many bytes its body has.
    pub length: u64,
    /// Its slots, in order.
    pub chain: Numbers,
}
