// What a rebuild keeps of a file.
use crate::FoundList;
use rock_io::Numbers;

/// What a rebuild keeps of a file.
#[derive(Debug, Drop)]
pub struct Rebuilt {
    /// The entries that are kept, in order of their anchors.
    pub winners: FoundList,
    /// For each slot 0 where it is free, and 1 more than the anchor of the entry that it is kept for.
    pub owner: Numbers,
    /// The greatest version of a sane slot, or 0 where none is.
    pub greatest: u32,
}
