// What a call that reads on answers.
use lock_word::Epoch;

/// What a tab was given by reading on, or why nothing.
#[derive(Clone, Copy, Debug, PartialEq, Eq)]
pub enum More {
    /// `count` bytes were given, which are what the next slot adds to the body. The first slot may add none.
    Piece { count: usize },
    /// The next slot is not published yet. The entry was found to grow, at this epoch.
    NotYet { epoch: Epoch },
    /// The whole body was given.
    End,
    /// The writer gave up, and what it published was given.
    Halted,
    /// The entry has another URL than the one that is wanted.
    OtherUrl,
    /// The station failed. The slot may be read again.
    Fault,
}
