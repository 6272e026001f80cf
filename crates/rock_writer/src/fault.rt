// Why an entry is not written.
use lock_word::Word;

/// Why an entry was not begun.
#[derive(Clone, Copy, Debug, PartialEq, Eq)]
pub enum BeginFault {
    /// A slot has no room for the metadata of this URL.
    LongUrl,
    /// The anchor is in use: the word that was looked at, and the one that was found when it was to be taken.
    Busy { looked: Word, found: Word },
    /// There is no version left. The counter was seen so, 4,294,901,760 or more.
    Spent { versions: u64 },
}

/// Why no more of an entry was written.
#[derive(Clone, Copy, Debug, PartialEq, Eq)]
pub enum WriteFault {
    /// The entry has as many slots as it may have.
    Large,
    /// A slot is needed, none is free, and no entry is idle.
    Full,
    /// The station failed.
    Fault,
}

/// How an entry ended that was written to its end.
#[derive(Clone, Copy, Debug, PartialEq, Eq)]
pub enum Ended {
    Stored { version: u32 },
    /// The entry was purged while it was written.
    Doomed { version: u32 },
}
