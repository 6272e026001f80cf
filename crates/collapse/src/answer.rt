// What came of forwarding.
use rock_writer::{BeginFault, WriteFault};

/// How a response was forwarded, or why it was not.
#[derive(Clone, Copy, Debug, PartialEq, Eq)]
pub enum Forwarded {
    /// The entry of this version was read to its end.
    Hit { version: u32 },
    /// It was fetched, and the entry of this version written to its end.
    Fetched { version: u32 },
    /// It was fetched whole, and not stored, for this cause.
    Direct { why: Why },
    /// The writer of the entry that was read gave up.
    Halted,
    /// The entry could not be read: the station failed.
    Fault,
    /// There was nothing to give yet, as often as may be looked in vain.
    Waited { looks: u32 },
    /// The fetcher failed.
    FetchFault,
    /// The sink failed.
    SinkFault,
}

/// Why a response was fetched and not stored.
#[derive(Clone, Copy, Debug, PartialEq, Eq)]
pub enum Why {
    /// Its entry was not begun.
    Begin(BeginFault),
    /// It was, and was given up.
    Write(WriteFault),
    /// The entry at its place is that of another URL with the same key.
    OtherUrl,
}
