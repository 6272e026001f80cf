// The state of the plain store.
use crate::lists::Places;

/// What stays the same while a store is open.
#[derive(Clone, Copy, Debug, PartialEq, Eq)]
pub struct Setting {
    pub slots: u32,
    /// How many bytes of payload a slot has room for.
    pub room: u32,
    pub anchors: u32,
}

/// What a tab does.
#[derive(Clone, Copy, Debug, PartialEq, Eq)]
pub enum Tab {
    Free,
    /// It writes the entry at this anchor.
    Writing {
        anchor: u32,
    },
    Reading {
        anchor: u32,
        /// How many bytes of the body it was given.
        given: u64,
        /// Whether the entry has another URL than the one that was asked for, of the same key.
        is_other: bool,
    },
}

/// A store with one worker.
#[derive(Debug, Drop)]
pub struct Plain {
    /// The greatest version that was given out.
    pub counter: u64,
    /// The anchor at which the next look for an entry to evict begins.
    pub hand: u32,
    /// What each anchor has.
    pub places: Places,
    /// The tabs of the worker. Requests without a tab use the last one.
    pub tabs: [Tab; 8],
}

/// Why an entry got no further slot.
#[derive(Clone, Copy, Debug, PartialEq, Eq)]
pub enum Refusal {
    /// No slot was free, and no entry could be evicted.
    Full,
    /// It has as many slots as an entry may have.
    Large,
}
