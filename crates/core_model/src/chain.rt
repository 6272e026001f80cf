use crate::list::Row;
use link_word::Link;

/// The slots of an anchor's entry. No word of the table spells a chain by itself: the words and the
/// chains of a sound state agree.
#[derive(Drop)]
pub struct Chain {
    /// The published slots, in order.
    pub slots: Row<u32>,
    /// What the link of the last of them says, and `NotWritten` where there is none.
    pub end: Link,
    /// The slot that a writer which gave up had linked and not published: one or none.
    pub tail: Row<u32>,
}
