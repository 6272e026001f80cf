use std::collections::LinkedList;

/// What a seat knows of the marks. No value of it is made: clauses speak of it.
pub struct View<K, N> {
    /// What the marks were made for.
    pub about: Option<K>,
    /// The marks that it may put a note at: with `None` those that it may set, and with a note those whose note it
    /// took out.
    pub held: LinkedList<(u8, Option<N>)>,
    /// The mark of a call that is under way.
    pub moving: LinkedList<(u8, Option<N>)>,
    /// The marks that it set, each with the note that it set.
    pub set: LinkedList<(u8, N)>,
    /// The marks that it met, each with the note that had been set.
    pub met: LinkedList<(u8, N)>,
}
