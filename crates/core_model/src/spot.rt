/// Where a slot is. A pass stands for the place of its view.
#[derive(Clone, Copy, Debug, PartialEq, Eq)]
pub enum Spot {
    Free,
    /// A writing tab has reserved it.
    Reserved { pass: u32, tab: u8 },
    /// It is in the chain of an anchor, or is the tail of that.
    Chained { anchor: u32 },
    /// It is still in the chain that an inner tab gives back.
    Resting { pass: u32, tab: u8 },
    /// It left that chain, and is not free yet.
    Loose { pass: u32, tab: u8 },
}
