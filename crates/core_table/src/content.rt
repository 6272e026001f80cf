use core_model::Piece;

/// What a slot's cell holds. Contents are named here, and not spelled.
#[derive(Clone, Copy, Debug, PartialEq, Eq)]
pub enum Content {
    /// What the slot held when the store was opened.
    Opened { slot: u32 },
    /// A part of an offered response.
    Offered(Piece),
    /// What a slot holds that was wiped.
    Blank,
}
