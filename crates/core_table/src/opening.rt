// What does not change while a store is open.
ghost use Rattle.std.specs.Prelude.{◌≡◌, ◌<◌, length, IfOk};
ghost use Rattle.core_model.specs.Layout.{index};
ghost use Rattle.core_table.specs.Kept.{AreWithin, IsOpening};

use crate::kept::opened_words;
use crate::layout::{
    anchor_index, beside_index, counter_index, link_index, log_index, map_index, turn_index,
};
use core_model::Place;
use rebuild_model::Rebuilt;
use std::alloc::{AllocError, Global};

/// What does not change while a store is open.
#[derive(Drop)]
pub struct Opening {
    pub anchors: u32,
    pub slots: u32,
    pub passes: u32,
    /// The words at the opening.
    pub words: Vec<u64>,
}

impl Opening {
    ghost use Rattle.core_table.specs.Inside.{setting};

    /// Where a word stands in the table.
    pub fn index_of(&self, place: Place) -> usize
        ensures { result ≡ index (setting self.now) place }
    {
        match place {
            Place::Anchor(anchor) => anchor_index(anchor),
            Place::Beside(side, anchor) => beside_index(side, anchor),
            Place::Link(slot) => link_index(self.anchors, slot),
            Place::Turn(slot) => turn_index(self.anchors, slot),
            Place::Map(word) => map_index(self.anchors, self.slots, word),
            Place::Counter => counter_index(self.anchors, self.slots),
            Place::LogCounter => log_index(self.anchors, self.slots),
        }
    }
}

/// The setting of a store that is opened with what a rebuild kept.
pub fn opening_of(
    alloc: Global,
    rebuilt: &Rebuilt,
    anchors: u32,
    slots: u32,
    passes: u32,
) -> Result<Opening, AllocError>
    requires some { 0 < anchors }
    requires within { AreWithin rebuilt.now.winners slots }
    requires owners { length rebuilt.now.owner ≡ slots }
    ensures { IfOk result (λ opening. IsOpening opening rebuilt.now anchors slots passes) }
{
    Ok(Opening {
        anchors,
        slots,
        passes,
        words: opened_words(alloc, rebuilt, anchors, slots)?,
    })
}
