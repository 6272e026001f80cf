// The map of taken slots, read slot by slot.
ghost use Rattle.std.specs.Prelude.{◌≡◌};
ghost use Rattle.std.specs.Mem.Slots.{IsFull, slots_items};
ghost use Rattle.core_model.specs.Layout.{Setting};
ghost use Rattle.core_model.specs.Spots.{free_below};
ghost use Rattle.core_model.specs.State.{State};
ghost use Rattle.closed_counts.specs.Counts.{AreWordsOf};

use atomic_table::Closed;
use core_table::map_index;
use link_word::{is_set, map_place};
use std::alloc::Global;

/// How many slots are free.
pub(crate) fn count_free<S, X>(table: &Closed<S, Global>, anchors: u32, slots: u32) -> u32
    requires full { IsFull table.now.words }
    requires words { (k : Setting X) × (s : State X) × AreWordsOf anchors slots (slots_items table.now.words) k s }
    ensures { (k : Setting X) (s : State X) → AreWordsOf anchors slots (slots_items table.now.words) k s
        → result ≡ free_below k s k.slots }
{
    let mut free = 0;
    for slot in 0..slots {
        let (word, bit) = map_place(slot);
        if !is_set(table.word(map_index(anchors, slots, word)), bit) {
            free += 1;
        }
    }
    free
}
