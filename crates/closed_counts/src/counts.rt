// A table that no thread shares any more is counted.
ghost use Rattle.std.specs.Prelude.{◌≡◌, length};
ghost use Rattle.std.specs.Mem.Slots.{IsFull, slots_items};
ghost use Rattle.core_model.specs.Layout.{Setting};
ghost use Rattle.core_model.specs.Spots.{free_below};
ghost use Rattle.core_model.specs.State.{State};
ghost use Rattle.closed_counts.specs.Counts.{AreWordsOf, closed_anchors, slots_kept};

use crate::chains::{chain_length, is_closed};
use crate::free::count_free;
use atomic_table::Closed;
use std::alloc::Global;

/// What is left in a table.
#[derive(Clone, Copy, Debug, PartialEq, Eq)]
pub struct SlotCounts {
    /// How many anchors are closed.
    pub kept: u32,
    /// How many slots stand in their chains.
    pub held: u32,
    /// How many slots are free.
    pub free: u32,
}

/// How many anchors are closed, and how many slots stand in their chains.
fn count_kept<S, X>(table: &Closed<S, Global>, anchors: u32, slots: u32) -> (u32, u32)
    requires full { IsFull table.now.words }
    requires words { (k : Setting X) × (s : State X) × AreWordsOf anchors slots (slots_items table.now.words) k s }
    ensures kept { (k : Setting X) (s : State X) → AreWordsOf anchors slots (slots_items table.now.words) k s
        → result.0 ≡ length (closed_anchors k s) }
    ensures held { (k : Setting X) (s : State X) → AreWordsOf anchors slots (slots_items table.now.words) k s
        → result.1 ≡ slots_kept k s }
{
    let mut kept = 0;
    let mut held = 0;
    for anchor in 0..anchors {
        if is_closed::<S, X>(table, anchors, slots, anchor) {
            kept += 1;
            held += chain_length::<S, X>(table, anchors, slots, anchor);
        }
    }
    (kept, held)
}

/// Counts the closed anchors of a table, the slots in their chains and the free slots. Its words are those of a sound
/// state, with so many anchors and slots. The slots of a chain are counted along its links, and not taken as what is
/// left.
pub fn count_closed<S, X>(table: &Closed<S, Global>, anchors: u32, slots: u32) -> SlotCounts
    requires full { IsFull table.now.words }
    requires words { (k : Setting X) × (s : State X) × AreWordsOf anchors slots (slots_items table.now.words) k s }
    ensures kept { (k : Setting X) (s : State X) → AreWordsOf anchors slots (slots_items table.now.words) k s
        → result.kept ≡ length (closed_anchors k s) }
    ensures held { (k : Setting X) (s : State X) → AreWordsOf anchors slots (slots_items table.now.words) k s
        → result.held ≡ slots_kept k s }
    ensures free { (k : Setting X) (s : State X) → AreWordsOf anchors slots (slots_items table.now.words) k s
        → result.free ≡ free_below k s k.slots }
{
    let (kept, held) = count_kept::<S, X>(table, anchors, slots);
    SlotCounts {
        kept,
        held,
        free: count_free::<S, X>(table, anchors, slots),
    }
}
