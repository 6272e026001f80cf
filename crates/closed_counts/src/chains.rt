// The chain of a closed entry, walked from its start through the links of its slots.
ghost use Rattle.std.specs.Prelude.{◌∷◌, ◌<◌, ◌≡◌, List, ℕ, slice_get};
ghost use Rattle.std.specs.Mem.Slots.{IsFull, slots_items};
ghost use Rattle.link_word.specs.declared.link.Link.TheVariants.{Last};
ghost use Rattle.core_model.specs.Chains.{Spells};
ghost use Rattle.core_model.specs.Layout.{Setting};
ghost use Rattle.core_model.specs.Slots.{slot_words};
ghost use Rattle.core_model.specs.State.{State};
ghost use Rattle.closed_counts.specs.Counts.{AreWordsOf, IsClosedAt, is_closed_at, slots_of};

use atomic_table::Closed;
use core_model::Side;
use core_table::{anchor_index, beside_index, link_index};
use link_word::{Link, unpack_link};
use lock_word::{Stage, word_of};
use std::alloc::Global;

/// Whether a closed entry stands at the anchor.
pub(crate) fn is_closed<S, X>(
    table: &Closed<S, Global>,
    anchors: u32,
    slots: u32,
    anchor: u32,
) -> bool
    requires full { IsFull table.now.words }
    requires words { (k : Setting X) × (s : State X) × AreWordsOf anchors slots (slots_items table.now.words) k s }
    requires there { anchor < anchors }
    ensures { (k : Setting X) (s : State X) → AreWordsOf anchors slots (slots_items table.now.words) k s
        → result ≡ is_closed_at s anchor }
{
    let _ = anchors;
    let _ = slots;
    word_of(table.word(anchor_index(anchor))).epoch.stage == Stage::Closed
}

/// The slot in which a closed chain goes on behind this one, if it does.
fn slot_behind<S, X>(table: &Closed<S, Global>, anchors: u32, slots: u32, slot: u32) -> Option<u32>
    requires full { IsFull table.now.words }
    requires words { (k : Setting X) × (s : State X) × AreWordsOf anchors slots (slots_items table.now.words) k s }
    requires there { slot < slots }
    ensures { (k : Setting X) (s : State X) (rest : List ℕ)
        → AreWordsOf anchors slots (slots_items table.now.words) k s
        → Spells (slot_words k s.words).link (slot ∷ rest) Last
        → result ≡ slice_get rest 0 }
{
    let _ = slots;
    match unpack_link(table.word(link_index(anchors, slot)))? {
        Link::Next(next) => Some(next),
        Link::NotWritten | Link::Last => None,
    }
}

/// How many slots the chain of a closed entry has, along its links.
pub(crate) fn chain_length<S, X>(
    table: &Closed<S, Global>,
    anchors: u32,
    slots: u32,
    anchor: u32,
) -> u32
    requires full { IsFull table.now.words }
    requires words { (k : Setting X) × (s : State X) × AreWordsOf anchors slots (slots_items table.now.words) k s }
    requires there { anchor < anchors }
    requires closed { IsClosedAt (slots_items table.now.words) anchor }
    ensures { (k : Setting X) (s : State X) → AreWordsOf anchors slots (slots_items table.now.words) k s
        → result ≡ slots_of s anchor }
{
    let first = table.word(beside_index(Side::Start, anchor)) - 1;
    let mut slot = first as u32;
    let mut count = 1;
    while let Some(next) = slot_behind::<S, X>(table, anchors, slots, slot) {
        slot = next;
        count += 1;
    }
    count
}
