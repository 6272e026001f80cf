// The words of the table and the tabs of all passes.
use core_model::{Chain, Hold, Tab, Turn};
use core_state::{Content, Core};
use link_word::{is_set, map_place};
use lock_word::{Word, unpack};

fn number_at(core: &Core, index: usize) -> Option<u64> {
    core.words().get(index).copied()
}

/// The word of an anchor.
pub fn word_at(core: &Core, anchor: u32) -> Option<Word> {
    unpack(number_at(core, 5 * anchor as usize)?)
}

/// A word beside an anchor.
pub fn beside(core: &Core, side: u32, anchor: u32) -> Option<u64> {
    number_at(core, 5 * anchor as usize + 1 + side as usize)
}

/// Whether the slot is taken by its word of the map.
pub fn is_taken(word: u64, slot: u32) -> bool {
    let (_, bit) = map_place(slot);
    is_set(word, bit)
}

/// The slots of the entry at an anchor.
pub fn chain_of(core: &Core, anchor: u32) -> Option<&Chain> {
    core.chains().get(anchor as usize)
}

/// The slots that are published at an anchor.
pub fn published_at(core: &Core, anchor: u32) -> &[u32] {
    match chain_of(core, anchor) {
        Some(chain) => chain.slots.as_slice(),
        None => &[],
    }
}

/// The number of the Start word of these slots: 1 more than the first of them, or 0.
pub fn start_number(slots: &[u32]) -> u64 {
    match slots.first() {
        Some(slot) => u64::from(*slot) + 1,
        None => 0,
    }
}

/// The turn that a tab holds.
pub fn hold_of(tab: &Tab<Content>) -> Option<&Hold<Content>> {
    let turn = match tab {
        Tab::Reading(reader) => &reader.turn,
        Tab::Writing(writer) => &writer.turn,
        Tab::Freeing(freer) => &freer.turn,
        _ => return None,
    };
    match turn {
        Turn::Has(hold) => Some(hold),
        Turn::NoTurn => None,
    }
}
