// Steps of any kind by a tab, with numbers that a step of that kind may have there.
use super::choice::{Seat, newest_version};
use super::kinds::{
    CELL_IN, CHANGE, END_TURN, KIND_END, LEARN, LINK, LOG_PIECE, LOOK_MAP, OWN, RAISE, SIDE,
    SIDE_END, STAGE_END, SYNC, THEN_END, WRITE, WRITE_END,
};
use super::random::Numbers;
use super::store::Store;
use super::{ANCHORS, SLOTS};
use core_model::{Tab, View};
use core_state::{Act, Content};
use link_word::pack_link;

/// Words beside an anchor and links of slots are below this, and notes below that.
const WORD_END: u32 = SLOTS + 2;

const NOTE_END: u32 = 4;

/// The map has one word, or two.
const MAP_END: u32 = 2;

/// A step of any kind. What a tab has at hand it is mostly on.
pub(super) fn stray_act(
    numbers: &mut Numbers,
    store: &Store,
    seat: Seat,
    view: &View<Content>,
    tab: &Tab<Content>,
) -> Act {
    let kind = numbers.below(KIND_END) as u8;
    let at = match kind {
        SIDE => numbers.below(SIDE_END),
        OWN..=CELL_IN | WRITE | SYNC => stray_slot(numbers, store, tab),
        LEARN => numbers.below(NOTE_END),
        LOOK_MAP => numbers.below(MAP_END),
        _ => numbers.below(ANCHORS),
    };
    seat.act(kind, at, stray_value(numbers, kind, view, tab))
}

/// A slot: mostly the first that the tab has reserved, reads or gives back.
fn stray_slot(numbers: &mut Numbers, store: &Store, tab: &Tab<Content>) -> u32 {
    let first = match tab {
        Tab::Reading(reader) => reader.slot,
        Tab::Writing(writer) => writer.reserved.as_slice().first().copied(),
        Tab::Freeing(freer) => freer.rest.as_slice().first().copied(),
        _ => None,
    };
    match first {
        Some(slot) if !numbers.is_one_in(3) => slot,
        _ => store.any_slot(numbers),
    }
}

fn stray_value(numbers: &mut Numbers, kind: u8, view: &View<Content>, tab: &Tab<Content>) -> u64 {
    match kind {
        CHANGE if numbers.is_one_in(2) => newest_version(view).map_or(0, u64::from),
        RAISE => u64::from(numbers.below(STAGE_END)),
        SIDE => u64::from(numbers.below(WORD_END)),
        LINK => stray_link(numbers, tab),
        END_TURN => u64::from(numbers.below(THEN_END)),
        LOG_PIECE | SYNC => u64::from(numbers.below(2)),
        WRITE => u64::from(numbers.below(WRITE_END)),
        _ => 0,
    }
}

/// A link: mostly that of the piece that a writing tab chose.
fn stray_link(numbers: &mut Numbers, tab: &Tab<Content>) -> u64 {
    let chosen = match tab {
        Tab::Writing(writer) => writer.chosen,
        _ => None,
    };
    match chosen {
        Some(piece) if !numbers.is_one_in(3) => pack_link(piece.next),
        _ => u64::from(numbers.below(WORD_END)),
    }
}
