// Steps of a tab that reads.
use super::choice::Seat;
use super::kinds::{
    CELL_IN, CELL_OUT, DOOM, END_TURN, GET_LINK, LEAVE, SIDE, START, STORES, TRY_TURN,
};
use super::random::Numbers;
use core_model::{Hold, Reader, Turn};
use core_state::{Act, Content};
use link_word::Link;

/// Chances, each one in so many: that a tab dooms its entry, leaves it, or loads a word beside it.
const DOOMS: u32 = 60;

const LEAVES: u32 = 30;

const LOADS: u32 = 16;

/// That it leaves where the next slot is not there yet, and that it dooms the entry there.
const WAITS: u32 = 8;

/// That it gives a turn back, and that it does not go on then.
const ENDS: u32 = 3;

const STOPS: u32 = 6;

/// The next step of a tab towards the end of its entry.
pub(super) fn reader_act(numbers: &mut Numbers, seat: Seat, reader: &Reader<Content>) -> Act {
    if let Turn::Has(hold) = &reader.turn {
        return hold_act(numbers, seat, hold);
    }
    if numbers.is_one_in(DOOMS) {
        return seat.act(DOOM, 0, 0);
    }
    if numbers.is_one_in(LEAVES) {
        return seat.act(LEAVE, 0, 0);
    }
    if numbers.is_one_in(LOADS) {
        return seat.act(SIDE, numbers.below(STORES), 0);
    }
    match reader.slot {
        None if reader.place == 0 => seat.act(SIDE, START, 0),
        None => seat.act(LEAVE, 0, 0),
        Some(slot) => slot_act(numbers, seat, reader, slot),
    }
}

/// With the turn, the cell is taken out and put back, and the tab goes on.
fn hold_act(numbers: &mut Numbers, seat: Seat, hold: &Hold<Content>) -> Act {
    if hold.is_out {
        seat.act(CELL_IN, hold.slot, 0)
    } else if numbers.is_one_in(ENDS) {
        let goes_on = !numbers.is_one_in(STOPS);
        seat.act(END_TURN, hold.slot, u64::from(goes_on))
    } else {
        seat.act(CELL_OUT, hold.slot, 0)
    }
}

/// Without it, the link is looked at, and then the turn is tried for.
fn slot_act(numbers: &mut Numbers, seat: Seat, reader: &Reader<Content>, slot: u32) -> Act {
    if reader.found != Link::NotWritten {
        return seat.act(TRY_TURN, slot, 0);
    }
    match numbers.below(WAITS) {
        0 if reader.place > 0 => seat.act(LEAVE, 0, 0),
        1 if reader.place > 0 => seat.act(DOOM, 0, 0),
        _ => seat.act(GET_LINK, slot, 0),
    }
}
