// Steps of a tab that writes.
use super::choice::{Seat, evict_act, inner_tab};
use super::freeing::{freer_act, has_room};
use super::kinds::{
    APPENDING, CELL_IN, CELL_OUT, CLOSED, DISOWN, END_TURN, HALTED, KEPT, KEPT_UNSURE, LINK,
    LOG_PIECE, LOOK_MAP, NOTHING, NOTHING_MORE, OWN, RAISE, SIDE, STORE_KEY0, STORE_KEY1,
    STORE_OFFER, STORE_START, SYNC, TRY_TURN, UNSURE, WRITE,
};
use super::random::Numbers;
use super::store::Store;
use super::table::start_number;
use core_model::{Hold, Piece, Tab, Turn, View, Writer};
use core_state::{Act, Content};
use link_word::{Link, pack_link};

/// Of so many versions one is given up, and the chance, one in so many, that its tab does so now, before
/// others may read and as they do.
const DOUBTFUL: u32 = 3;

const GIVES_UP: u32 = 20;

const GIVES_UP_LATE: u32 = 6;

/// That it does otherwise than it mostly does with a cell that it has.
const TURNS_ASIDE: u32 = 8;

/// That it publishes its entry as it grows, and that it reserves no slot more.
const SHOWS: u32 = 2;

const STOPS: u32 = 3;

/// That it tries any slot, and not the one to which its search has come.
const TRIES_ANY: u32 = 8;

/// That it evicts another entry, to have a slot of that.
const EVICTS: u32 = 2;

/// That it looks at the word of which the slot is the first, to which its search has come.
const LOOKS: u32 = 2;

/// Keys are below this, and so is what an offer is above the slots.
const NAMES: u32 = 8;

/// The next step of a tab towards a whole entry.
pub(super) fn writer_act(
    numbers: &mut Numbers,
    store: &Store,
    seat: Seat,
    view: &View<Content>,
    writer: &Writer<Content>,
) -> Act {
    if let Turn::Has(hold) = &writer.turn {
        return hold_act(numbers, seat, hold, writer.is_durable, NOTHING_MORE);
    }
    if let Some(Tab::Freeing(freer)) = inner_tab(view) {
        if numbers.is_one_in(2) {
            return freer_act(numbers, seat.inner(), view, freer);
        }
    }
    if writer.end == Link::Last {
        return raise_act(seat, writer, CLOSED);
    }
    if writer.is_ending || gives_up(numbers, writer) {
        return give_up_act(seat, writer);
    }
    grow_act(numbers, store, seat, view, writer)
}

/// Whether the entry is one that is given up, and is so now.
fn gives_up(numbers: &mut Numbers, writer: &Writer<Content>) -> bool {
    let chance = if writer.is_appending {
        GIVES_UP_LATE
    } else {
        GIVES_UP
    };
    writer.version.is_multiple_of(DOUBTFUL) && numbers.is_one_in(chance)
}

/// With the turn, the cell is taken out, written, synced and put back, and the turn ends with this. What is to be durable is synced
/// until that is kept.
pub(super) fn hold_act(
    numbers: &mut Numbers,
    seat: Seat,
    hold: &Hold<Content>,
    is_durable: bool,
    then: u64,
) -> Act {
    let slot = hold.slot;
    let is_unsure = is_durable && !hold.is_settled;
    let turns_aside = numbers.is_one_in(TURNS_ASIDE);
    match (hold.is_out, hold.is_written != turns_aside) {
        (true, false) => seat.act(WRITE, slot, outcome(numbers)),
        (true, true) if is_unsure || numbers.is_one_in(2) => {
            seat.act(SYNC, slot, u64::from(numbers.below(2)))
        }
        (true, true) => seat.act(CELL_IN, slot, 0),
        (false, false) => seat.act(CELL_OUT, slot, 0),
        (false, true) => seat.act(END_TURN, slot, then),
    }
}

fn outcome(numbers: &mut Numbers) -> u64 {
    match numbers.below(8) {
        0 => NOTHING,
        1 => UNSURE,
        2 => KEPT_UNSURE,
        _ => KEPT,
    }
}

/// The anchor is raised, once the Start word is that of what is published.
fn raise_act(seat: Seat, writer: &Writer<Content>, stage: u64) -> Act {
    let start = start_number(writer.published.as_slice());
    if writer.is_appending || writer.start == Some(start) {
        seat.act(RAISE, 0, stage)
    } else {
        seat.act(SIDE, STORE_START, start)
    }
}

/// Each slot that is not linked is given back, and then the anchor is raised to HALTED.
fn give_up_act(seat: Seat, writer: &Writer<Content>) -> Act {
    let is_linked = |slot: &u32| writer.end == Link::Next(*slot);
    match writer.reserved.as_slice() {
        [.., slot] if !is_linked(slot) => seat.act(DISOWN, *slot, 0),
        _ => raise_act(seat, writer, HALTED),
    }
}

/// The side of the entry's name that is not stored yet, if there is one.
fn unnamed_side(writer: &Writer<Content>) -> Option<u32> {
    if writer.key0.is_none() {
        Some(STORE_KEY0)
    } else if writer.key1.is_none() {
        Some(STORE_KEY1)
    } else if writer.offer.is_none() {
        Some(STORE_OFFER)
    } else {
        None
    }
}

/// Whether the piece that the tab chose may be published: it is written, and synced where it is durable.
fn is_ready(writer: &Writer<Content>) -> bool {
    writer.is_written && (writer.is_settled || !writer.is_durable)
}

/// The entry is named, slots are reserved, and a piece is logged for the first of them, written and published.
fn grow_act(
    numbers: &mut Numbers,
    store: &Store,
    seat: Seat,
    view: &View<Content>,
    writer: &Writer<Content>,
) -> Act {
    if let Some(side) = unnamed_side(writer) {
        let above = if side == STORE_OFFER { store.slots } else { 0 };
        let value = numbers.below(NAMES).saturating_add(above);
        return seat.act(SIDE, side, u64::from(value));
    }
    let is_shown = writer.is_appending || writer.published.as_slice().is_empty();
    if !is_shown && numbers.is_one_in(SHOWS) {
        return raise_act(seat, writer, APPENDING);
    }
    match (writer.reserved.as_slice().first(), writer.chosen) {
        (Some(slot), Some(piece)) if is_ready(writer) => {
            seat.act(LINK, *slot, pack_link(piece.next))
        }
        (Some(slot), chosen)
            if !has_room(writer) || !store.is_within(writer) || numbers.is_one_in(STOPS) => {
            piece_act(numbers, seat, *slot, chosen)
        }
        _ => own_act(numbers, store, seat, view, writer),
    }
}

/// A piece is logged for the first reserved slot, or its turn tried for.
fn piece_act(numbers: &mut Numbers, seat: Seat, slot: u32, chosen: Option<Piece>) -> Act {
    match chosen {
        Some(_) => seat.act(TRY_TURN, slot, 0),
        None => seat.act(LOG_PIECE, slot, u64::from(numbers.below(2))),
    }
}

/// A look at the map begins a search, and the slot to which it has come is tried, or its word looked at. Where all were found taken
/// another entry is evicted, or the search begins again.
fn own_act(
    numbers: &mut Numbers,
    store: &Store,
    seat: Seat,
    view: &View<Content>,
    writer: &Writer<Content>,
) -> Act {
    if numbers.is_one_in(TRIES_ANY) {
        return seat.act(OWN, store.any_slot(numbers), 0);
    }
    let place = writer.claim.and_then(|place| u32::try_from(place).ok());
    match place {
        Some(slot)
            if slot > 0 && slot < store.slots && slot % 64 == 0 && numbers.is_one_in(LOOKS) => {
            seat.act(LOOK_MAP, slot / 64, 0)
        }
        Some(slot) if slot < store.slots => seat.act(OWN, slot, 0),
        Some(_) if numbers.is_one_in(EVICTS) => evict_act(numbers, seat.inner(), view),
        _ => seat.act(LOOK_MAP, 0, 0),
    }
}
