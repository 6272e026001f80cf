// Steps of an inner tab that gives slots back.
use super::choice::Seat;
use super::kinds::{DISOWN, GET_LINK, GONE, LINK, NOTHING_MORE, RAISE, TRY_TURN, WIPED};
use super::random::Numbers;
use super::writing::hold_act;
use core_model::{Freer, Tab, Turn, View, Writer};
use core_state::{Act, Content};

/// The chance, one in so many, that a loose slot is given back before the rest is.
const GIVES_BACK: u32 = 3;

/// That the first slot of a doomed entry is wiped before, and that the turn at it ends without saying so.
const WIPES: u32 = 2;

const SAYS_NOTHING: u32 = 4;

/// Whether a writing tab may reserve one slot more.
pub fn has_room(writer: &Writer<Content>) -> bool {
    let is_last = writer
        .chosen
        .is_some_and(|piece| piece.next == link_word::Link::Last);
    writer.reserved.as_slice().len() < 2
        && writer.end != link_word::Link::Last
        && !is_last
        && !writer.is_ending
}

/// A tab of the pass that writes and may reserve one slot more.
fn tab_with_room(view: &View<Content>) -> Option<u8> {
    let tab = view.tabs.as_slice().iter().position(|tab| match tab {
        Tab::Writing(writer) => has_room(writer),
        _ => false,
    })?;
    u8::try_from(tab).ok()
}

/// Whether the first slot of the entry may be wiped.
fn may_wipe(freer: &Freer<Content>) -> bool {
    freer.is_freeing && freer.is_doomed && freer.is_whole
}

/// What comes with the end of the turn at a slot: mostly that it was wiped.
fn wiper_end(numbers: &mut Numbers) -> u64 {
    if numbers.is_one_in(SAYS_NOTHING) {
        NOTHING_MORE
    } else {
        WIPED
    }
}

/// The next step by which the slots of an entry are given back, or the first of them is wiped.
pub(super) fn freer_act(
    numbers: &mut Numbers,
    seat: Seat,
    view: &View<Content>,
    freer: &Freer<Content>,
) -> Act {
    if let Turn::Has(hold) = &freer.turn {
        let then = wiper_end(numbers);
        return hold_act(numbers, seat, hold, true, then);
    }
    let loose = freer.loose.as_slice().first();
    match (freer.rest.as_slice().first(), loose) {
        (Some(slot), _) if may_wipe(freer) && numbers.is_one_in(WIPES) => {
            seat.act(TRY_TURN, *slot, 0)
        }
        (_, Some(slot)) if numbers.is_one_in(GIVES_BACK) => seat.act(DISOWN, *slot, 0),
        (Some(slot), _) if freer.is_looked => loosen_act(numbers, seat, view, freer, *slot),
        (Some(slot), _) => seat.act(GET_LINK, *slot, 0),
        (None, Some(slot)) => seat.act(DISOWN, *slot, 0),
        (None, None) => seat.act(RAISE, 0, GONE),
    }
}

/// The first slot of the rest leaves it: a writing tab of the pass has it, or it is loose.
fn loosen_act(
    numbers: &mut Numbers,
    seat: Seat,
    view: &View<Content>,
    freer: &Freer<Content>,
    slot: u32,
) -> Act {
    match tab_with_room(view) {
        Some(tab) if freer.is_freeing && numbers.is_one_in(2) => {
            let writer = Seat {
                pass: seat.pass,
                tab,
            };
            writer.act(LINK, slot, 0)
        }
        _ => seat.act(LINK, slot, 0),
    }
}
