// Room in stores that fit: what each step keeps to, and what holds after it.
use core_model::{INNER_TAB, Tab, View, Writer};
use core_state::{Act, Content, Core};
use std::process::Abort;
use test_core_walks::kinds::{CHANGE, LINK, LOOK_MAP, OWN};
use test_core_walks::{Seat, Store, has_room, inner_tab, is_taken, tab_of};

/// The most slots and anchors of a store that fits.
const SLOTS_END: usize = 69;

const ANCHORS_END: usize = 40;

/// Whether the tab may begin to search: it may reserve a slot, its entry has then no more than is needed at its anchor,
/// and the inner tab has nothing to give back.
fn may_begin(store: &Store, view: &View<Content>, tab: u8, writer: &Writer<Content>) -> bool {
    tab < INNER_TAB
        && has_room(writer)
        && store.is_within(writer)
        && matches!(inner_tab(view), Some(Tab::Free))
}

/// Whether a step is one that a store that fits asks for. In any other store each step is.
pub(super) fn keeps_room(store: &Store, core: &Core, act: &Act) -> bool {
    let seat = Seat {
        pass: act.pass,
        tab: act.tab,
    };
    let (Some(view), Some(tab)) = (core.views().get(act.pass as usize), tab_of(core, seat)) else {
        return true;
    };
    if store.needs.is_none() {
        return true;
    }
    match (act.kind, tab) {
        (LOOK_MAP, Tab::Writing(writer)) => {
            let first = u64::from(act.at).saturating_mul(64);
            writer.claim == Some(first) || (act.at == 0 && may_begin(store, view, act.tab, writer))
        }
        (OWN, Tab::Writing(writer)) => writer.claim == Some(u64::from(act.at)),
        (LOOK_MAP | OWN, _) => false,
        (CHANGE, Tab::Last { anchor }) if act.value == 0 => *anchor == act.at,
        (CHANGE, _) => act.value != 0,
        (LINK, _) if act.value == 0 => act.tab == INNER_TAB,
        _ => true,
    }
}

/// How near a store that fits came to being full.
#[derive(Drop)]
pub(super) struct Near {
    /// How often 0, 1 and 2 of its slots were neither taken nor searched for.
    left: [u32; 3],
    /// Looks at a word of the map behind the first.
    later: u32,
    /// How often two searches or more ran at once.
    together: u32,
}

impl Near {
    pub fn new() -> Self {
        Near {
            left: [0; 3],
            later: 0,
            together: 0,
        }
    }

    /// Each of them came about, and looks at a later word where there is one.
    pub fn assert_all<R: Abort>(&self, rt: &R, store: &Store) {
        for (left, count) in (0u32..3).zip(self.left.iter()) {
            assert!(rt;
                *count > 0,
                "{store:?}: {left} slots were never left: {:?}",
                self.left
            );
        }
        assert!(rt; self.together > 0, "{store:?}: no two searches ran at once");
        assert_eq!(rt;
            self.later > 0,
            store.slots > 64,
            "{store:?}: looks at a later word"
        );
    }
}

/// How many searches have come to each slot. None has passed all of them.
fn searches_at<R: Abort>(rt: &R, store: &Store, core: &Core, act: &Act) -> [u32; SLOTS_END] {
    let mut searches = [0u32; SLOTS_END];
    for view in core.views() {
        for tab in view.tabs.as_slice() {
            let Some(place) = place_of(tab) else {
                continue;
            };
            assert!(rt;
                place < u64::from(store.slots),
                "{act:?}: a search has passed all slots"
            );
            if let Some(count) = searches.get_mut(place as usize) {
                *count = count.saturating_add(1);
            }
        }
    }
    searches
}

/// The slot to which the search of a tab has come.
fn place_of(tab: &Tab<Content>) -> Option<u64> {
    match tab {
        Tab::Writing(writer) => writer.claim,
        _ => None,
    }
}

/// How many slots are neither taken nor searched for. Of the slots from any one on, those that are taken and the
/// searches that have come there or further are together no more than those slots.
fn slots_left<R: Abort>(rt: &R, store: &Store, core: &Core, act: &Act, near: &mut Near) -> u32 {
    let searches = searches_at(rt, store, core, act);
    let (mut used, mut running) = (0u32, 0u32);
    for slot in (0..store.slots).rev() {
        let here = match searches.get(slot as usize) {
            Some(count) => *count,
            None => 0,
        };
        running = running.saturating_add(here);
        let taken = u32::from(is_slot_taken(core, slot));
        used = used.saturating_add(here).saturating_add(taken);
        let most = store.slots.saturating_sub(slot);
        assert!(rt; used <= most, "{act:?}: {used} from slot {slot} on");
    }
    if running > 1 {
        near.together = near.together.saturating_add(1);
    }
    store.slots.saturating_sub(used)
}

/// Whether a slot is taken, by its bit.
fn is_slot_taken(core: &Core, slot: u32) -> bool {
    let anchors = core.chains().len().saturating_mul(5);
    let links = core.places().len().saturating_mul(2);
    let word = anchors
        .saturating_add(links)
        .saturating_add((slot / 64) as usize);
    match core.words().get(word) {
        Some(word) => is_taken(*word, slot),
        None => false,
    }
}

/// What a tab has of the slots of an anchor, one for its search among them.
fn held_by(tab: &Tab<Content>) -> Option<(u32, usize)> {
    match tab {
        Tab::Writing(writer) => {
            let running = usize::from(writer.claim.is_some());
            let reserved = writer.reserved.as_slice().len();
            Some((writer.anchor, reserved.saturating_add(running)))
        }
        Tab::Freeing(freer) => {
            let loose = freer.loose.as_slice().len();
            let rest = freer.rest.as_slice().len();
            Some((freer.anchor, rest.saturating_add(loose)))
        }
        _ => None,
    }
}

/// Each anchor has no more than it may hold: its chain, its tail, and what tabs have of its slots and search for.
fn check_anchors<R: Abort>(rt: &R, store: &Store, core: &Core, act: &Act) {
    let mut held = [0usize; ANCHORS_END];
    for (count, chain) in held.iter_mut().zip(core.chains()) {
        *count = chain
            .slots
            .as_slice()
            .len()
            .saturating_add(chain.tail.as_slice().len());
    }
    for view in core.views() {
        for tab in view.tabs.as_slice() {
            if let Some((anchor, many)) = held_by(tab) {
                if let Some(count) = held.get_mut(anchor as usize) {
                    *count = count.saturating_add(many);
                }
            }
        }
    }
    for (anchor, count) in (0..ANCHORS_END).zip(held.iter()) {
        let capacity = store.capacity(anchor).unwrap_or(0);
        assert!(rt;
            *count <= capacity as usize,
            "{act:?}: {count} at anchor {anchor}"
        );
    }
}

/// There is room after a step in a store that fits, and how near it is to being full.
pub(super) fn watch_room<R: Abort>(rt: &R, store: &Store, core: &Core, act: &Act, near: &mut Near) {
    if store.needs.is_none() {
        return;
    }
    check_anchors(rt, store, core, act);
    let left = slots_left(rt, store, core, act, near);
    if let Some(count) = near.left.get_mut(left as usize) {
        *count = count.saturating_add(1);
    }
    if act.kind == LOOK_MAP && act.at > 0 {
        near.later = near.later.saturating_add(1);
    }
}
