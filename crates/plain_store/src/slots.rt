// How slots are found.
ghost use Rattle.std.specs.Prelude.{◌≡◌, ◌<◌, ◌≤◌, ◌+◌, ◌*◌, ◌%◌, ◌^◌};
ghost use Rattle.plain_model.specs.Store.{published};
ghost use Rattle.plain_model.specs.Slots.{held, free, victim, evicted, claim, claim_two, claimed_as, limit, publish, grown_as, grow};

use crate::look::{is_idle, published};
use plain_model::{Life, Place, Plain, Refusal, Setting, Size};

/// The most slots that an entry may have, whatever the store has.
const MOST_ENTRY_SLOTS: u64 = 4096;

/// How many slots an anchor's entry holds, where a slot has room for so many bytes.
pub fn held(room: u32, place: &Place) -> u64
    requires { 0 < room }
    ensures { result ≡ held room place.now }
{
    let Some(entry) = &place.entry else {
        return 0;
    };
    let published = published(room, entry.content.get());
    if entry.life == Life::Whole || published != 0 {
        published + 1
    } else {
        0
    }
}

/// How many slots are free.
fn free(setting: &Setting, store: &Plain) -> u64
    requires { 0 < setting.now.room }
    ensures { result ≡ free setting.now store.now }
{
    let mut left = u64::from(setting.slots);
    'places: for place in store.places.as_slice() {
        left = left.saturating_sub(held(setting.room, place));
    }
    left
}

/// The anchor that is so many behind the hand, round.
fn turned(hand: u32, by: u32, anchors: u32) -> u32
    requires { 0 < anchors }
    ensures { result ≡ (hand + by) % anchors }
{
    ((u64::from(hand) + u64::from(by)) % u64::from(anchors)) as u32
}

/// The first anchor from the hand on whose entry may give way.
#[tactic(auto, using(crate::proofs::Turning::turn))]
fn victim(setting: &Setting, store: &Plain) -> Option<u32>
    requires { 0 < setting.now.anchors }
    ensures { result ≡ victim setting.now store.now }
{
    let anchors = setting.anchors;
    'turn: for i in 0..anchors {
        let anchor = turned(store.hand, i, anchors);
        if is_idle(store, anchor) {
            return Some(anchor);
        }
    }
    None
}

/// Takes the entry of an anchor away, and moves the hand behind it.
fn evict(setting: &Setting, store: &mut Plain, anchor: u32)
    requires { 0 < setting.now.anchors }
    ensures { store.new ≡ evicted setting.now anchor store.old }
{
    store.places.vacate(anchor);
    store.hand = turned(anchor, 1, setting.anchors);
}

/// Claims a slot beside so many that are claimed already: whether there is one.
pub(crate) fn claim(setting: &Setting, store: &mut Plain, claimed: u64) -> bool
    requires anchors { 0 < setting.now.anchors }
    requires room { 0 < setting.now.room }
    ensures { claim setting.now claimed store.old ≡ claimed_as store.new result }
{
    if claimed < free(setting, store) {
        return true;
    }
    match victim(setting, store) {
        None => false,
        Some(anchor) => {
            evict(setting, store, anchor);
            true
        }
    }
}

/// Claims two slots, one after the other.
fn claim_two(setting: &Setting, store: &mut Plain) -> bool
    requires anchors { 0 < setting.now.anchors }
    requires room { 0 < setting.now.room }
    ensures { claim_two setting.now store.old ≡ claimed_as store.new result }
{
    claim(setting, store, 0) && claim(setting, store, 1)
}

/// Publishes the last of so many full slots, which have so many bytes: claims the next one, and its own too where it is the first.
fn publish(
    setting: &Setting,
    store: &mut Plain,
    anchor: u32,
    filled: u64,
    full: u64,
) -> Option<Refusal>
    requires anchors { 0 < setting.now.anchors }
    requires room { 0 < setting.now.room }
    requires full { full ≡ filled * setting.now.room }
    requires small { full ≤ 2 ^ 62 }
    ensures { publish setting.now anchor filled store.old ≡ grown_as store.new result }
{
    store.places.resize(anchor, Size::new(full));
    if MOST_ENTRY_SLOTS.min(u64::from(setting.slots)) <= filled {
        return Some(Refusal::Large);
    }
    let done = if filled == 1 {
        claim_two(setting, store)
    } else {
        claim(setting, store, 0)
    };
    if done { None } else { Some(Refusal::Full) }
}

/// How many bytes so many full slots have, of an entry of so many bytes.
fn full_bytes(room: u32, content: u64, filled: u64) -> u64
    requires room { 0 < room }
    requires small { content ≤ 2 ^ 62 }
    requires within { filled ≤ published room content }
    ensures value { result ≡ filled * room }
    ensures small { result ≤ 2 ^ 62 }
{
    filled * u64::from(room)
}

/// Makes an entry grow to so many bytes, by so many publishings, where so many slots are full at the
/// first of these.
#[tactic(auto, using(crate::proofs::Growing::grow_refused))]
pub(crate) fn grow(
    setting: &Setting,
    store: &mut Plain,
    anchor: u32,
    content: u64,
    publishings: u64,
    filled: u64,
) -> Option<Refusal>
    requires anchors { 0 < setting.now.anchors }
    requires room { 0 < setting.now.room }
    requires small { content ≤ 2 ^ 62 }
    requires within { 0 < publishings → filled + publishings ≤ published setting.now.room content + 1 }
    ensures { grow setting.now anchor content publishings filled store.old ≡ grown_as store.new result }
{
    'publishings: for i in 0..publishings {
        let full = full_bytes(setting.room, content, filled + i);
        match publish(setting, store, anchor, filled + i, full) {
            Some(refusal) => return Some(refusal),
            None => {}
        }
    }
    store.places.resize(anchor, Size::new(content));
    None
}
