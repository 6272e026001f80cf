// What can be read off a store.
ghost use Rattle.std.specs.Prelude.{◌≡◌, ◌<◌, ◌*◌, ◌+◌, ◌≤◌, ◌^◌, length, take, drop, count_by};
ghost use Rattle.plain_model.specs.Store.{place_at, published, stage_of_entry, epoch_of, readers, reads_at, word_at, has_life, is_vacant_at, is_idle_at, is_left_over_at, available};

use lock_word::{Epoch, Stage, Word};
use plain_model::{Entry, Life, Place, Plain, Setting, Tab};

/// How many slots are published of so many bytes.
pub(crate) fn published(room: u32, content: u64) -> u64
    requires { 0 < room }
    ensures { result ≡ published room content }
{
    content.saturating_sub(1) / u64::from(room)
}

/// The stage of an entry.
fn stage_of_entry(room: u32, entry: &Entry) -> Stage
    requires { 0 < room }
    ensures { result ≡ stage_of_entry room entry.now.life entry.now.content }
{
    match entry.life {
        Life::Growing if published(room, entry.content.get()) == 0 => Stage::Taken,
        Life::Growing => Stage::Appending,
        Life::Whole => Stage::Closed,
        Life::GivenUp => Stage::Halted,
    }
}

/// The epoch of an anchor.
pub(crate) fn epoch_of(room: u32, place: &Place) -> Epoch
    requires { 0 < room }
    ensures { result ≡ epoch_of room place.now }
{
    let version = place.version;
    let doom = place.doom;
    let stage = match &place.entry {
        None if version == 0 => Stage::Empty,
        None => Stage::Gone,
        Some(entry) => stage_of_entry(room, entry),
    };
    Epoch {
        version,
        doom,
        stage,
    }
}

pub(crate) fn epoch_at(setting: &Setting, store: &Plain, anchor: u32) -> Epoch
    requires { 0 < setting.now.room }
    ensures { result ≡ epoch_of setting.now.room (place_at store.now anchor) }
{
    match store.places.as_slice().get(anchor as usize) {
        None => Epoch {
            version: 0,
            doom: false,
            stage: Stage::Empty,
        },
        Some(place) => epoch_of(setting.room, place),
    }
}

fn reads_at(anchor: u32, tab: Tab) -> bool
    ensures { result ≡ reads_at anchor tab }
{
    match tab {
        Tab::Free | Tab::Writing { .. } => false,
        Tab::Reading { anchor: at, .. } => at == anchor,
    }
}

/// How many of these tabs read at an anchor.
fn count_readers(tabs: &[Tab; 8], anchor: u32) -> u16
    ensures { result ≡ count_by (reads_at anchor) tabs.now }
{
    let mut count: u16 = 0;
    'tabs: for tab in tabs {
        if reads_at(anchor, *tab) {
            count += 1;
        }
    }
    count
}

/// How many tabs read at an anchor.
pub(crate) fn readers(store: &Plain, anchor: u32) -> u16
    ensures { result ≡ readers store.now anchor }
{
    count_readers(&store.tabs, anchor)
}

pub(crate) fn word_at(setting: &Setting, store: &Plain, anchor: u32) -> Word
    requires { 0 < setting.now.room }
    ensures { result ≡ word_at setting.now store.now anchor }
{
    Word {
        epoch: epoch_at(setting, store, anchor),
        readers: readers(store, anchor),
    }
}

fn is_life(life: Life, place: &Place) -> bool
    ensures { result ≡ has_life life place.now.entry }
{
    match &place.entry {
        None => false,
        Some(entry) => entry.life == life,
    }
}

/// Whether an anchor has no entry and no reader.
pub(crate) fn is_vacant(store: &Plain, anchor: u32) -> bool
    ensures { result ≡ is_vacant_at store.now anchor }
{
    let is_none = match store.places.as_slice().get(anchor as usize) {
        None => true,
        Some(place) => place.entry.is_none(),
    };
    is_none && readers(store, anchor) == 0
}

/// Whether its entry may give way.
pub(crate) fn is_idle(store: &Plain, anchor: u32) -> bool
    ensures { result ≡ is_idle_at store.now anchor }
{
    let is_kept = match store.places.as_slice().get(anchor as usize) {
        None => false,
        Some(place) => is_life(Life::Whole, place) && !place.doom,
    };
    is_kept && readers(store, anchor) == 0
}

/// Whether its entry is to go.
pub(crate) fn is_left_over(store: &Plain, anchor: u32) -> bool
    ensures { result ≡ is_left_over_at store.now anchor }
{
    let is_leaving = match store.places.as_slice().get(anchor as usize) {
        None => false,
        Some(place) => {
            is_life(Life::GivenUp, place) || (is_life(Life::Whole, place) && place.doom)
        }
    };
    is_leaving && readers(store, anchor) == 0
}

/// The metadata's size.
pub(crate) fn meta_size(entry: &Entry) -> u64
    ensures value { result ≡ 32 + length entry.now.url }
    ensures small { result ≤ 2 ^ 61 }
{
    32 + entry.url.as_slice().len() as u64
}

/// How many bytes the published slots have.
fn published_bytes(room: u32, content: u64) -> u64
    requires { 0 < room }
    ensures { result ≡ published room content * room }
{
    let behind = content.saturating_sub(1);
    behind - behind % u64::from(room)
}

/// At most so many bytes from the front.
fn front(bytes: &[u8], count: u64) -> &[u8]
    ensures { result.now ≡ take count bytes.now }
{
    if count < bytes.len() as u64 {
        &bytes[..count as usize]
    } else {
        bytes
    }
}

/// The bytes behind so many.
pub(crate) fn behind(bytes: &[u8], count: u64) -> &[u8]
    ensures { result.now ≡ drop count bytes.now }
{
    if count < bytes.len() as u64 {
        &bytes[count as usize..]
    } else {
        &[]
    }
}

/// The bytes of the body that a reader may be given.
pub(crate) fn available(room: u32, entry: &Entry) -> &[u8]
    requires { 0 < room }
    ensures { result.now ≡ available room entry.now }
{
    let body = entry.body.as_slice();
    match entry.life {
        Life::Whole => body,
        Life::Growing | Life::GivenUp => {
            let there = published_bytes(room, entry.content.get());
            front(body, there.saturating_sub(meta_size(entry)))
        }
    }
}
