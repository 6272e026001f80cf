// Reading and purging an entry.
ghost use Rattle.std.specs.Prelude.{◌≡◌, ◌<◌, IfOk, IfErr};
ghost use Rattle.store_key.specs.Key.{key_of};
ghost use Rattle.store_key.specs.Anchor.{anchor_of};
ghost use Rattle.plain_model.specs.Store.{entry_at, with_tab};
ghost use Rattle.plain_model.specs.Writing.{step};
ghost use Rattle.plain_model.specs.Reading.{judge, has_url, open_at, open_tab, told, more, close, doom_at, purge_at, purge, goes_doomed, wiped_by, wipe};

use crate::look::{available, behind, epoch_at, epoch_of, is_left_over};
use crate::writing::settle;
use lock_word::{Cause, Epoch, cause_of};
use plain_model::{Life, Plain, Setting, Tab};
use rock_io::{Memory, Octets};
use script_text::Answer;
use std::alloc::Global;
use store_key::{anchor_of, key_of};

/// Why the entry at an anchor is none to read for this key. None is a hit.
fn judge(setting: &Setting, store: &Plain, anchor: u32, wanted: &[u8; 16]) -> Option<Cause>
    requires { 0 < setting.now.room }
    ensures { result ≡ judge setting.now store.now anchor wanted.now }
{
    let epoch = epoch_at(setting, store, anchor);
    let Some(place) = store.places.as_slice().get(anchor as usize) else {
        return Some(Cause::Absent { epoch });
    };
    match &place.entry {
        None => Some(Cause::Absent { epoch }),
        Some(entry) => cause_of(&epoch, &entry.key, wanted),
    }
}

/// Whether the entry at an anchor has this URL.
fn has_url(store: &Plain, anchor: u32, url: &[u8]) -> bool
    ensures { result ≡ has_url url.now (entry_at store.now anchor) }
{
    let Some(place) = store.places.as_slice().get(anchor as usize) else {
        return false;
    };
    match &place.entry {
        None => false,
        Some(entry) => entry.url.as_slice() == url,
    }
}

/// Opens the entry of a URL on a tab.
pub(crate) fn open_tab(setting: &Setting, store: &mut Plain, tab: u8, url: &[u8]) -> Answer
    requires anchors { 0 < setting.now.anchors }
    requires room { 0 < setting.now.room }
    requires tab { tab < 8 }
    ensures { open_tab setting.now tab url.now store.old ≡ step result store.new }
{
    let Tab::Free = store.tabs[tab as usize] else {
        return Answer::Tab;
    };
    let key = key_of(url);
    let anchor = anchor_of(&key, setting.anchors);
    if let Some(cause) = judge(setting, store, anchor, &key) {
        return Answer::Miss { cause };
    }
    let Epoch { version, .. } = epoch_at(setting, store, anchor);
    let is_other = !has_url(store, anchor, url);
    store.tabs[tab as usize] = Tab::Reading {
        anchor,
        given: 0,
        is_other,
    };
    Answer::Opened { version }
}

/// The bytes that a reader gets, said by what becomes of the entry.
fn told(life: Life, epoch: Epoch, bytes: Octets) -> Answer
    ensures { result ≡ told life epoch bytes }
{
    match life {
        Life::Growing => Answer::Part { epoch, bytes },
        Life::Whole => Answer::End { bytes },
        Life::GivenUp => Answer::Halted { bytes },
    }
}

/// Reads what is there and was not given yet.
pub(crate) fn more(
    alloc: Global,
    setting: &Setting,
    store: &mut Plain,
    tab: u8,
) -> Result<Answer, Memory>
    requires room { 0 < setting.now.room }
    requires tab { tab < 8 }
    ensures { IfOk result (λ answer. more setting.now tab store.old ≡ step answer store.new) }
{
    let Tab::Reading {
        anchor,
        given,
        is_other,
    } = store.tabs[tab as usize]
    else {
        return Ok(Answer::Tab);
    };
    if is_other {
        return Ok(Answer::OtherUrl);
    }
    let Some(place) = store.places.as_slice().get(anchor as usize) else {
        return Ok(Answer::Tab);
    };
    let Some(entry) = &place.entry else {
        return Ok(Answer::Tab);
    };
    let there = available(setting.room, entry);
    let bytes = Octets::from_vec(behind(there, given).to_vec(alloc)?);
    let answer = told(entry.life, epoch_of(setting.room, place), bytes);
    let given = there.len() as u64;
    store.tabs[tab as usize] = Tab::Reading {
        anchor,
        given,
        is_other: false,
    };
    Ok(answer)
}

/// Closes a tab that reads.
pub(crate) fn close(store: &mut Plain, tab: u8) -> Answer
    requires { tab < 8 }
    ensures { close tab store.old ≡ step result store.new }
{
    let Tab::Reading { anchor, .. } = store.tabs[tab as usize] else {
        return Answer::Tab;
    };
    store.tabs[tab as usize] = Tab::Free;
    settle(store, anchor);
    Answer::Closed
}

/// An entry that was doomed.
#[derive(Clone, Copy)]
struct Doomed {
    /// The doomed epoch.
    epoch: Epoch,
    /// Whether it went at once.
    went: bool,
}

/// Dooms the entry of a URL's key.
fn doom(setting: &Setting, store: &mut Plain, url: &[u8]) -> Result<Doomed, Cause>
    requires anchors { 0 < setting.now.anchors }
    requires room { 0 < setting.now.room }
    ensures purged { IfOk result (λ doomed. purge setting.now url.now store.old ≡ step (Answer.Purged doomed.epoch) store.new) }
    ensures went { IfOk result (λ doomed. doomed.went ≡ goes_doomed (anchor_of (key_of url.now) setting.now.anchors) store.old) }
    ensures refused { IfErr result (λ cause. purge setting.now url.now store.old ≡ step (Answer.NoEntry cause) store.new) }
{
    let key = key_of(url);
    let anchor = anchor_of(&key, setting.anchors);
    if let Some(cause) = judge(setting, store, anchor, &key) {
        return Err(cause);
    }
    store.places.doom(anchor);
    let epoch = epoch_at(setting, store, anchor);
    let went = is_left_over(store, anchor);
    settle(store, anchor);
    Ok(Doomed { epoch, went })
}

/// Takes the entry of a URL's key out of use.
pub(crate) fn purge(setting: &Setting, store: &mut Plain, url: &[u8]) -> Answer
    requires anchors { 0 < setting.now.anchors }
    requires room { 0 < setting.now.room }
    ensures { purge setting.now url.now store.old ≡ step result store.new }
{
    match doom(setting, store, url) {
        Ok(Doomed { epoch, .. }) => Answer::Purged { epoch },
        Err(cause) => Answer::NoEntry { cause },
    }
}

/// Takes it out of use, and tells whether it is erased.
pub(crate) fn wipe(setting: &Setting, store: &mut Plain, url: &[u8]) -> Answer
    requires anchors { 0 < setting.now.anchors }
    requires room { 0 < setting.now.room }
    ensures { wipe setting.now url.now store.old ≡ step result store.new }
{
    match doom(setting, store, url) {
        Ok(Doomed { epoch, went: true }) => Answer::Wiped { epoch },
        Ok(Doomed { epoch, went: false }) => Answer::Later { epoch },
        Err(cause) => Answer::NoEntry { cause },
    }
}
