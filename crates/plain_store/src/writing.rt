// Writing an entry.
ghost use Rattle.std.specs.Prelude.{◌≡◌, ◌<◌, ◌≤◌, ◌+◌, ◌-◌, ◌^◌, length, MatchOption, IsSomeAnd, None};
ghost use Rattle.plain_model.specs.Store.{entry_at, published};
ghost use Rattle.plain_model.specs.Slots.{grown_as};
ghost use Rattle.plain_model.specs.Writing.{step, settle, close_writer, refused_by, lacking, append, taken_by, entry_of, begin_at, begin_free, begin, add, last_slot, finish, end, give_up};

use crate::look::{is_idle, is_left_over, is_vacant, meta_size, published, word_at};
use crate::slots::{claim, grow};
use lock_word::GREATEST_VERSION;
use plain_model::{Entry, Life, Place, Plain, Refusal, Setting, Size, Tab, Text};
use rock_io::Octets;
use script_text::Answer;
use store_key::{anchor_of, key_of};

/// Lets an entry go that is left over.
pub(crate) fn settle(store: &mut Plain, anchor: u32)
    ensures { store.new ≡ settle anchor store.old }
{
    if is_left_over(store, anchor) {
        store.places.vacate(anchor);
    }
}

/// Ends the growing of a tab's entry.
fn close_writer(store: &mut Plain, life: Life, tab: u8, anchor: u32)
    requires { tab < 8 }
    ensures { store.new ≡ close_writer life tab anchor store.old }
{
    store.tabs[tab as usize] = Tab::Free;
    store.places.end(anchor, life);
    settle(store, anchor);
}

/// Gives an entry up that got no slot.
fn refuse(store: &mut Plain, tab: u8, anchor: u32, refusal: Refusal) -> Answer
    requires { tab < 8 }
    ensures after { store.new ≡ close_writer Life.GivenUp tab anchor store.old }
    ensures answer { result ≡ refused_by refusal }
{
    close_writer(store, Life::GivenUp, tab, anchor);
    match refusal {
        Refusal::Full => Answer::Full,
        Refusal::Large => Answer::Large,
    }
}

/// How many bytes of its body an entry lacks.
fn lacking(entry: &Entry) -> u64
    ensures value { result ≡ lacking entry.now }
    ensures small { entry.now.content + result ≤ 2 ^ 62 }
{
    let length = entry.body.as_slice().len() as u64;
    left_of(length, entry.content.get(), meta_size(entry))
}

/// How many bytes are left of a body of so many, of which so many are there behind the metadata.
fn left_of(length: u64, content: u64, meta: u64) -> u64
    requires length { length ≤ 2 ^ 60 }
    requires content { content ≤ 2 ^ 62 }
    requires meta { meta ≤ 2 ^ 61 }
    ensures value { result ≡ length - (content - meta) }
    ensures small { content + result ≤ 2 ^ 62 }
{
    length.saturating_sub(content.saturating_sub(meta))
}

/// How many bytes an entry has and lacks.
struct Sizes {
    content: u64,
    lacking: u64,
}

/// The sizes of the entry at an anchor.
fn sizes_at(store: &Plain, anchor: u32) -> Option<Sizes>
    ensures { MatchOption result (entry_at store.now anchor ≡ None) (λ sizes.
        IsSomeAnd (entry_at store.now anchor) (λ e. (sizes.content ≡ e.content) × (sizes.lacking ≡ lacking e) × (sizes.content + sizes.lacking ≤ 2 ^ 62))) }
{
    let Some(place) = store.places.as_slice().get(anchor as usize) else {
        return None;
    };
    let Some(entry) = &place.entry else {
        return None;
    };
    let lacking = lacking(entry);
    Some(Sizes {
        content: entry.content.get(),
        lacking,
    })
}

/// Adds so many bytes to an entry that has `content` of them.
fn append(
    setting: &Setting,
    store: &mut Plain,
    anchor: u32,
    content: u64,
    count: u64,
) -> Option<Refusal>
    requires anchors { 0 < setting.now.anchors }
    requires room { 0 < setting.now.room }
    requires small { content + count ≤ 2 ^ 62 }
    ensures { append setting.now anchor count content store.old ≡ grown_as store.new result }
{
    let whole = content + count;
    let before = published(setting.room, content);
    let publishings = published(setting.room, whole).saturating_sub(before);
    grow(setting, store, anchor, whole, publishings, before + 1)
}

/// Gives a version out, to a new entry at an anchor.
fn begin_at(setting: &Setting, store: &mut Plain, tab: u8, anchor: u32, entry: Entry) -> Answer
    requires room { 0 < setting.now.room }
    requires tab { tab < 8 }
    ensures { begin_at setting.now tab anchor entry store.old ≡ step result store.new }
{
    if !(is_vacant(store, anchor) || is_idle(store, anchor)) {
        let word = word_at(setting, store, anchor);
        return Answer::Busy {
            looked: word,
            found: word,
        };
    }
    if store.counter >= GREATEST_VERSION {
        return Answer::Spent {
            versions: store.counter,
        };
    }
    store.counter += 1;
    let version = store.counter as u32;
    let place = Place {
        version,
        doom: false,
        entry: Some(entry),
    };
    store.places.put(anchor, place);
    store.tabs[tab as usize] = Tab::Writing { anchor };
    Answer::Begun { version }
}

/// An entry of which only the metadata is there.
fn new_entry(url: Octets, body: Octets, offer: u64) -> Entry
    requires url { length url ≤ 2048 }
    requires body { length body ≤ 4194304 }
    ensures { result ≡ entry_of url body offer }
{
    let key = key_of(url.as_slice());
    let content = Size::new(32 + url.as_slice().len() as u64);
    Entry {
        url: Text::from_octets(url),
        key,
        body: Text::from_octets(body),
        offer,
        content,
        life: Life::Growing,
    }
}

/// Begins to write on a free tab.
fn begin_free(
    setting: &Setting,
    store: &mut Plain,
    tab: u8,
    url: Octets,
    body: Octets,
    offer: u64,
) -> Answer
    requires anchors { 0 < setting.now.anchors }
    requires room { 0 < setting.now.room }
    requires tab { tab < 8 }
    requires url { length url ≤ 2048 }
    requires body { length body ≤ 4194304 }
    ensures { begin_free setting.now tab url body offer store.old ≡ step result store.new }
{
    if u64::from(setting.room) < 32 + url.as_slice().len() as u64 {
        return Answer::LongUrl;
    }
    let anchor = anchor_of(&key_of(url.as_slice()), setting.anchors);
    let entry = new_entry(url, body, offer);
    begin_at(setting, store, tab, anchor, entry)
}

/// Begins to write on a tab what is offered under this number.
pub(crate) fn begin(
    setting: &Setting,
    store: &mut Plain,
    tab: u8,
    url: Octets,
    body: Octets,
    offer: u64,
) -> Answer
    requires anchors { 0 < setting.now.anchors }
    requires room { 0 < setting.now.room }
    requires tab { tab < 8 }
    requires url { length url ≤ 2048 }
    requires body { length body ≤ 4194304 }
    ensures { begin setting.now tab url body offer store.old ≡ step result store.new }
{
    match store.tabs[tab as usize] {
        Tab::Free => begin_free(setting, store, tab, url, body, offer),
        Tab::Writing { .. } | Tab::Reading { .. } => Answer::Tab,
    }
}

/// Adds the next bytes of a tab's body, at most so many.
pub(crate) fn add(setting: &Setting, store: &mut Plain, tab: u8, count: u32) -> Answer
    requires anchors { 0 < setting.now.anchors }
    requires room { 0 < setting.now.room }
    requires tab { tab < 8 }
    ensures { add setting.now tab count store.old ≡ step result store.new }
{
    let Tab::Writing { anchor } = store.tabs[tab as usize] else {
        return Answer::Tab;
    };
    let Some(Sizes { content, lacking }) = sizes_at(store, anchor) else {
        return Answer::Tab;
    };
    let count = u64::from(count).min(lacking);
    match append(setting, store, anchor, content, count) {
        Some(refusal) => refuse(store, tab, anchor, refusal),
        None => Answer::Added {
            count: count as u32,
        },
    }
}

/// Claims the last slot, where nothing was published.
fn last_slot(setting: &Setting, store: &mut Plain, content: u64) -> Option<Refusal>
    requires anchors { 0 < setting.now.anchors }
    requires room { 0 < setting.now.room }
    ensures { last_slot setting.now content store.old ≡ grown_as store.new result }
{
    if published(setting.room, content) != 0 || claim(setting, store, 0) {
        None
    } else {
        Some(Refusal::Full)
    }
}

/// Closes the entry of a tab.
fn finish(store: &mut Plain, tab: u8, anchor: u32) -> Answer
    requires { tab < 8 }
    ensures { finish tab anchor store.old ≡ step result store.new }
{
    let (version, doom) = match store.places.as_slice().get(anchor as usize) {
        None => (0, false),
        Some(place) => (place.version, place.doom),
    };
    close_writer(store, Life::Whole, tab, anchor);
    if doom {
        Answer::Doomed { version }
    } else {
        Answer::Stored { version }
    }
}

/// Adds the rest of a tab's body, and closes the entry.
pub(crate) fn end(setting: &Setting, store: &mut Plain, tab: u8) -> Answer
    requires anchors { 0 < setting.now.anchors }
    requires room { 0 < setting.now.room }
    requires tab { tab < 8 }
    ensures { end setting.now tab store.old ≡ step result store.new }
{
    let Tab::Writing { anchor } = store.tabs[tab as usize] else {
        return Answer::Tab;
    };
    let Some(Sizes { content, lacking }) = sizes_at(store, anchor) else {
        return Answer::Tab;
    };
    if let Some(refusal) = append(setting, store, anchor, content, lacking) {
        return refuse(store, tab, anchor, refusal);
    }
    match last_slot(setting, store, content + lacking) {
        Some(refusal) => refuse(store, tab, anchor, refusal),
        None => finish(store, tab, anchor),
    }
}

/// Gives up the entry of a tab.
pub(crate) fn give_up(store: &mut Plain, tab: u8) -> Answer
    requires { tab < 8 }
    ensures { give_up tab store.old ≡ step result store.new }
{
    let Tab::Writing { anchor } = store.tabs[tab as usize] else {
        return Answer::Tab;
    };
    close_writer(store, Life::GivenUp, tab, anchor);
    Answer::Dropped
}
