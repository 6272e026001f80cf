// What a pass has at hand of its tabs, after steps on slots and on what stands beside an anchor.
ghost use Rattle.std.specs.Prelude.{length, slice_index_or, ◌≡◌, ◌≤◌};
ghost use Rattle.tab_states.specs.declared.tabs.At.{At};
ghost use Rattle.core_model.specs.CellMoves;
ghost use Rattle.tab_states.specs.Tabs.{HasLoose, HasLooseRoom, HasNext, HasNumber, HasPlace, ended_here, followed_here, freed_here, given_back_here, loaded_here, loosened_here, loosened_tabs, published_here, reserved_here};

use crate::tabs::{At, FreeingAt, INNER, ReadingAt, WritingAt};
use core_model::{INNER_TAB, Row, Side, Then};
use link_word::Link;

/// What a tab is at that loaded a word beside its anchor. A tab that reads learns from the start where it
/// begins.
pub fn loaded_at(at: At, side: Side, number: u64) -> At
    requires { HasNumber at side number }
    ensures { result ≡ loaded_here at side number }
{
    match (at, side) {
        (At::Reading(reading), Side::Start) if reading.place == 0 => At::Reading(ReadingAt {
            slot: number.checked_sub(1).map(|slot| slot as u32),
            ..reading
        }),
        (at, _) => at,
    }
}

/// What a tab is at that reserved a slot.
pub fn reserved_at(at: At, slot: u32) -> At
    ensures { result ≡ reserved_here at slot }
{
    match at {
        At::Writing(writing) if writing.first.is_none() => At::Writing(WritingAt {
            first: Some(slot),
            ..writing
        }),
        At::Writing(writing) => At::Writing(WritingAt {
            second: Some(slot),
            ..writing
        }),
        at => at,
    }
}

/// What a tab is at that published its first reserved slot.
pub fn published_at(at: At, slot: u32) -> At
    requires { HasPlace at }
    ensures { result ≡ published_here at slot }
{
    match at {
        At::Writing(writing) => At::Writing(WritingAt {
            published: writing.published + 1,
            start: writing.start.or(Some(slot)),
            first: writing.second,
            second: None,
            ..writing
        }),
        at => at,
    }
}

/// What a tab is at that looked at the link of its slot.
pub fn followed_at(at: At, found: Link) -> At
    ensures { result ≡ followed_here at found }
{
    match at {
        At::Reading(reading) => At::Reading(ReadingAt { found, ..reading }),
        At::Freeing(freeing) => At::Freeing(FreeingAt { found, ..freeing }),
        at => at,
    }
}

/// What a tab is at that gave a turn back. One that reads may go on to the next slot.
pub fn ended_at(at: At, then: Then) -> At
    requires { HasNext at then }
    ensures { result ≡ ended_here at then }
{
    match (at, then) {
        (At::Reading(reading), Then::GoesOn) => At::Reading(ReadingAt {
            place: reading.place + 1,
            slot: next_slot(reading.found),
            found: Link::NotWritten,
            ..reading
        }),
        (at, _) => at,
    }
}

/// The slot that a link names.
pub fn next_slot(link: Link) -> Option<u32>
    ensures { result ≡ CellMoves.next_slot link }
{
    match link {
        Link::Next(slot) => Some(slot),
        _ => None,
    }
}

/// What a tab is at that gave a slot back. An inner tab that has no slot left is free, unless its anchor is
/// at FREEING.
pub fn given_back_at(at: At, slot: u32) -> At
    requires { HasLoose at }
    ensures { result ≡ given_back_here at slot }
{
    match at {
        At::Freeing(freeing) => freed_at(freeing),
        At::Writing(writing) if writing.first == Some(slot) => At::Writing(WritingAt {
            first: writing.second,
            second: None,
            ..writing
        }),
        At::Writing(writing) => At::Writing(WritingAt {
            second: None,
            ..writing
        }),
        at => at,
    }
}

/// What the inner tab is at that gave back a slot of the entry that it frees.
fn freed_at(freeing: FreeingAt) -> At
    requires { HasLoose (At.Freeing freeing) }
    ensures { result ≡ freed_here freeing }
{
    let loose = freeing.loose - 1;
    if freeing.is_spent && loose == 0 && !freeing.is_freeing {
        return At::Free;
    }
    At::Freeing(FreeingAt {
        is_spent: !(freeing.is_whole && loose == 0) && freeing.is_spent,
        loose,
        ..freeing
    })
}

/// The first slot of the chain that the inner tab frees has left it: it is loose, or where `tab` is another
/// one that tab has reserved it.
pub fn loosen_at(tabs: &mut Row<At>, tab: u8, slot: u32)
    requires sized { (length tabs.old ≡ 9) × (tab ≤ 8) }
    requires room { HasLooseRoom (slice_index_or tabs.old 8 At.Free) }
    ensures { tabs.new ≡ loosened_tabs tabs.old tab slot }
{
    let is_loose = tab == INNER_TAB;
    let inner = tabs.as_slice()[INNER];
    tabs.set(INNER, loosened_at(inner, is_loose));
    if !is_loose {
        let at = tabs.as_slice()[tab as usize];
        tabs.set(tab as usize, reserved_at(at, slot));
    }
}

/// What the inner tab is at when the first slot has left its chain.
fn loosened_at(at: At, is_loose: bool) -> At
    requires { HasLooseRoom at }
    ensures { result ≡ loosened_here at is_loose }
{
    match at {
        At::Freeing(freeing) => At::Freeing(FreeingAt {
            is_whole: false,
            is_spent: !matches!(freeing.found, Link::Next(_)),
            loose: freeing.loose + is_loose as u32,
            found: Link::NotWritten,
            ..freeing
        }),
        at => at,
    }
}
