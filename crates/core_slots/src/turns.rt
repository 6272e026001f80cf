// Steps on the turns at cells.
ghost use Rattle.std.specs.Prelude.{◌≡◌, ◌<◌, ◌==◌, ◌↔◌, cond, length, true, IsTrue, IfOk, IsErrOf};
ghost use Rattle.core_model.specs.declared.moves.Move.TheVariants as move;
ghost use Rattle.core_model.specs.declared.tab.Reader.{Reader as ReaderOf};
ghost use Rattle.core_model.specs.declared.tab.Tab.TheVariants.{Reading};
ghost use Rattle.core_model.specs.Cells.{CellsSound};
ghost use Rattle.core_model.specs.Tabs.{anchor_of, is_reading};
ghost use Rattle.core_model.specs.Table.{Allowed};
ghost use Rattle.core_model.specs.CellMoves.{EndsSo, HasWiped, MayRead, MayWipe, MayWrite, Holds, next_slot, was_written, was_settled};
ghost use Rattle.core_table.specs.declared.content.Content.{Content as ContentOf};
ghost use Rattle.core_table.specs.Inside.{setting};
ghost use Rattle.core_change.specs.Inside.{state};
ghost use Rattle.core_change.specs.Planned.{IsScene, Plans};
ghost use Rattle.core_slots.specs.Trying.{MayTry, tried_turn, tried_tabs, ended_sight, ended_tabs};

use crate::links::is_next;
use crate::loosening::is_front;
use crate::news::brought;
use crate::publishing::{is_alone, is_first};
use core_change::{
    ChainChange, Change, NotesChange, Refusal, TabChange, Table, TabsChange, TurnChange,
    WordChange, tab_at, word_addition,
};
use core_model::{Addition, Freer, Kind, Place, Reader, Sight, Tab, Then, Turn, View, Writer};
use core_table::{Content, Opening};
use link_word::Link;
use std::alloc::Global;

/// Whether a reading tab found the link at this slot written, which is at its place.
fn may_read(table: &Table, reader: &Reader<Content>, slot: u32) -> bool
    requires { reader.now.anchor < length table.now.chains.items }
    ensures { IsTrue result ↔ MayRead (state table.now) slot reader.now }
{
    is_next(table, reader, slot) && reader.found != Link::NotWritten
}

/// Whether a writing tab logged a piece for this slot, which is the first that it reserved.
fn may_write(writer: &Writer<Content>, slot: u32) -> bool
    ensures { IsTrue result ↔ MayWrite slot writer.now }
{
    is_first(&writer.reserved, slot) && writer.logged_in == Some(slot)
}

/// Whether a freeing tab may wipe this slot, the first of a doomed entry of which no slot has left the chain.
fn may_wipe(freer: &Freer<Content>, slot: u32) -> bool
    ensures { IsTrue result ↔ MayWipe slot freer.now }
{
    is_front(freer, slot) && freer.is_freeing && freer.is_whole && freer.is_doomed
}

/// Whether a tab may try to take the turn at this slot.
fn may_try(table: &Table, tab: &Tab<Content>, slot: u32) -> bool
    requires { is_reading tab.now ≡ true → anchor_of tab.now < length table.now.chains.items }
    ensures { IsTrue result ↔ MayTry (state table.now) slot tab.now }
{
    match tab {
        Tab::Reading(reader) => {
            matches!(reader.turn, Turn::NoTurn) && may_read(table, reader, slot)
        }
        Tab::Writing(writer) => matches!(writer.turn, Turn::NoTurn) && may_write(writer, slot),
        Tab::Freeing(freer) => matches!(freer.turn, Turn::NoTurn) && may_wipe(freer, slot),
        _ => false,
    }
}

/// What becomes of the turn word: the turn is taken then.
fn tried_word(found: u64) -> u64
    ensures { result ≡ cond (found == 0) 1 found }
{
    if found == 0 { 1 } else { found }
}

/// What becomes of the turn, where the turn word told this number.
fn tried_turn(tab: u8, slot: u32, found: u64) -> TurnChange
    ensures { result ≡ tried_turn tab slot found }
{
    if found == 0 {
        TurnChange::Taken(tab, slot)
    } else {
        TurnChange::Same
    }
}

/// What becomes of the tab beside its turn: the piece of a writing tab is not written yet where the turn is
/// new.
fn tried_tabs(tab: u8, now: &Tab<Content>, found: u64) -> TabsChange
    ensures { result ≡ tried_tabs tab now.now found }
{
    let Tab::Writing(writer) = now else {
        return TabsChange::Same;
    };
    let is_written = found != 0 && writer.is_written;
    let is_settled = found != 0 && writer.is_settled;
    TabsChange::Becomes(tab, TabChange::Leaves(is_written, is_settled))
}

/// A reading, writing or freeing tab tries to take the turn at a slot: it has it, and the cell, where no tab had it.
/// The pass then knows each piece that was logged for the slot.
pub fn try_turn(
    alloc: Global,
    opening: &Opening,
    table: &Table,
    view: &View<Content>,
    tab: u8,
    slot: u32,
) -> Result<Change, Refusal>
    requires { IsScene opening.now table.now view.now }
    ensures planned { IfOk result (λ change. Plans opening.now table.now view.now (move.TryTurn tab slot) change) }
    ensures refused { IsErrOf result Refusal.NotAllowed
        → Allowed (setting opening.now) (state table.now) view.now (move.TryTurn tab slot) → ⊥ }
{
    let Some(now) = tab_at(view, tab) else {
        return Err(Refusal::NotAllowed);
    };
    if !may_try(table, now, slot) {
        return Err(Refusal::NotAllowed);
    }
    let place = Place::Turn(slot);
    let index = opening.index_of(place);
    let found = table.words[index];
    let left = tried_word(found);
    let learned = brought(alloc, table, view, slot, found)?;
    Ok(Change {
        answer: found,
        word: Some(WordChange { index, left }),
        turn: tried_turn(tab, slot, found),
        tabs: tried_tabs(tab, now, found),
        chain: ChainChange::Same,
        used: None,
        addition: Addition {
            learned: Some(learned),
            ..word_addition(Kind::Tried, place, slot, found, left, None)
        },
        notes: NotesChange::Same,
    })
}

/// Whether the tab has the turn at this slot, with the cell out of its place or in it.
pub(crate) fn holds(tab: &Tab<Content>, slot: u32, is_out: bool) -> bool
    ensures { IsTrue result ↔ Holds slot is_out tab.now }
{
    let turn = match tab {
        Tab::Reading(reader) => &reader.turn,
        Tab::Writing(writer) => &writer.turn,
        Tab::Freeing(freer) => &freer.turn,
        _ => return false,
    };
    match turn {
        Turn::Has(hold) => hold.slot == slot && hold.is_out == is_out,
        Turn::NoTurn => false,
    }
}

fn was_written(turn: &Turn<Content>) -> bool
    ensures { result ≡ was_written turn.now }
{
    match turn {
        Turn::Has(hold) => hold.is_written,
        Turn::NoTurn => false,
    }
}

pub(crate) fn was_settled(turn: &Turn<Content>) -> bool
    ensures { result ≡ was_settled turn.now }
{
    match turn {
        Turn::Has(hold) => hold.is_settled,
        Turn::NoTurn => false,
    }
}

/// The slot that a link names, if any.
fn next_slot(link: Link) -> Option<u32>
    ensures { result ≡ next_slot link }
{
    match link {
        Link::Next(slot) => Some(slot),
        Link::NotWritten | Link::Last => None,
    }
}

/// What becomes of a tab that ends its turn, beside the turn: a reading one may go on, and a writing one
/// keeps whether its piece is in the cell.
fn ended_tabs(opening: &Opening, tab: u8, now: &Tab<Content>, then: Then) -> TabsChange
    requires { (reader : ReaderOf ContentOf) → now.now ≡ Reading reader → reader.place < opening.now.slots }
    ensures { result ≡ ended_tabs tab now.now then }
{
    match now {
        Tab::Reading(reader) => {
            let Then::GoesOn = then else {
                return TabsChange::Same;
            };
            prove!(reader.place < opening.slots);
            let slot = next_slot(reader.found);
            TabsChange::Becomes(tab, TabChange::GoesOn(reader.place + 1, slot))
        }
        Tab::Writing(writer) => {
            let is_written = was_written(&writer.turn);
            let is_settled = was_settled(&writer.turn);
            TabsChange::Becomes(tab, TabChange::Leaves(is_written, is_settled))
        }
        _ => TabsChange::Same,
    }
}

/// Whether a crash leaves the cell that a freeing tab has blank, and nothing else.
fn has_wiped(opening: &Opening, freer: &Freer<Content>) -> bool
    ensures { IsTrue result ↔ HasWiped (setting opening.now) freer.now }
{
    let _ = opening;
    match &freer.turn {
        Turn::Has(hold) => is_alone(Content::Blank, hold.cell.possible.as_slice()),
        Turn::NoTurn => false,
    }
}

/// Whether a tab may end its turn so: none but a freeing one may say that it wiped the slot.
fn ends_so(opening: &Opening, tab: &Tab<Content>, then: Then) -> bool
    ensures { IsTrue result ↔ EndsSo (setting opening.now) then tab.now }
{
    match then {
        Then::Stays | Then::GoesOn => true,
        Then::Wiped => match tab {
            Tab::Freeing(freer) => has_wiped(opening, freer),
            _ => false,
        },
    }
}

/// What the pass sees where a tab ends its turn so: that the slot was wiped, if the tab says so.
fn ended_sight(tab: &Tab<Content>, slot: u32, then: Then) -> Option<Sight>
    ensures { result ≡ ended_sight tab.now slot then }
{
    let Tab::Freeing(freer) = tab else {
        return None;
    };
    let Then::Wiped = then else {
        return None;
    };
    Some(Sight::Wiped {
        anchor: freer.anchor,
        version: freer.version,
        slot,
    })
}

/// A tab gives the turn back, and the cell is home then. A reading tab may go on to the next slot, and a freeing
/// one may say that it wiped the slot.
pub fn end_turn(
    opening: &Opening,
    table: &Table,
    view: &View<Content>,
    tab: u8,
    slot: u32,
    then: Then,
) -> Result<Change, Refusal>
    requires scene { IsScene opening.now table.now view.now }
    requires cells { CellsSound (setting opening.now) (state table.now) }
    ensures planned { IfOk result (λ change. Plans opening.now table.now view.now (move.EndTurn tab slot then) change) }
    ensures refused { IsErrOf result Refusal.NotAllowed
        → Allowed (setting opening.now) (state table.now) view.now (move.EndTurn tab slot then) → ⊥ }
{
    let Some(now) = tab_at(view, tab) else {
        return Err(Refusal::NotAllowed);
    };
    if !holds(now, slot, false) {
        return Err(Refusal::NotAllowed);
    }
    if !ends_so(opening, now, then) {
        return Err(Refusal::NotAllowed);
    }
    let place = Place::Turn(slot);
    let index = opening.index_of(place);
    let found = table.words[index];
    let sight = ended_sight(now, slot, then);
    Ok(Change {
        answer: found,
        word: Some(WordChange { index, left: 0 }),
        turn: TurnChange::Ended(tab, slot),
        tabs: ended_tabs(opening, tab, now, then),
        chain: ChainChange::Same,
        used: None,
        addition: word_addition(Kind::Ended, place, slot, found, 0, sight),
        notes: NotesChange::Same,
    })
}
