// The first slot of a rest leaves its chain: it is loose then, or a writing tab of its pass has it.
ghost use Rattle.std.specs.Prelude.{◌≡◌, ◌<◌, ◌↔◌, Some, slice_get, length, IsTrue, IfOk, IsErrOf, MatchOption};
ghost use Rattle.core_model.specs.declared.moves.Move.TheVariants as move;
ghost use Rattle.core_model.specs.declared.tab.Tab.TheVariants.{Freeing};
ghost use Rattle.core_model.specs.declared.view.Place.TheVariants as place;
ghost use Rattle.core_model.specs.Chains.{rest_of};
ghost use Rattle.core_model.specs.Layout.{index};
ghost use Rattle.core_model.specs.Tabs.{inner, tab_at, OfFreer};
ghost use Rattle.core_model.specs.Table.{Allowed};
ghost use Rattle.core_model.specs.SlotMoves.{IsFront, MayLoosen};
ghost use Rattle.core_table.specs.Inside.{setting};
ghost use Rattle.core_change.specs.Inside.{state};
ghost use Rattle.core_slots.specs.Loosening.{loosened_change, handed_change, unlinked_change};
ghost use Rattle.core_change.specs.Planned.{IsScene, Plans};

use crate::slots::{reserving_writer, with_slot};
use core_change::{
    ChainChange, Change, NotesChange, Refusal, TabChange, Table, TabsChange, TurnChange,
    WordChange, tab_at, word_addition,
};
use core_model::{Freer, INNER_TAB, Kind, Place, Row, Tab, Turn, View, Writer};
use core_table::{Content, Opening};
use std::alloc::{AllocError, Global};

/// Whether the slot is the first of the rest of a freeing tab.
pub(crate) fn is_front(freer: &Freer<Content>, slot: u32) -> bool
    ensures { IsTrue result ↔ IsFront slot freer.now }
{
    match freer.rest.as_slice() {
        [first, ..] => *first == slot,
        [] => false,
    }
}

/// The inner tab, where this slot may leave its rest.
fn loosening_freer(view: &View<Content>, slot: u32) -> Option<&Freer<Content>>
    ensures { MatchOption result
        (OfFreer (MayLoosen slot) (tab_at view.now inner) → ⊥)
        (λ freer. (slice_get view.now.tabs inner ≡ Some (Freeing freer.now)) × MayLoosen slot freer.now) }
{
    let Tab::Freeing(freer) = tab_at(view, INNER_TAB)? else {
        return None;
    };
    let may_loosen = is_front(freer, slot) && freer.is_looked && matches!(freer.turn, Turn::NoTurn);
    may_loosen.then_some(freer)
}

/// A copy of the slots but the first.
pub(crate) fn rest_of(alloc: Global, slots: &Row<u32>) -> Result<Row<u32>, AllocError>
    ensures { IfOk result (λ rest. rest ≡ rest_of slots.now) }
{
    let rest = match slots.as_slice() {
        [_, rest @ ..] => rest.to_vec(alloc)?,
        [] => Vec::new(alloc),
    };
    Ok(Row::from_vec(rest))
}

/// The slot is loose at the inner tab.
fn loosened_change(
    alloc: Global,
    freer: &Freer<Content>,
    slot: u32,
) -> Result<TabsChange, AllocError>
    ensures { IfOk result (λ change. change ≡ loosened_change freer.now slot) }
{
    let rest = rest_of(alloc, &freer.rest)?;
    let loose = with_slot(alloc, &freer.loose, slot)?;
    Ok(TabsChange::Becomes(INNER_TAB, TabChange::Loosens(rest, loose)))
}

/// A writing tab has the slot.
fn handed_change(
    alloc: Global,
    freer: &Freer<Content>,
    tab: u8,
    writer: &Writer<Content>,
    slot: u32,
) -> Result<TabsChange, AllocError>
    ensures { IfOk result (λ change. change ≡ handed_change freer.now tab writer.now slot) }
{
    let rest = rest_of(alloc, &freer.rest)?;
    let loose = Row::from_vec(freer.loose.as_slice().to_vec(alloc)?);
    let reserved = with_slot(alloc, &writer.reserved, slot)?;
    let loosens = TabChange::Loosens(rest, loose);
    Ok(TabsChange::BothBecome(INNER_TAB, loosens, tab, TabChange::Reserves(reserved)))
}

/// The slot's link word is 0 then, and this becomes of the tabs.
fn unlinked_change(opening: &Opening, table: &Table, slot: u32, tabs: TabsChange) -> Change
    requires { index (setting opening.now) (place.Link slot) < length table.now.words.items }
    ensures { result ≡ unlinked_change opening.now table.now slot tabs }
{
    let place = Place::Link(slot);
    let index = opening.index_of(place);
    let found = table.words[index];
    Change {
        answer: found,
        word: Some(WordChange { index, left: 0 }),
        turn: TurnChange::Same,
        tabs,
        chain: ChainChange::Same,
        used: None,
        addition: word_addition(Kind::Linked, place, slot, found, 0, None),
        notes: NotesChange::Same,
    }
}

/// The first slot of the inner tab's rest leaves its chain. Where the tab is the inner one the slot is
/// loose, and otherwise that tab, which writes, reserves it.
pub fn loosen(
    alloc: Global,
    opening: &Opening,
    table: &Table,
    view: &View<Content>,
    tab: u8,
    slot: u32,
) -> Result<Change, Refusal>
    requires { IsScene opening.now table.now view.now }
    ensures planned { IfOk result (λ change. Plans opening.now table.now view.now (move.Loosen tab slot) change) }
    ensures refused { IsErrOf result Refusal.NotAllowed
        → Allowed (setting opening.now) (state table.now) view.now (move.Loosen tab slot) → ⊥ }
{
    let Some(freer) = loosening_freer(view, slot) else {
        return Err(Refusal::NotAllowed);
    };
    if tab == INNER_TAB {
        let tabs = loosened_change(alloc, freer, slot)?;
        return Ok(unlinked_change(opening, table, slot, tabs));
    }
    let Some(writer) = reserving_writer(view, tab) else {
        return Err(Refusal::NotAllowed);
    };
    if !freer.is_freeing {
        return Err(Refusal::NotAllowed);
    }
    let tabs = handed_change(alloc, freer, tab, writer, slot)?;
    Ok(unlinked_change(opening, table, slot, tabs))
}
