// Steps of tabs that look for free slots in the map, reserve them, and give them back.
ghost use Rattle.std.specs.Prelude.{◌≡◌, ◌++◌, ◌∷◌, [], ◌⊎◌, ◌↔◌, ◌<◌, ◌==◌, ◌*◌, cond, Contains, Some, slice_get, IsTrue, IfOk, IsErrOf, MatchOption};
ghost use Rattle.core_model.specs.declared.moves.Move.TheVariants as move;
ghost use Rattle.core_model.specs.declared.tab.Piece.{Piece as PieceOf};
ghost use Rattle.link_word.specs.declared.link.Link.TheVariants.{Last as LastLink};
ghost use Rattle.core_model.specs.declared.tab.Tab.TheVariants.{Writing};
ghost use Rattle.core_model.specs.Tabs.{tab_at, OfWriter, OfFreer};
ghost use Rattle.core_model.specs.Table.{Allowed};
ghost use Rattle.core_model.specs.SlotMoves.{MayReserve, MayGiveBack, goes_past, misses, reserves, searches};
ghost use Rattle.link_word.specs.Map.{taken_in};
ghost use Rattle.core_change.specs.Tabs.{changed_tab};
ghost use Rattle.core_table.specs.Inside.{setting};
ghost use Rattle.core_change.specs.Inside.{state};
ghost use Rattle.core_change.specs.Planned.{IsScene, Plans};

use core_change::{
    ChainChange, Change, NotesChange, Refusal, TabChange, Table, TabsChange, TurnChange,
    WordChange, inner_is_free, tab_at, word_addition,
};
use core_model::{INNER_TAB, Kind, Piece, Place, Row, Tab, Turn, View, Writer};
use core_table::{Content, Opening};
use link_word::{Link, is_set, map_bit, map_place, map_words, next_free};
use std::alloc::{AllocError, Global};

/// Whether the piece that a tab chose, if any, is the last of its entry.
fn is_last(piece: &Option<Piece>) -> bool
    ensures { IsTrue result ↔ ((chosen : PieceOf) × (piece.now ≡ Some chosen) × (chosen.next ≡ LastLink)) }
{
    match piece {
        Some(piece) => piece.next == Link::Last,
        None => false,
    }
}

/// Whether a writing tab has room for one slot more, and a use for it.
fn may_reserve(writer: &Writer<Content>) -> bool
    ensures { IsTrue result ↔ MayReserve writer.now }
{
    writer.reserved.as_slice().len() < 2
        && !is_last(&writer.chosen)
        && writer.end != Link::Last
        && !writer.is_ending
}

/// The writing tab of this number, where it may reserve a slot.
pub(crate) fn reserving_writer(view: &View<Content>, tab: u8) -> Option<&Writer<Content>>
    ensures { MatchOption result
        (OfWriter MayReserve (tab_at view.now tab) → ⊥)
        (λ writer. (slice_get view.now.tabs tab ≡ Some (Writing writer.now)) × MayReserve writer.now) }
{
    let Tab::Writing(writer) = tab_at(view, tab)? else {
        return None;
    };
    may_reserve(writer).then_some(writer)
}

/// A copy of the slots, and this one at the end.
pub(crate) fn with_slot(alloc: Global, slots: &Row<u32>, slot: u32) -> Result<Row<u32>, AllocError>
    ensures { IfOk result (λ all. all ≡ slots.now ++ (slot ∷ [])) }
{
    let mut all = slots.as_slice().to_vec(alloc)?;
    all.push(slot)?;
    Ok(Row::from_vec(all))
}

/// How far a search has come after a step at this slot that found this word of the map.
fn goes_past(claim: Option<u64>, slot: u32, found: u64) -> Option<u64>
    ensures { result ≡ goes_past claim slot found }
{
    match claim {
        Some(place) if place == u64::from(slot) => Some(next_free(found, slot)),
        _ => claim,
    }
}

/// What becomes of a tab that looked at a word of the map.
fn searched(tab: &Tab<Content>, word: u32, found: u64) -> TabChange
    requires { 64 * word < 4294967296 }
    ensures { changed_tab tab.now result ≡ searches tab.now word found }
{
    match tab {
        Tab::Writing(writer) => {
            let begun = if word == 0 { Some(0) } else { writer.claim };
            TabChange::Searches(goes_past(begun, 64 * word, found))
        }
        // Any other tab is as it was.
        _ => TabChange::Searches(None),
    }
}

/// A tab looks at a word of the map of taken slots.
pub fn look_map(
    opening: &Opening,
    table: &Table,
    view: &View<Content>,
    tab: u8,
    word: u32,
) -> Result<Change, Refusal>
    requires { IsScene opening.now table.now view.now }
    ensures planned { IfOk result (λ change. Plans opening.now table.now view.now (move.LookMap tab word) change) }
    ensures refused { IsErrOf result Refusal.NotAllowed
        → Allowed (setting opening.now) (state table.now) view.now (move.LookMap tab word) → ⊥ }
{
    if word >= map_words(opening.slots) {
        return Err(Refusal::NotAllowed);
    }
    let Some(now) = tab_at(view, tab) else {
        return Err(Refusal::NotAllowed);
    };
    let place = Place::Map(word);
    let index = opening.index_of(place);
    let found = table.words[index];
    let change = searched(now, word, found);
    Ok(Change {
        answer: found,
        word: Some(WordChange { index, left: found }),
        turn: TurnChange::Same,
        tabs: TabsChange::Becomes(tab, change),
        chain: ChainChange::Same,
        used: None,
        addition: word_addition(Kind::Searched, place, word, found, found, None),
        notes: NotesChange::Same,
    })
}

/// What becomes of a tab that tried to reserve a slot and found this word of the map.
fn tried(
    alloc: Global,
    writer: &Writer<Content>,
    slot: u32,
    found: u64,
) -> Result<TabChange, AllocError>
    ensures { IfOk result (λ change. changed_tab (Writing writer.now) change
        ≡ cond (taken_in found slot == 0) (reserves (Writing writer.now) slot) (misses (Writing writer.now) slot found)) }
{
    if is_set(found, map_place(slot).1) {
        return Ok(TabChange::Searches(goes_past(writer.claim, slot, found)));
    }
    Ok(TabChange::Reserves(with_slot(alloc, &writer.reserved, slot)?))
}

/// A writing tab tries to reserve a slot, and has it where it was free.
pub fn own(
    alloc: Global,
    opening: &Opening,
    table: &Table,
    view: &View<Content>,
    tab: u8,
    slot: u32,
) -> Result<Change, Refusal>
    requires { IsScene opening.now table.now view.now }
    ensures planned { IfOk result (λ change. Plans opening.now table.now view.now (move.Own tab slot) change) }
    ensures refused { IsErrOf result Refusal.NotAllowed
        → Allowed (setting opening.now) (state table.now) view.now (move.Own tab slot) → ⊥ }
{
    if tab >= INNER_TAB || slot >= opening.slots || !inner_is_free(view) {
        return Err(Refusal::NotAllowed);
    }
    let Some(writer) = reserving_writer(view, tab) else {
        return Err(Refusal::NotAllowed);
    };
    let (word, bit) = map_place(slot);
    let place = Place::Map(word);
    let index = opening.index_of(place);
    let found = table.words[index];
    let left = found | map_bit(bit);
    let change = tried(alloc, writer, slot, found)?;
    Ok(Change {
        answer: found,
        word: Some(WordChange { index, left }),
        turn: TurnChange::Same,
        tabs: TabsChange::Becomes(tab, change),
        chain: ChainChange::Same,
        used: None,
        addition: word_addition(Kind::Owned, place, slot, found, left, None),
        notes: NotesChange::Same,
    })
}

/// Whether a tab may give this slot back: a writing tab without a turn one that it reserved and did
/// not link, and a freeing tab one that is loose.
fn may_give_back(tab: &Tab<Content>, slot: u32) -> bool
    ensures { IsTrue result ↔ (OfWriter (MayGiveBack slot) tab.now ⊎ OfFreer (λ f. Contains f.loose slot) tab.now) }
{
    match tab {
        Tab::Writing(writer) => {
            writer.reserved.as_slice().contains(&slot)
                && writer.end != Link::Next(slot)
                && matches!(writer.turn, Turn::NoTurn)
        }
        Tab::Freeing(freer) => freer.loose.as_slice().contains(&slot),
        _ => false,
    }
}

/// A writing or freeing tab gives a slot back, which is free then.
pub fn disown(
    opening: &Opening,
    table: &Table,
    view: &View<Content>,
    tab: u8,
    slot: u32,
) -> Result<Change, Refusal>
    requires { IsScene opening.now table.now view.now }
    ensures planned { IfOk result (λ change. Plans opening.now table.now view.now (move.Disown tab slot) change) }
    ensures refused { IsErrOf result Refusal.NotAllowed
        → Allowed (setting opening.now) (state table.now) view.now (move.Disown tab slot) → ⊥ }
{
    let Some(now) = tab_at(view, tab) else {
        return Err(Refusal::NotAllowed);
    };
    if !may_give_back(now, slot) {
        return Err(Refusal::NotAllowed);
    }
    let (word, bit) = map_place(slot);
    let place = Place::Map(word);
    let index = opening.index_of(place);
    let found = table.words[index];
    let left = found & !map_bit(bit);
    Ok(Change {
        answer: found,
        word: Some(WordChange { index, left }),
        turn: TurnChange::Same,
        tabs: TabsChange::Becomes(tab, TabChange::GivesBack(slot)),
        chain: ChainChange::Same,
        used: None,
        addition: word_addition(Kind::Disowned, place, slot, found, left, None),
        notes: NotesChange::Same,
    })
}
