// Steps on the words beside an anchor.
ghost use Rattle.std.specs.Prelude.{◌≡◌, ◌≤◌, ◌-◌, ◌==◌, ◌↔◌, cond, true, Some, None, IsTrue, IfOk, IsErrOf};
ghost use Rattle.std.specs.Option.{option_to_list};
ghost use Rattle.core_model.specs.declared.moves.Move.TheVariants as move;
ghost use Rattle.core_model.specs.declared.moves.Side.TheVariants.{Start};
ghost use Rattle.core_model.specs.Layout.{side_index};
ghost use Rattle.core_model.specs.Tabs.{is_reading, is_using};
ghost use Rattle.core_model.specs.Table.{Allowed};
ghost use Rattle.core_model.specs.SlotMoves.{MayStore, loads, loaded};
ghost use Rattle.core_change.specs.declared.tab_change.TabChange.TheVariants.{Learns};
ghost use Rattle.core_table.specs.Inside.{setting};
ghost use Rattle.core_change.specs.Inside.{state};
ghost use Rattle.core_change.specs.Planned.{IsScene, Plans};
ghost use Rattle.core_change.specs.Tabs.{changed_tab};

use crate::writers::start_number;
use core_change::{
    ChainChange, Change, NotesChange, Refusal, TabChange, Table, TabsChange, TurnChange,
    WordChange, anchor_of, inner_is_free, tab_at, word_addition,
};
use core_model::{INNER_TAB, Kind, Place, Side, Sight, Tab, View, Writer};
use core_table::{Content, Opening};

/// Which of the words beside an anchor it is, counted from 0.
fn side_index(side: Side) -> u32
    ensures { result ≡ side_index side }
{
    match side {
        Side::Key0 => 0,
        Side::Key1 => 1,
        Side::Offer => 2,
        Side::Start => 3,
    }
}

fn is_using(tab: &Tab<Content>) -> bool
    ensures { result ≡ is_using tab.now }
{
    matches!(tab, Tab::Reading(_) | Tab::Writing(_) | Tab::Freeing(_))
}

/// The slot that a Start word names, if any: the word is one more than it.
fn start_slot(opening: &Opening, number: u64) -> Option<u32>
    requires { number ≤ opening.now.slots }
    ensures { result ≡ cond (number == 0) None (Some (number - 1)) }
{
    prove!(number <= u64::from(opening.slots));
    match number {
        0 => None,
        _ => Some((number - 1) as u32),
    }
}

/// The slot that a reading tab knows at its place, once it loaded this number: the Start word tells where
/// the entry begins. A tab that does not read learns none.
fn slot_learned(opening: &Opening, tab: &Tab<Content>, side: Side, number: u64) -> Option<u32>
    requires { is_reading tab.now ≡ true → side ≡ Start → number ≤ opening.now.slots }
    ensures { changed_tab tab.now (Learns result) ≡ loaded tab.now side number }
{
    let Tab::Reading(reader) = tab else {
        return None;
    };
    if side == Side::Start && reader.place == 0 {
        return start_slot(opening, number);
    }
    reader.slot
}

/// What a pass has seen of an entry whose reading tab loads a part of the key, or the offer.
fn name_seen(tab: &Tab<Content>, side: Side, value: u64) -> Option<Sight>
    ensures { option_to_list result ≡ loads tab.now side value }
{
    let Tab::Reading(reader) = tab else {
        return None;
    };
    if side == Side::Start {
        return None;
    }
    Some(Sight::Named {
        anchor: reader.anchor,
        version: reader.version,
        side,
        value,
    })
}

/// A tab that reads, writes or frees loads a word beside its anchor.
pub fn load_side(
    opening: &Opening,
    table: &Table,
    view: &View<Content>,
    tab: u8,
    side: Side,
) -> Result<Change, Refusal>
    requires { IsScene opening.now table.now view.now }
    ensures planned { IfOk result (λ change. Plans opening.now table.now view.now (move.LoadSide tab side) change) }
    ensures refused { IsErrOf result Refusal.NotAllowed
        → Allowed (setting opening.now) (state table.now) view.now (move.LoadSide tab side) → ⊥ }
{
    let Some(now) = tab_at(view, tab) else {
        return Err(Refusal::NotAllowed);
    };
    if !is_using(now) {
        return Err(Refusal::NotAllowed);
    }
    let place = Place::Beside(side, anchor_of(now));
    let index = opening.index_of(place);
    let found = table.words[index];
    let slot = slot_learned(opening, now, side, found);
    let sight = name_seen(now, side, found);
    Ok(Change {
        answer: found,
        word: Some(WordChange { index, left: found }),
        turn: TurnChange::Same,
        tabs: TabsChange::Becomes(tab, TabChange::Learns(slot)),
        chain: ChainChange::Same,
        used: None,
        addition: word_addition(Kind::Loaded, place, side_index(side), found, found, sight),
        notes: NotesChange::Same,
    })
}

/// Whether a writing tab may store this number: before its first piece is chosen it names its entry, and
/// its start is what it has published.
fn may_store(opening: &Opening, writer: &Writer<Content>, side: Side, value: u64) -> bool
    ensures { IsTrue result ↔ MayStore (setting opening.now) writer.now side value }
{
    let published = writer.published.as_slice();
    let is_unused = writer.chosen.is_none() && published.is_empty();
    match side {
        Side::Start => value == start_number(published),
        Side::Offer => is_unused && u64::from(opening.slots) <= value,
        Side::Key0 | Side::Key1 => is_unused,
    }
}

/// A writing tab stores a word beside its anchor.
pub fn store_side(
    opening: &Opening,
    table: &Table,
    view: &View<Content>,
    tab: u8,
    side: Side,
    value: u64,
) -> Result<Change, Refusal>
    requires { IsScene opening.now table.now view.now }
    ensures planned { IfOk result (λ change. Plans opening.now table.now view.now (move.StoreSide tab side value) change) }
    ensures refused { IsErrOf result Refusal.NotAllowed
        → Allowed (setting opening.now) (state table.now) view.now (move.StoreSide tab side value) → ⊥ }
{
    // What the word was does not matter.
    let _ = table;
    if tab >= INNER_TAB || !inner_is_free(view) {
        return Err(Refusal::NotAllowed);
    }
    let Some(now) = tab_at(view, tab) else {
        return Err(Refusal::NotAllowed);
    };
    let Tab::Writing(writer) = now else {
        return Err(Refusal::NotAllowed);
    };
    if writer.is_appending || !may_store(opening, writer, side, value) {
        return Err(Refusal::NotAllowed);
    }
    let place = Place::Beside(side, writer.anchor);
    Ok(Change {
        answer: 0,
        word: Some(WordChange {
            index: opening.index_of(place),
            left: value,
        }),
        turn: TurnChange::Same,
        tabs: TabsChange::Becomes(tab, TabChange::Stores(side, value)),
        chain: ChainChange::Same,
        used: None,
        addition: word_addition(Kind::Stored, place, side_index(side), 0, value, None),
        notes: NotesChange::Same,
    })
}
