// A writing tab publishes its first reserved slot.
ghost use Rattle.std.specs.Prelude.{◌≡◌, ◌<◌, ◌+◌, ◌++◌, ◌∷◌, [], ◌↔◌, Some, None, true, false, slice_get, slice_index_or, length, IsTrue, IfOk, IsErrOf, MatchOption};
ghost use Rattle.core_model.specs.declared.moves.Move.TheVariants as move;
ghost use Rattle.core_model.specs.declared.tab.Cell.{Cell as CellOf};
ghost use Rattle.core_model.specs.declared.tab.Piece.{Piece as PieceOf};
ghost use Rattle.core_model.specs.declared.tab.Tab.TheVariants.{Writing};
ghost use Rattle.core_model.specs.declared.view.Place.TheVariants as place;
ghost use Rattle.core_model.specs.Chains.{rest_of};
ghost use Rattle.core_model.specs.Layout.{index};
ghost use Rattle.core_model.specs.Steps.{longer};
ghost use Rattle.core_model.specs.Tabs.{tab_at, OfWriter};
ghost use Rattle.core_model.specs.Table.{Allowed};
ghost use Rattle.core_model.specs.SlotMoves.{MayPublish};
ghost use Rattle.core_table.specs.declared.content.Content.{Content as ContentOf};
ghost use Rattle.core_table.specs.declared.content.Content.TheVariants.{Offered};
ghost use Rattle.core_table.specs.Inside.{setting};
ghost use Rattle.core_change.specs.Inside.{state};
ghost use Rattle.core_change.specs.Planned.{IsScene, Plans};
ghost use Rattle.core_slots.specs.Publishing.{published_tab, published_addition, published_change};

use crate::loosening::rest_of;
use crate::slots::with_slot;
use core_change::{
    ChainChange, Change, NotesChange, Refusal, TabChange, Table, TabsChange, TurnChange,
    WordChange, tab_at,
};
use core_model::{
    Addition, Chain, INNER_TAB, Item, Kind, Names, Piece, Place, Row, Sight, Tab, Trace, View,
    Writer,
};
use core_table::{Content, Opening};
use link_word::{Link, pack_link};
use std::alloc::{AllocError, Global};

/// Whether the slot is the first of these.
pub(crate) fn is_first(slots: &Row<u32>, slot: u32) -> bool
    ensures { IsTrue result ↔ (slots.now ≡ slot ∷ rest_of slots.now) }
{
    match slots.as_slice() {
        [first, ..] => *first == slot,
        [] => false,
    }
}

/// The piece that the tab chose, where it is for this slot and goes on at this link.
fn chosen_piece(writer: &Writer<Content>, slot: u32, link: Link) -> Option<Piece>
    ensures { MatchOption result
        ((writer.now.reserved ≡ slot ∷ rest_of writer.now.reserved) → (writer.now.is_ending ≡ false)
        → (piece : PieceOf) → (writer.now.chosen ≡ Some piece) → (piece.next ≡ link) → ⊥)
        (λ piece. (writer.now.reserved ≡ slot ∷ rest_of writer.now.reserved) × (writer.now.is_ending ≡ false)
        × (writer.now.chosen ≡ Some piece) × (piece.next ≡ link)) }
{
    let piece = writer.chosen?;
    let may_go = is_first(&writer.reserved, slot) && !writer.is_ending && piece.next == link;
    may_go.then_some(piece)
}

/// Whether this is the only one of these contents.
pub(crate) fn is_alone(content: Content, contents: &[Content]) -> bool
    ensures { IsTrue result ↔ (contents.now ≡ content ∷ []) }
{
    match contents {
        [only] => *only == content,
        _ => false,
    }
}

/// Whether the cell of this slot is home and has this piece, and has it alone where the piece is durable.
fn has_piece(table: &Table, slot: u32, piece: Piece, is_durable: bool) -> bool
    ensures { IsTrue result ↔ ((cell : CellOf ContentOf)
        × (slice_index_or table.now.places.items slot None ≡ Some cell) × (cell.now ≡ Offered piece)
        × (is_durable ≡ true → cell.possible ≡ cell.now ∷ [])) }
{
    match table.places.get(slot as usize) {
        Some(Some(cell)) => {
            cell.now == Content::Offered(piece)
                && (!is_durable || is_alone(cell.now, cell.possible.as_slice()))
        }
        _ => false,
    }
}

/// The writing tab of this number, where it may publish this slot with this link.
fn publishing_writer<'a>(
    opening: &Opening,
    table: &Table,
    view: &'a View<Content>,
    tab: u8,
    slot: u32,
    link: Link,
) -> Option<&'a Writer<Content>>
    ensures { MatchOption result
        (OfWriter (MayPublish (setting opening.now) (state table.now) slot link) (tab_at view.now tab) → ⊥)
        (λ writer. (slice_get view.now.tabs tab ≡ Some (Writing writer.now))
        × MayPublish (setting opening.now) (state table.now) slot link writer.now) }
{
    let Tab::Writing(writer) = tab_at(view, tab)? else {
        return None;
    };
    let piece = chosen_piece(writer, slot, link)?;
    let turn = table.words.get(opening.index_of(Place::Turn(slot)));
    let is_free = *turn.unwrap_or(&0) == 0;
    let is_ready = is_free && has_piece(table, slot, piece, writer.is_durable);
    is_ready.then_some(writer)
}

/// A copy of the chain, and this slot with this link at the end.
fn longer(alloc: Global, chain: &Chain, slot: u32, link: Link) -> Result<Chain, AllocError>
    ensures { IfOk result (λ all. all ≡ longer chain.now slot link) }
{
    Ok(Chain {
        slots: with_slot(alloc, &chain.slots, slot)?,
        end: link,
        tail: Row::from_vec(Vec::new(alloc)),
    })
}

/// The slot is the last that the tab published.
fn published_tab(
    alloc: Global,
    tab: u8,
    writer: &Writer<Content>,
    slot: u32,
    link: Link,
) -> Result<TabsChange, AllocError>
    ensures { IfOk result (λ change. change ≡ published_tab tab writer.now slot link) }
{
    let reserved = rest_of(alloc, &writer.reserved)?;
    let published = with_slot(alloc, &writer.published, slot)?;
    Ok(TabsChange::Becomes(tab, TabChange::Publishes(reserved, published, link)))
}

/// How many slots the tab has published, with one more, where the table has so many slots.
fn count_published(slots: u32, writer: &Writer<Content>) -> u32
    requires { length writer.now.published < slots }
    ensures { result ≡ length writer.now.published + 1 }
{
    let _ = slots;
    writer.published.as_slice().len() as u32 + 1
}

/// What the step adds to the records of its pass, where the link word told this number: one slot more
/// is published, of an entry with these names.
fn published_addition(
    opening: &Opening,
    writer: &Writer<Content>,
    slot: u32,
    link: Link,
    told: u64,
) -> Addition
    requires { length writer.now.published < opening.now.slots }
    ensures { result ≡ published_addition writer.now slot link told }
{
    let anchor = writer.anchor;
    let version = writer.version;
    Addition {
        item: Item {
            kind: Kind::Linked,
            at: slot,
            found: told,
        },
        trace: Some(Trace {
            place: Place::Link(slot),
            word: pack_link(link),
        }),
        sight: Some(Sight::Published {
            anchor,
            version,
            count: count_published(opening.slots, writer),
        }),
        names: Some(Names {
            anchor,
            version,
            key0: writer.key0.unwrap_or(0),
            key1: writer.key1.unwrap_or(0),
            offer: writer.offer.unwrap_or(0),
        }),
        learned: None,
        deed: None,
        met: None,
        drawn: None,
    }
}

/// The slot's link word has this link then, and this becomes of the tabs and of the chain.
fn published_change(
    opening: &Opening,
    table: &Table,
    writer: &Writer<Content>,
    slot: u32,
    link: Link,
    tabs: TabsChange,
    chain: Chain,
) -> Change
    requires index { index (setting opening.now) (place.Link slot) < length table.now.words.items }
    requires few { length writer.now.published < opening.now.slots }
    ensures { result ≡ published_change opening.now table.now writer.now slot link tabs chain }
{
    let index = opening.index_of(Place::Link(slot));
    let found = table.words[index];
    Change {
        answer: found,
        word: Some(WordChange {
            index,
            left: pack_link(link),
        }),
        turn: TurnChange::Same,
        tabs,
        chain: ChainChange::Put(writer.anchor, chain),
        used: None,
        addition: published_addition(opening, writer, slot, link, found),
        notes: NotesChange::Same,
    }
}

/// A writing tab publishes its first reserved slot with the link that it chose.
pub fn publish(
    alloc: Global,
    opening: &Opening,
    table: &Table,
    view: &View<Content>,
    tab: u8,
    slot: u32,
    link: Link,
) -> Result<Change, Refusal>
    requires { IsScene opening.now table.now view.now }
    ensures planned { IfOk result (λ change. Plans opening.now table.now view.now (move.Publish tab slot link) change) }
    ensures refused { IsErrOf result Refusal.NotAllowed
        → Allowed (setting opening.now) (state table.now) view.now (move.Publish tab slot link) → ⊥ }
{
    if tab >= INNER_TAB {
        return Err(Refusal::NotAllowed);
    }
    let Some(writer) = publishing_writer(opening, table, view, tab, slot, link) else {
        return Err(Refusal::NotAllowed);
    };
    let tabs = published_tab(alloc, tab, writer, slot, link)?;
    let chain = longer(alloc, &table.chains[writer.anchor as usize], slot, link)?;
    Ok(published_change(opening, table, writer, slot, link, tabs, chain))
}
