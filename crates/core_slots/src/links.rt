// Steps on the links of slots.
ghost use Rattle.std.specs.Prelude.{◌≡◌, ◌≢◌, ◌⊎◌, ◌↔◌, ◌<◌, ◌≤◌, ◌+◌, length, true, IsTrue, IfOk, IsErrOf};
ghost use Rattle.std.specs.Option.{option_to_list};
ghost use Rattle.link_word.specs.declared.link.Link.TheVariants.{Next};
ghost use Rattle.core_model.specs.declared.moves.Move.TheVariants as move;
ghost use Rattle.core_model.specs.declared.tab.Reader.{Reader as ReaderOf};
ghost use Rattle.core_model.specs.declared.tab.Tab.TheVariants.{Reading};
ghost use Rattle.core_model.specs.Tabs.{OfReader, OfFreer, anchor_of, is_reading};
ghost use Rattle.core_model.specs.Table.{Allowed};
ghost use Rattle.core_model.specs.SlotMoves.{IsNext, IsFront, follows, looks};
ghost use Rattle.core_model.specs.Chains.{link_of};
ghost use Rattle.core_table.specs.declared.content.Content.{Content as ContentOf};
ghost use Rattle.core_table.specs.Inside.{setting};
ghost use Rattle.core_change.specs.Inside.{state};
ghost use Rattle.core_change.specs.Planned.{IsScene, Plans};
ghost use Rattle.core_change.specs.Tabs.{changed_tab};

use crate::loosening::is_front;
use core_change::{
    ChainChange, Change, NotesChange, Refusal, TabChange, Table, TabsChange, TurnChange,
    WordChange, tab_at, word_addition,
};
use core_model::{Kind, Place, Reader, Sight, Tab, View};
use core_table::{Content, Opening};
use link_word::{Link, unpack_link};

/// Whether the link names this slot.
fn names(link: Link, slot: u32) -> bool
    ensures { IsTrue result ↔ (link ≡ Next slot) }
{
    link == Link::Next(slot)
}

/// Whether the slot is at the place of a reading tab: published, or the one that the last published slot
/// names.
pub(crate) fn is_next(table: &Table, reader: &Reader<Content>, slot: u32) -> bool
    requires { reader.now.anchor < length table.now.chains.items }
    ensures { IsTrue result ↔ IsNext (state table.now) slot reader.now }
{
    let chain = &table.chains[reader.anchor as usize];
    let slots = chain.slots.as_slice();
    let place = reader.place as usize;
    match slots.get(place) {
        Some(published) => *published == slot,
        None => place == slots.len() && names(chain.end, slot),
    }
}

fn may_look(table: &Table, tab: &Tab<Content>, slot: u32) -> bool
    requires { is_reading tab.now ≡ true → anchor_of tab.now < length table.now.chains.items }
    ensures { IsTrue result ↔ (OfReader (IsNext (state table.now) slot) tab.now ⊎ OfFreer (IsFront slot) tab.now) }
{
    match tab {
        Tab::Reading(reader) => is_next(table, reader, slot),
        Tab::Freeing(freer) => is_front(freer, slot),
        _ => false,
    }
}

/// The link that a link word spells. It names a slot of the table.
fn link_of(opening: &Opening, number: u64) -> Link
    requires { number ≤ opening.now.slots + 1 }
    ensures { result ≡ link_of number }
{
    prove!(number <= u64::from(opening.slots) + 1);
    let Some(link) = unpack_link(number) else {
        unreachable!()
    };
    link
}

/// What becomes of a tab that looks at a link word.
fn looked(opening: &Opening, tab: &Tab<Content>, number: u64) -> TabChange
    requires { is_reading tab.now ≡ true → number ≤ opening.now.slots + 1 }
    ensures { changed_tab tab.now result ≡ looks tab.now number }
{
    match tab {
        Tab::Reading(_) => TabChange::Follows(link_of(opening, number)),
        _ => TabChange::Looks,
    }
}

/// How many slots a reading tab knows to be published, where the link word at its place is written.
fn published_seen(opening: &Opening, tab: &Tab<Content>, number: u64) -> Option<Sight>
    requires { (reader : ReaderOf ContentOf) → tab.now ≡ Reading reader → number ≢ 0 → reader.place < opening.now.slots }
    ensures { option_to_list result ≡ follows tab.now number }
{
    let Tab::Reading(reader) = tab else {
        return None;
    };
    if number == 0 {
        return None;
    }
    prove!(reader.place < opening.slots);
    Some(Sight::Published {
        anchor: reader.anchor,
        version: reader.version,
        count: reader.place + 1,
    })
}

/// A reading tab looks at the link of the slot at its place, or a freeing tab at that of the first slot of
/// its rest.
pub fn get_link(
    opening: &Opening,
    table: &Table,
    view: &View<Content>,
    tab: u8,
    slot: u32,
) -> Result<Change, Refusal>
    requires { IsScene opening.now table.now view.now }
    ensures planned { IfOk result (λ change. Plans opening.now table.now view.now (move.GetLink tab slot) change) }
    ensures refused { IsErrOf result Refusal.NotAllowed
        → Allowed (setting opening.now) (state table.now) view.now (move.GetLink tab slot) → ⊥ }
{
    let Some(now) = tab_at(view, tab) else {
        return Err(Refusal::NotAllowed);
    };
    if !may_look(table, now, slot) {
        return Err(Refusal::NotAllowed);
    }
    let place = Place::Link(slot);
    let index = opening.index_of(place);
    let found = table.words[index];
    let change = looked(opening, now, found);
    let sight = published_seen(opening, now, found);
    Ok(Change {
        answer: found,
        word: Some(WordChange { index, left: found }),
        turn: TurnChange::Same,
        tabs: TabsChange::Becomes(tab, change),
        chain: ChainChange::Same,
        used: None,
        addition: word_addition(Kind::Followed, place, slot, found, found, sight),
        notes: NotesChange::Same,
    })
}
