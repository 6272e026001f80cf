// A writing tab logs the piece that it means to write into its first reserved slot.
ghost use Rattle.std.specs.Prelude.{◌≡◌, ◌<◌, ◌++◌, Some, slice_get, length, IsTrue, ◌↔◌, IfOk, IsErrOf, MatchOption};
ghost use Rattle.link_word.specs.declared.link.Link.TheVariants.{Last as LastLink};
ghost use Rattle.core_model.specs.declared.moves.Move.TheVariants as move;
ghost use Rattle.core_model.specs.declared.tab.Tab.TheVariants.{Writing};
ghost use Rattle.core_model.specs.CellMoves.{MayLog, piece_of};
ghost use Rattle.core_model.specs.Chains.{first_of, link_to, rest_of};
ghost use Rattle.core_model.specs.Table.{Allowed};
ghost use Rattle.core_model.specs.Tabs.{OfWriter, inner, tab_at};
ghost use Rattle.core_table.specs.Inside.{setting};
ghost use Rattle.core_change.specs.Inside.{state};
ghost use Rattle.core_change.specs.Planned.{IsScene, Plans};
ghost use Rattle.core_slots.specs.Logging.{logged_piece};

use crate::publishing::is_first;
use core_change::{
    ChainChange, Change, NotesChange, Refusal, TabChange, Table, TabsChange, TurnChange,
    WordChange, tab_at, word_addition,
};
use core_model::{INNER_TAB, Kind, LoggedPiece, Piece, Place, Sight, Tab, View, Writer};
use core_table::{Content, Opening};
use link_word::Link;

/// Whether a writing tab may log a piece for this slot: it has named its entry, this is the first slot that
/// it reserved, it gave none back, and has no piece that is not published.
fn may_log(writer: &Writer<Content>, slot: u32) -> bool
    ensures { IsTrue result ↔ MayLog slot writer.now }
{
    is_first(&writer.reserved, slot)
        && !writer.is_ending
        && writer.chosen.is_none()
        && writer.key0.is_some()
        && writer.key1.is_some()
        && writer.offer.is_some()
}

/// The writing tab of this number, where it may log a piece for this slot.
fn logging_writer(view: &View<Content>, tab: u8, slot: u32) -> Option<&Writer<Content>>
    ensures { MatchOption result
        (tab < inner → OfWriter (MayLog slot) (tab_at view.now tab) → ⊥)
        (λ writer. (tab < inner) × (slice_get view.now.tabs tab ≡ Some (Writing writer.now)) × MayLog slot writer.now) }
{
    let Tab::Writing(writer) = tab_at(view, tab)? else {
        return None;
    };
    (tab < INNER_TAB && may_log(writer, slot)).then_some(writer)
}

/// The first slot of an entry, of which these are published and those reserved.
fn first_of(published: &[u32], reserved: &[u32]) -> u32
    ensures { result ≡ first_of (published.now ++ reserved.now) }
{
    match (published, reserved) {
        ([first, ..], _) => *first,
        ([], [first, ..]) => *first,
        ([], []) => 0,
    }
}

/// The link of the first of these slots: to the second, if there is one.
fn link_behind(reserved: &[u32]) -> Link
    ensures { result ≡ link_to (rest_of reserved.now) LastLink }
{
    match reserved {
        [_, next, ..] => Link::Next(*next),
        _ => Link::Last,
    }
}

/// The piece for the first reserved slot.
fn piece_of(opening: &Opening, writer: &Writer<Content>) -> Piece
    requires { length writer.now.published < opening.now.slots }
    ensures { result ≡ piece_of writer.now }
{
    let published = writer.published.as_slice();
    let reserved = writer.reserved.as_slice();
    prove!(published.len() < opening.slots as usize);
    Piece {
        offer: writer.offer.unwrap_or(0),
        version: writer.version,
        place: published.len() as u32,
        first: first_of(published, reserved),
        next: link_behind(reserved),
    }
}

/// The piece as it is logged, where so many were logged before.
fn logged_piece(
    opening: &Opening,
    writer: &Writer<Content>,
    slot: u32,
    is_durable: bool,
    number: u64,
) -> LoggedPiece
    requires { length writer.now.published < opening.now.slots }
    ensures { result ≡ logged_piece writer.now slot is_durable number }
{
    LoggedPiece {
        number,
        anchor: writer.anchor,
        key0: writer.key0.unwrap_or(0),
        key1: writer.key1.unwrap_or(0),
        slot,
        is_durable,
        piece: piece_of(opening, writer),
    }
}

/// A writing tab logs a piece for its first reserved slot, durable or not, and chooses it so.
pub fn log_piece(
    opening: &Opening,
    table: &Table,
    view: &View<Content>,
    tab: u8,
    slot: u32,
    is_durable: bool,
) -> Result<Change, Refusal>
    requires { IsScene opening.now table.now view.now }
    ensures planned { IfOk result (λ change. Plans opening.now table.now view.now (move.LogPiece tab slot is_durable) change) }
    ensures refused { IsErrOf result Refusal.NotAllowed
        → Allowed (setting opening.now) (state table.now) view.now (move.LogPiece tab slot is_durable) → ⊥ }
{
    let Some(writer) = logging_writer(view, tab, slot) else {
        return Err(Refusal::NotAllowed);
    };
    let place = Place::LogCounter;
    let index = opening.index_of(place);
    let found = table.words[index];
    // The number goes round, as a word does that is added to.
    let left = found.wrapping_add(1);
    let logged = logged_piece(opening, writer, slot, is_durable, found);
    let change = TabChange::Logs(logged.piece, slot, is_durable);
    let sight = Some(Sight::Logged(logged));
    Ok(Change {
        answer: found,
        word: Some(WordChange { index, left }),
        turn: TurnChange::Same,
        tabs: TabsChange::Becomes(tab, change),
        chain: ChainChange::Same,
        used: None,
        addition: word_addition(Kind::Logged, place, slot, found, left, sight),
        notes: NotesChange::Same,
    })
}
