// Steps of tabs that take an anchor, raise it and free its entry.
ghost use Rattle.std.specs.Prelude.{◌≡◌, ◌≤◌, ◌⊎◌, ◌↔◌, IsTrue, IfOk, IsErrOf, ◌<◌, length, false};
ghost use Rattle.core_model.specs.declared.moves.Move.TheVariants as move;
ghost use Rattle.core_model.specs.declared.view.Place.TheVariants as place;
ghost use Rattle.core_model.specs.declared.moves.Side.TheVariants.{Start};
ghost use Rattle.core_model.specs.Tabs.{inner, tab_at, anchor_of, is_free, IsPass};
ghost use Rattle.core_model.specs.declared.tab.Tab.TheVariants.{Free};
ghost use Rattle.core_model.specs.Chains.{start_number, slots_of_link};
ghost use Rattle.core_table.specs.Inside.{setting};
ghost use Rattle.core_change.specs.Inside.{state};
ghost use Rattle.core_change.specs.Planned.{IsScene, Plans};
ghost use Rattle.core_anchors.specs.Raising.{MayRaiseTab, raised_tabs, raised_chain};
ghost use Rattle.lock_word.specs.Words.{word_number};
ghost use Rattle.core_model.specs.Layout.{word_count};
ghost use Rattle.core_model.specs.Table.{Allowed};
ghost use Rattle.core_model.specs.AnchorMoves.{MayTake, MayEvict, MayRaise, MayEnd, StartsRight};

use crate::recall::{met, readers_here};
use crate::tabs::left_tab;
use core_change::{
    ChainChange, Change, NotesChange, Refusal, Table, TabsChange, TurnChange, WordChange,
    anchor_addition, anchor_of, tab_at,
};
use core_model::{Addition, Chain, Deed, Freer, Kind, Place, Row, Side, Tab, Turn, View, Writer};
use core_table::{Content, Opening};
use link_word::Link;
use lock_word::{Epoch, Stage, Word, epoch_bits, pack};
use std::alloc::{AllocError, Global};

/// The slots that a link names: one or none.
fn is_named_by(link: Link, slots: &[u32]) -> bool
    ensures { IsTrue result ↔ (slots.now ≡ slots_of_link link) }
{
    match (link, slots) {
        (Link::Next(slot), [only]) => *only == slot,
        (Link::Next(_), _) => false,
        (_, slots) => slots.is_empty(),
    }
}

fn may_raise(writer: &Writer<Content>, to: Stage) -> bool
    ensures { IsTrue result ↔ MayRaise writer.now to }
{
    match to {
        Stage::Appending => !writer.is_appending && matches!(writer.end, Link::Next(_)),
        Stage::Closed => writer.end == Link::Last,
        Stage::Halted => {
            writer.end != Link::Last
                && matches!(writer.turn, Turn::NoTurn)
                && is_named_by(writer.end, writer.reserved.as_slice())
        }
        _ => false,
    }
}

fn may_end(freer: &Freer<Content>, to: Stage) -> bool
    ensures { IsTrue result ↔ MayEnd freer.now to }
{
    to == Stage::Gone
        && freer.is_freeing
        && freer.rest.as_slice().is_empty()
        && freer.loose.as_slice().is_empty()
}

pub(crate) fn start_number(slots: &[u32]) -> u64
    ensures { result ≡ start_number slots.now }
{
    match slots {
        [first, ..] => u64::from(*first) + 1,
        [] => 0,
    }
}

/// Whether a writing tab that is still at TAKEN knows where its entry starts: the Start word is that
/// of what it published.
fn starts_right(opening: &Opening, table: &Table, writer: &Writer<Content>) -> bool
    requires words { length table.now.words.items ≡ word_count (setting opening.now) }
    requires anchor { writer.now.anchor < opening.now.anchors }
    ensures { IsTrue result ↔ StartsRight (setting opening.now) (state table.now) writer.now }
{
    let start = table.words[opening.index_of(Place::Beside(Side::Start, writer.anchor))];
    writer.is_appending || start == start_number(writer.published.as_slice())
}

/// What becomes of the tab that raises its anchor, and leaves this word.
fn raised_tabs(tab: u8, to: Stage, anchor: u32, word: &Word) -> TabsChange
    ensures { result ≡ raised_tabs tab to anchor (word_number word.now) }
{
    match to {
        Stage::Appending => TabsChange::Appends(tab),
        _ => TabsChange::Put(tab, left_tab(anchor, word)),
    }
}

/// What becomes of the chain of an anchor that is raised: where its writer gave up, the slot that it
/// had linked is kept as its tail.
fn raised_chain(
    alloc: Global,
    to: Stage,
    anchor: u32,
    chain: &Chain,
) -> Result<ChainChange, AllocError>
    ensures { IfOk result (λ change. change ≡ raised_chain to anchor chain.now) }
{
    if to != Stage::Halted {
        return Ok(ChainChange::Same);
    }
    let mut tail = Vec::new(alloc);
    if let Link::Next(slot) = chain.end {
        tail.push(slot)?;
    }
    Ok(ChainChange::Ended(anchor, Row::from_vec(tail)))
}

/// Whether a tab may raise its anchor to this stage.
fn may_raise_tab(opening: &Opening, table: &Table, tab: &Tab<Content>, to: Stage) -> bool
    requires words { length table.now.words.items ≡ word_count (setting opening.now) }
    requires anchor { is_free tab.now ≡ false → anchor_of tab.now < opening.now.anchors }
    ensures { IsTrue result ↔ MayRaiseTab (setting opening.now) (state table.now) tab.now to }
{
    match tab {
        Tab::Writing(writer) => may_raise(writer, to) && starts_right(opening, table, writer),
        Tab::Freeing(freer) => may_end(freer, to),
        _ => false,
    }
}

/// A writing or freeing tab raises the stage of its anchor.
pub fn raise(
    alloc: Global,
    opening: &Opening,
    table: &Table,
    view: &View<Content>,
    tab: u8,
    to: Stage,
) -> Result<Change, Refusal>
    requires { IsScene opening.now table.now view.now }
    ensures planned { IfOk result (λ change. Plans opening.now table.now view.now (move.Raise tab to) change) }
    ensures refused { IsErrOf result Refusal.NotAllowed
        → Allowed (setting opening.now) (state table.now) view.now (move.Raise tab to) → ⊥ }
{
    let Some(now) = tab_at(view, tab) else {
        return Err(Refusal::NotAllowed);
    };
    if !may_raise_tab(opening, table, now, to) {
        return Err(Refusal::NotAllowed);
    }
    let anchor = anchor_of(now);
    let word = table.word_at(opening, anchor);
    let epoch = Epoch {
        stage: to,
        ..word.epoch
    };
    let word = Word { epoch, ..word };
    let left = pack(&word);
    let seen = epoch_bits(left);
    let chain = raised_chain(alloc, to, anchor, &table.chains[anchor as usize])?;
    let deed = Deed {
        pass: view.pass,
        kind: Kind::Raised,
        anchor,
        epoch: seen,
        was_idle: false,
    };
    Ok(Change {
        answer: left,
        word: Some(WordChange {
            index: opening.index_of(Place::Anchor(anchor)),
            left,
        }),
        turn: TurnChange::Same,
        tabs: raised_tabs(tab, to, anchor, &word),
        chain,
        used: None,
        addition: Addition {
            deed: Some(deed),
            met: met(anchor, readers_here(anchor, view), &word),
            ..anchor_addition(Kind::Raised, anchor, left, left, seen)
        },
        notes: NotesChange::Same,
    })
}
