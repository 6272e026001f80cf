// Steps that take an anchor: for a new entry, or to give the slots of an old one back.
ghost use Rattle.std.specs.Prelude.{◌≡◌, ◌↔◌, IsTrue, IfOk, IsErrOf, MatchOption, false};
ghost use Rattle.lock_word.specs.declared.stage.Stage.TheVariants.{Taken, Freeing};
ghost use Rattle.lock_word.specs.Words.{is_idle, word_number, IsInRange};
ghost use Rattle.core_model.specs.declared.moves.Move.TheVariants as move;
ghost use Rattle.core_model.specs.Trails.{last_find};
ghost use Rattle.core_model.specs.Table.{Allowed};
ghost use Rattle.core_model.specs.Tabs.{IsPass, InnerIsFree};
ghost use Rattle.core_model.specs.AnchorMoves.{MayTake, MayEvict};
ghost use Rattle.core_table.specs.Inside.{setting};
ghost use Rattle.core_change.specs.Inside.{state};
ghost use Rattle.core_change.specs.Planned.{IsScene, Plans};
ghost use Rattle.core_anchors.specs.Taking.{taken_change, evicted_change, missed_change};

use crate::recall::{drew_since, last_find, met, readers_here};
use crate::tabs::{freer_of, writer_of};
use core_change::{
    ChainChange, Change, NotesChange, Refusal, Table, TabsChange, TurnChange, WordChange,
    anchor_addition, inner_is_free, no_chain, tab_at,
};
use core_model::{Addition, Chain, Deed, INNER_TAB, Kind, Place, Tab, View};
use core_table::{Content, Opening};
use lock_word::{
    Epoch, Stage, Word, epoch_bits, is_idle, is_idle_number, is_left_over_number, is_vacant_number,
    pack,
};
use std::alloc::{AllocError, Global};

/// The anchor's word as the pass last found it, where a tab may take it with a version that the pass
/// drew since.
fn word_to_take(view: &View<Content>, tab: u8, anchor: u32, version: u32) -> Option<u64>
    requires { IsPass view.now }
    ensures { MatchOption result
        (MayTake view.now tab anchor version → ⊥)
        (λ last. MayTake view.now tab anchor version × (last ≡ last_find anchor view.now.trail)) }
{
    let trail = view.trail.as_slice();
    let last = last_find(anchor, trail)?;
    let may_take = tab < INNER_TAB
        && matches!(tab_at(view, tab), Some(Tab::Free))
        && view.held.as_slice().contains(&version)
        && drew_since(version, anchor, trail)
        && (is_vacant_number(last) || (is_idle_number(last) && inner_is_free(view)));
    may_take.then_some(last)
}

/// The anchor's word as the pass last found it, where the inner tab may evict its entry, or a tab that
/// is last there may free it.
fn word_to_evict(view: &View<Content>, tab: u8, anchor: u32) -> Option<u64>
    requires { IsPass view.now }
    ensures { MatchOption result
        (MayEvict view.now tab anchor → ⊥)
        (λ last. MayEvict view.now tab anchor × (last ≡ last_find anchor view.now.trail)) }
{
    let last = last_find(anchor, view.trail.as_slice()).unwrap_or(0);
    let may_evict = match tab_at(view, tab)? {
        Tab::Free => tab == INNER_TAB && is_idle_number(last),
        Tab::Last { anchor: at } => {
            *at == anchor && is_left_over_number(last) && (tab == INNER_TAB || inner_is_free(view))
        }
        _ => false,
    };
    may_evict.then_some(last)
}

fn taken_change(
    alloc: Global,
    tab: u8,
    anchor: u32,
    version: u32,
    was_idle: bool,
    word: &Word,
    chain: &Chain,
) -> Result<TabsChange, AllocError>
    requires { IsInRange word.now }
    ensures { IfOk result (λ change. change ≡ taken_change tab anchor version was_idle (word_number word.now) chain.now) }
{
    if !was_idle {
        let writer = writer_of(alloc, anchor, version);
        return Ok(TabsChange::Put(tab, Tab::Writing(writer)));
    }
    let freer = freer_of(alloc, anchor, false, word, chain)?;
    let writer = writer_of(alloc, anchor, version);
    Ok(TabsChange::PutTwo(INNER_TAB, Tab::Freeing(freer), tab, Tab::Writing(writer)))
}

fn evicted_change(
    alloc: Global,
    tab: u8,
    anchor: u32,
    word: &Word,
    chain: &Chain,
) -> Result<TabsChange, AllocError>
    requires { IsInRange word.now }
    ensures { IfOk result (λ change. change ≡ evicted_change tab anchor (word_number word.now) chain.now) }
{
    let freer = freer_of(alloc, anchor, true, word, chain)?;
    Ok(TabsChange::PutTwo(tab, Tab::Free, INNER_TAB, Tab::Freeing(freer)))
}

/// The word of an anchor that was taken for this version.
fn taken_word(version: u32) -> u64
    ensures { result ≡ word_number record { epoch = record { version = version; doom = false; stage = Taken }; readers = 0 } }
{
    let epoch = Epoch {
        version,
        doom: false,
        stage: Stage::Taken,
    };
    pack(&Word { epoch, readers: 0 })
}

/// The word of an anchor whose entry is freed, which had this word.
fn freed_word(word: &Word) -> u64
    ensures { result ≡ word_number record word.now { epoch = record word.now.epoch { stage = Freeing } } }
{
    let epoch = Epoch {
        stage: Stage::Freeing,
        ..word.epoch
    };
    pack(&Word { epoch, ..*word })
}

/// The change where this word stands at the anchor, and the pass last found another one there: the word stays.
fn missed(
    opening: &Opening,
    anchor: u32,
    found: u64,
    met: Option<u32>,
    tabs: TabsChange,
    used: Option<u32>,
) -> Change
    ensures { result ≡ missed_change anchor found met tabs used }
{
    Change {
        answer: found,
        word: Some(WordChange {
            index: opening.index_of(Place::Anchor(anchor)),
            left: found,
        }),
        turn: TurnChange::Same,
        tabs,
        chain: ChainChange::Same,
        used,
        addition: Addition {
            met,
            ..anchor_addition(Kind::Changed, anchor, found, found, epoch_bits(found))
        },
        notes: NotesChange::Same,
    }
}

/// A free tab takes an anchor for a new entry, where the word is still as the pass last found it.
pub fn take(
    alloc: Global,
    opening: &Opening,
    table: &Table,
    view: &View<Content>,
    tab: u8,
    anchor: u32,
    version: u32,
) -> Result<Change, Refusal>
    requires { IsScene opening.now table.now view.now }
    ensures planned { IfOk result (λ change. Plans opening.now table.now view.now (move.Take tab anchor version) change) }
    ensures refused { IsErrOf result Refusal.NotAllowed
        → Allowed (setting opening.now) (state table.now) view.now (move.Take tab anchor version) → ⊥ }
{
    if anchor >= opening.anchors {
        return Err(Refusal::NotAllowed);
    }
    let Some(last) = word_to_take(view, tab, anchor, version) else {
        return Err(Refusal::NotAllowed);
    };
    let word = table.word_at(opening, anchor);
    let found = pack(&word);
    let met = met(anchor, readers_here(anchor, view), &word);
    if found != last {
        return Ok(missed(opening, anchor, found, met, TabsChange::Same, Some(version)));
    }
    let was_idle = is_idle(&word);
    let chain = &table.chains[anchor as usize];
    let tabs = taken_change(alloc, tab, anchor, version, was_idle, &word, chain)?;
    let left = taken_word(version);
    let seen = epoch_bits(left);
    let deed = Deed {
        pass: view.pass,
        kind: Kind::Changed,
        anchor,
        epoch: seen,
        was_idle,
    };
    Ok(Change {
        answer: found,
        word: Some(WordChange {
            index: opening.index_of(Place::Anchor(anchor)),
            left,
        }),
        turn: TurnChange::Same,
        tabs,
        chain: ChainChange::Put(anchor, no_chain(alloc)),
        used: Some(version),
        addition: Addition {
            deed: Some(deed),
            met,
            ..anchor_addition(Kind::Changed, anchor, found, left, seen)
        },
        notes: NotesChange::Same,
    })
}

/// The inner tab, or one that is last there, takes the anchor's entry to FREEING, where the word is
/// still as the pass last found it.
pub fn evict(
    alloc: Global,
    opening: &Opening,
    table: &Table,
    view: &View<Content>,
    tab: u8,
    anchor: u32,
) -> Result<Change, Refusal>
    requires { IsScene opening.now table.now view.now }
    ensures planned { IfOk result (λ change. Plans opening.now table.now view.now (move.Evict tab anchor) change) }
    ensures refused { IsErrOf result Refusal.NotAllowed
        → Allowed (setting opening.now) (state table.now) view.now (move.Evict tab anchor) → ⊥ }
{
    if anchor >= opening.anchors {
        return Err(Refusal::NotAllowed);
    }
    let Some(last) = word_to_evict(view, tab, anchor) else {
        return Err(Refusal::NotAllowed);
    };
    let word = table.word_at(opening, anchor);
    let found = pack(&word);
    let met = met(anchor, readers_here(anchor, view), &word);
    if last != found {
        let tabs = TabsChange::Put(tab, Tab::Free);
        return Ok(missed(opening, anchor, found, met, tabs, None));
    }
    let tabs = evicted_change(alloc, tab, anchor, &word, &table.chains[anchor as usize])?;
    let left = freed_word(&word);
    let seen = epoch_bits(left);
    let deed = Deed {
        pass: view.pass,
        kind: Kind::Changed,
        anchor,
        epoch: seen,
        was_idle: is_idle(&word),
    };
    Ok(Change {
        answer: found,
        word: Some(WordChange {
            index: opening.index_of(Place::Anchor(anchor)),
            left,
        }),
        turn: TurnChange::Same,
        tabs,
        chain: ChainChange::Put(anchor, no_chain(alloc)),
        used: None,
        addition: Addition {
            deed: Some(deed),
            met,
            ..anchor_addition(Kind::Changed, anchor, found, left, seen)
        },
        notes: NotesChange::Same,
    })
}
