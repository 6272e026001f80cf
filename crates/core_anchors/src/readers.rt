// Steps of tabs that look at an anchor, and are counted there.
ghost use Rattle.std.specs.Prelude.{◌≡◌, true, false, IfOk, IsErrOf, MatchOption};
ghost use Rattle.core_model.specs.Tabs.{is_counted, holds_turn, anchor_of};
ghost use Rattle.core_model.specs.declared.moves.Move.TheVariants as move;
ghost use Rattle.core_model.specs.Table.{Allowed};
ghost use Rattle.core_table.specs.Inside.{setting};
ghost use Rattle.core_change.specs.Inside.{state};
ghost use Rattle.core_change.specs.Planned.{IsScene, Plans};

use crate::recall::{met, readers_here};
use crate::tabs::{entered, left_tab};
use core_change::{
    ChainChange, Change, NotesChange, Refusal, Table, TabsChange, TurnChange, WordChange,
    anchor_addition, tab_at,
};
use core_model::{Addition, Deed, Kind, Place, Tab, Turn, View};
use core_table::{Content, Opening};
use lock_word::{Epoch, Word, epoch_bits, pack};

/// The word of an anchor is looked at.
pub fn look(
    opening: &Opening,
    table: &Table,
    view: &View<Content>,
    anchor: u32,
) -> Result<Change, Refusal>
    requires { IsScene opening.now table.now view.now }
    ensures planned { IfOk result (λ change. Plans opening.now table.now view.now (move.Look anchor) change) }
    ensures refused { IsErrOf result Refusal.NotAllowed
        → Allowed (setting opening.now) (state table.now) view.now (move.Look anchor) → ⊥ }
{
    if anchor >= opening.anchors {
        return Err(Refusal::NotAllowed);
    }
    let word = table.word_at(opening, anchor);
    let found = pack(&word);
    let readers = readers_here(anchor, view);
    Ok(Change {
        answer: found,
        word: Some(WordChange {
            index: opening.index_of(Place::Anchor(anchor)),
            left: found,
        }),
        turn: TurnChange::Same,
        tabs: TabsChange::Same,
        chain: ChainChange::Same,
        used: None,
        addition: Addition {
            met: met(anchor, readers, &word),
            ..anchor_addition(Kind::Looked, anchor, found, found, epoch_bits(found))
        },
        notes: NotesChange::Same,
    })
}

/// A free tab is counted at an anchor.
pub fn enter(
    opening: &Opening,
    table: &Table,
    view: &View<Content>,
    tab: u8,
    anchor: u32,
) -> Result<Change, Refusal>
    requires { IsScene opening.now table.now view.now }
    ensures planned { IfOk result (λ change. Plans opening.now table.now view.now (move.Enter tab anchor) change) }
    ensures refused { IsErrOf result Refusal.NotAllowed
        → Allowed (setting opening.now) (state table.now) view.now (move.Enter tab anchor) → ⊥ }
{
    if anchor >= opening.anchors {
        return Err(Refusal::NotAllowed);
    }
    let Some(now) = tab_at(view, tab) else {
        return Err(Refusal::NotAllowed);
    };
    let Tab::Free = now else {
        return Err(Refusal::NotAllowed);
    };
    let word = table.word_at(opening, anchor);
    let found = pack(&word);
    let left = pack(&Word {
        readers: word.readers + 1,
        ..word
    });
    let deed = Deed {
        pass: view.pass,
        kind: Kind::Entered,
        anchor,
        epoch: epoch_bits(left),
        was_idle: false,
    };
    Ok(Change {
        answer: found,
        word: Some(WordChange {
            index: opening.index_of(Place::Anchor(anchor)),
            left,
        }),
        turn: TurnChange::Same,
        tabs: TabsChange::Put(tab, entered(anchor, &word.epoch)),
        chain: ChainChange::Same,
        used: None,
        addition: Addition {
            deed: Some(deed),
            met: met(anchor, readers_here(anchor, view), &word),
            ..anchor_addition(Kind::Entered, anchor, found, left, epoch_bits(found))
        },
        notes: NotesChange::Same,
    })
}

/// The anchor of a tab that is counted there and holds no turn.
fn counted_anchor(tab: &Tab<Content>) -> Option<u32>
    ensures { MatchOption result
        ((is_counted tab.now ≡ true) × (holds_turn tab.now ≡ false) → ⊥)
        (λ anchor. (is_counted tab.now ≡ true) × (holds_turn tab.now ≡ false) × (anchor_of tab.now ≡ anchor)) }
{
    match tab {
        Tab::Retreating { anchor } => Some(*anchor),
        Tab::Reading(reader) => match reader.turn {
            Turn::NoTurn => Some(reader.anchor),
            Turn::Has(_) => None,
        },
        _ => None,
    }
}

/// A tab that is counted leaves its anchor.
pub fn leave(
    opening: &Opening,
    table: &Table,
    view: &View<Content>,
    tab: u8,
) -> Result<Change, Refusal>
    requires { IsScene opening.now table.now view.now }
    ensures planned { IfOk result (λ change. Plans opening.now table.now view.now (move.Leave tab) change) }
    ensures refused { IsErrOf result Refusal.NotAllowed
        → Allowed (setting opening.now) (state table.now) view.now (move.Leave tab) → ⊥ }
{
    let Some(now) = tab_at(view, tab) else {
        return Err(Refusal::NotAllowed);
    };
    let Some(anchor) = counted_anchor(now) else {
        return Err(Refusal::NotAllowed);
    };
    let word = table.word_at(opening, anchor);
    let word = Word {
        readers: word.readers - 1,
        ..word
    };
    let left = pack(&word);
    let others = readers_here(anchor, view) - 1;
    Ok(Change {
        answer: left,
        word: Some(WordChange {
            index: opening.index_of(Place::Anchor(anchor)),
            left,
        }),
        turn: TurnChange::Same,
        tabs: TabsChange::Put(tab, left_tab(anchor, &word)),
        chain: ChainChange::Same,
        used: None,
        addition: Addition {
            met: met(anchor, others, &word),
            ..anchor_addition(Kind::Left, anchor, left, left, epoch_bits(left))
        },
        notes: NotesChange::Same,
    })
}

/// A reading tab dooms its entry.
pub fn doom(
    opening: &Opening,
    table: &Table,
    view: &View<Content>,
    tab: u8,
) -> Result<Change, Refusal>
    requires { IsScene opening.now table.now view.now }
    ensures planned { IfOk result (λ change. Plans opening.now table.now view.now (move.Doom tab) change) }
    ensures refused { IsErrOf result Refusal.NotAllowed
        → Allowed (setting opening.now) (state table.now) view.now (move.Doom tab) → ⊥ }
{
    let Some(now) = tab_at(view, tab) else {
        return Err(Refusal::NotAllowed);
    };
    let Tab::Reading(reader) = now else {
        return Err(Refusal::NotAllowed);
    };
    let anchor = reader.anchor;
    let word = table.word_at(opening, anchor);
    let epoch = Epoch {
        doom: true,
        ..word.epoch
    };
    let word = Word { epoch, ..word };
    let left = pack(&word);
    let seen = epoch_bits(left);
    let deed = Deed {
        pass: view.pass,
        kind: Kind::Doomed,
        anchor,
        epoch: seen,
        was_idle: false,
    };
    Ok(Change {
        answer: left,
        word: Some(WordChange {
            index: opening.index_of(Place::Anchor(anchor)),
            left,
        }),
        turn: TurnChange::Same,
        tabs: TabsChange::Same,
        chain: ChainChange::Same,
        used: None,
        addition: Addition {
            deed: Some(deed),
            met: met(anchor, readers_here(anchor, view), &word),
            ..anchor_addition(Kind::Doomed, anchor, left, left, seen)
        },
        notes: NotesChange::Same,
    })
}
