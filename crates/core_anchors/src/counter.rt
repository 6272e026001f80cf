// Steps on the counter of versions.
ghost use Rattle.std.specs.Prelude.{◌≡◌, IfOk, IsErrOf};
ghost use Rattle.core_model.specs.declared.moves.Move.TheVariants as move;
ghost use Rattle.core_model.specs.Table.{Allowed};
ghost use Rattle.core_table.specs.Inside.{setting};
ghost use Rattle.core_change.specs.Inside.{state};
ghost use Rattle.core_change.specs.Planned.{IsScene, Plans};

use crate::recall::last_count;
use core_change::{
    ChainChange, Change, NotesChange, Refusal, Table, TabsChange, TurnChange, WordChange,
    counter_addition,
};
use core_model::{Addition, Kind, Place, View};
use core_table::{Content, Opening};
use lock_word::GREATEST_VERSION;

/// The counter is looked at.
pub fn count(opening: &Opening, table: &Table, view: &View<Content>) -> Result<Change, Refusal>
    requires { IsScene opening.now table.now view.now }
    ensures planned { IfOk result (λ change. Plans opening.now table.now view.now move.Count change) }
    ensures refused { IsErrOf result Refusal.NotAllowed
        → Allowed (setting opening.now) (state table.now) view.now move.Count → ⊥ }
{
    let _ = view;
    let index = opening.index_of(Place::Counter);
    let found = table.words[index];
    Ok(Change {
        answer: found,
        word: Some(WordChange { index, left: found }),
        turn: TurnChange::Same,
        tabs: TabsChange::Same,
        chain: ChainChange::Same,
        used: None,
        addition: counter_addition(Kind::Counted, found, found),
        notes: NotesChange::Same,
    })
}

/// A version is drawn, where there is one left.
pub fn draw(opening: &Opening, table: &Table, view: &View<Content>) -> Result<Change, Refusal>
    requires { IsScene opening.now table.now view.now }
    ensures planned { IfOk result (λ change. Plans opening.now table.now view.now move.Draw change) }
    ensures refused { IsErrOf result Refusal.NotAllowed
        → Allowed (setting opening.now) (state table.now) view.now move.Draw → ⊥ }
{
    if last_count(view.trail.as_slice()) >= GREATEST_VERSION {
        return Err(Refusal::NotAllowed);
    }
    let index = opening.index_of(Place::Counter);
    let found = table.words[index];
    let left = found + 1;
    // Of the last versions the counter still tells, and none is held.
    let drawn = (found < GREATEST_VERSION).then(|| left as u32);
    Ok(Change {
        answer: found,
        word: Some(WordChange { index, left }),
        turn: TurnChange::Same,
        tabs: TabsChange::Same,
        chain: ChainChange::Same,
        used: None,
        addition: Addition {
            drawn,
            ..counter_addition(Kind::Drew, found, left)
        },
        notes: NotesChange::Same,
    })
}
