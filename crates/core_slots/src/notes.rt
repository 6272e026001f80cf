// Steps on notes: what a pass has seen is kept for others.
ghost use Rattle.std.specs.Prelude.{◌≡◌, ◌≤◌, ◌↔◌, length, IsTrue, IfOk, IsErrOf};
ghost use Rattle.std.specs.List.{position};
ghost use Rattle.core_model.specs.declared.moves.Move.TheVariants as move;
ghost use Rattle.core_model.specs.Table.{Allowed};
ghost use Rattle.core_model.specs.CellMoves.{IsNote, is_spent, free_note};
ghost use Rattle.core_table.specs.Inside.{setting};
ghost use Rattle.core_change.specs.Inside.{state};
ghost use Rattle.core_model.specs.Views.{note_with};
ghost use Rattle.core_change.specs.Planned.{IsScene, Plans};

use core_change::{
    ChainChange, Change, NotesChange, Refusal, Table, TabsChange, TurnChange, bare_addition,
};
use core_model::{Addition, Kind, Log, Row, Sight, View};
use core_table::{Content, Opening};
use std::alloc::{AllocError, Global};

/// A note of this, and of nothing else.
fn note_with(alloc: Global, seen: Log<Sight>) -> View<Content>
    ensures { result ≡ note_with seen }
{
    View::new(alloc, 0, Row::from_vec(Vec::new(alloc)), seen)
}

/// A copy of what was seen.
fn copy_of(alloc: Global, seen: &Log<Sight>) -> Result<Log<Sight>, AllocError>
    ensures { IfOk result (λ copy. copy ≡ seen.now) }
{
    Ok(Log::from_vec(seen.as_slice().to_vec(alloc)?))
}

/// Whether the view is of a note that is gone, since it was learned.
fn is_spent(view: &View<Content>) -> bool
    ensures { result ≡ is_spent view.now }
{
    view.tabs.as_slice().is_empty() && view.seen.as_slice().is_empty()
}

/// The place of the first note that is gone, if there is one.
fn first_spent(notes: &[View<Content>]) -> Option<usize>
    ensures { result ≡ position is_spent notes.now }
{
    notes.iter().position(is_spent)
}

/// The least number of a note that is free.
fn free_note(notes: &[View<Content>]) -> usize
    ensures free { result ≡ free_note notes.now }
    ensures few { result ≤ length notes.now }
{
    first_spent(notes).unwrap_or(notes.len())
}

/// What a pass has seen becomes a note.
pub fn note(
    alloc: Global,
    opening: &Opening,
    table: &Table,
    view: &View<Content>,
) -> Result<Change, Refusal>
    requires { IsScene opening.now table.now view.now }
    ensures planned { IfOk result (λ change. Plans opening.now table.now view.now move.Note change) }
    ensures refused { IsErrOf result Refusal.NotAllowed
        → Allowed (setting opening.now) (state table.now) view.now move.Note → ⊥ }
{
    let number = free_note(table.notes(opening));
    let seen = copy_of(alloc, &view.seen)?;
    let found = number as u64;
    Ok(Change {
        answer: found,
        word: None,
        turn: TurnChange::Same,
        tabs: TabsChange::Same,
        chain: ChainChange::Same,
        used: None,
        addition: bare_addition(Kind::Noted, 0, found),
        notes: NotesChange::Put(opening.passes as usize + number, note_with(alloc, seen)),
    })
}

/// Whether the view is of a note that was not learned yet.
fn is_note(view: &View<Content>) -> bool
    ensures { IsTrue result ↔ IsNote view.now }
{
    view.tabs.as_slice().is_empty() && !view.seen.as_slice().is_empty()
}

/// A pass learns what a note has seen, and the note is gone.
pub fn learn(
    alloc: Global,
    opening: &Opening,
    table: &Table,
    view: &View<Content>,
    note: u32,
) -> Result<Change, Refusal>
    requires { IsScene opening.now table.now view.now }
    ensures planned { IfOk result (λ change. Plans opening.now table.now view.now (move.Learn note) change) }
    ensures refused { IsErrOf result Refusal.NotAllowed
        → Allowed (setting opening.now) (state table.now) view.now (move.Learn note) → ⊥ }
{
    let _ = view;
    let number = opening.passes as usize + note as usize;
    let Some(learned) = table.view(number) else {
        return Err(Refusal::NotAllowed);
    };
    if !is_note(learned) {
        return Err(Refusal::NotAllowed);
    }
    let seen = copy_of(alloc, &learned.seen)?;
    let spent = note_with(alloc, Log::from_vec(Vec::new(alloc)));
    Ok(Change {
        answer: 0,
        word: None,
        turn: TurnChange::Same,
        tabs: TabsChange::Same,
        chain: ChainChange::Same,
        used: None,
        addition: Addition {
            learned: Some(seen),
            ..bare_addition(Kind::Learned, note, 0)
        },
        notes: NotesChange::Put(number, spent),
    })
}
