// Steps on the cell of a tab that has the turn.
ghost use Rattle.std.specs.Prelude.{◌≡◌, ◌≤◌, ◌∷◌, Some, true, false, slice_get, IfOk, IsErrOf, MatchOption};
ghost use Rattle.core_model.specs.declared.moves.Move.TheVariants as move;
ghost use Rattle.core_model.specs.declared.tab.Turn.TheVariants.{NoTurn};
ghost use Rattle.core_model.specs.Tabs.{tab_at, turn_of, inner, IsPass};
ghost use Rattle.core_model.specs.Table.{Allowed};
ghost use Rattle.core_model.specs.CellMoves.{Holds, MayChange, is_kept, is_nothing, rewritten, settled_by_write, settled_by_sync};
ghost use Rattle.core_slots.specs.Cells.{cell_change, content_of, written_turn, synced_turn};
ghost use Rattle.core_table.specs.Inside.{setting};
ghost use Rattle.core_change.specs.Inside.{state};
ghost use Rattle.core_change.specs.Planned.{IsScene, Plans};

use crate::turns::{holds, was_settled};
use core_change::{
    ChainChange, Change, NotesChange, Refusal, TabChange, Table, TabsChange, TurnChange,
    bare_addition, tab_at,
};
use core_model::{Cell, Kind, Outcome, Row, Tab, Turn, View};
use core_table::{Content, Opening};
use std::alloc::{AllocError, Global};

/// The step of this kind on the cell of a slot changes this of the tab, and no word.
fn cell_change(kind: Kind, tab: u8, slot: u32, change: TabChange) -> Change
    ensures { result ≡ cell_change kind tab slot change }
{
    Change {
        answer: 0,
        word: None,
        turn: TurnChange::Same,
        tabs: TabsChange::Becomes(tab, change),
        chain: ChainChange::Same,
        used: None,
        addition: bare_addition(kind, slot, 0),
        notes: NotesChange::Same,
    }
}

/// The holder of a turn takes the cell out of its place.
pub fn cell_out(
    opening: &Opening,
    table: &Table,
    view: &View<Content>,
    tab: u8,
    slot: u32,
) -> Result<Change, Refusal>
    requires { IsScene opening.now table.now view.now }
    ensures planned { IfOk result (λ change. Plans opening.now table.now view.now (move.CellOut tab slot) change) }
    ensures refused { IsErrOf result Refusal.NotAllowed
        → Allowed (setting opening.now) (state table.now) view.now (move.CellOut tab slot) → ⊥ }
{
    let _ = opening;
    let _ = table;
    let Some(now) = tab_at(view, tab) else {
        return Err(Refusal::NotAllowed);
    };
    if !holds(now, slot, false) {
        return Err(Refusal::NotAllowed);
    }
    Ok(cell_change(Kind::TookOut, tab, slot, TabChange::Moves(true)))
}

/// The holder of a turn puts the cell back.
pub fn cell_in(
    opening: &Opening,
    table: &Table,
    view: &View<Content>,
    tab: u8,
    slot: u32,
) -> Result<Change, Refusal>
    requires { IsScene opening.now table.now view.now }
    ensures planned { IfOk result (λ change. Plans opening.now table.now view.now (move.CellIn tab slot) change) }
    ensures refused { IsErrOf result Refusal.NotAllowed
        → Allowed (setting opening.now) (state table.now) view.now (move.CellIn tab slot) → ⊥ }
{
    let _ = opening;
    let _ = table;
    let Some(now) = tab_at(view, tab) else {
        return Err(Refusal::NotAllowed);
    };
    if !holds(now, slot, true) {
        return Err(Refusal::NotAllowed);
    }
    Ok(cell_change(Kind::PutBack, tab, slot, TabChange::Moves(false)))
}

/// The writing or freeing tab of this number, where it has this slot's cell out of its place.
fn tab_with_cell(view: &View<Content>, tab: u8, slot: u32) -> Option<&Tab<Content>>
    requires { IsPass view.now }
    ensures { MatchOption result
        (tab ≤ inner → MayChange (tab_at view.now tab) → Holds slot true (tab_at view.now tab) → ⊥)
        (λ now. (slice_get view.now.tabs tab ≡ Some now.now) × MayChange now.now × Holds slot true now.now) }
{
    let now = tab_at(view, tab)?;
    let may_change = matches!(now, Tab::Writing(_) | Tab::Freeing(_));
    (may_change && holds(now, slot, true)).then_some(now)
}

/// The turn of a tab, if it is one that may have one.
fn turn_of(tab: &Tab<Content>) -> Option<&Turn<Content>>
    ensures { MatchOption result (turn_of tab.now ≡ NoTurn) (λ turn. turn.now ≡ turn_of tab.now) }
{
    match tab {
        Tab::Reading(reader) => Some(&reader.turn),
        Tab::Writing(writer) => Some(&writer.turn),
        Tab::Freeing(freer) => Some(&freer.turn),
        _ => None,
    }
}

/// What a tab writes: the piece that it chose, or of a freeing tab the blank content.
fn content_of(tab: &Tab<Content>) -> Option<Content>
    ensures { result ≡ content_of tab.now }
{
    match tab {
        Tab::Writing(writer) => match writer.chosen {
            Some(piece) => Some(Content::Offered(piece)),
            None => None,
        },
        Tab::Freeing(_) => Some(Content::Blank),
        _ => None,
    }
}

/// A copy of the contents, with this one in front.
fn with_content(
    alloc: Global,
    content: Content,
    contents: &Row<Content>,
) -> Result<Row<Content>, AllocError>
    ensures { IfOk result (λ all. all ≡ content ∷ contents.now) }
{
    let mut all = Vec::new(alloc);
    all.push(content)?;
    all.extend_from_slice(contents.as_slice())?;
    Ok(Row::from_vec(all))
}

/// The cell that a tab has after a write of its content, where it is another one.
fn written_cell(
    alloc: Global,
    tab: &Tab<Content>,
    outcome: Outcome,
) -> Result<Option<Cell<Content>>, AllocError>
    ensures { IfOk result (λ cell. rewritten (turn_of tab.now) (is_kept outcome) (settled_by_write tab.now outcome) cell ≡ written_turn tab.now outcome) }
{
    let Some(Turn::Has(hold)) = turn_of(tab) else {
        return Ok(None);
    };
    let Some(content) = content_of(tab) else {
        return Ok(None);
    };
    let now = match outcome {
        Outcome::Nothing => return Ok(None),
        Outcome::Kept | Outcome::KeptUnsure => content,
        Outcome::Unsure => hold.cell.now,
    };
    let possible = with_content(alloc, content, &hold.cell.possible)?;
    Ok(Some(Cell { now, possible }))
}

/// Whether a write left the piece in the cell.
fn is_kept(outcome: Outcome) -> bool
    ensures { result ≡ is_kept outcome }
{
    matches!(outcome, Outcome::Kept | Outcome::KeptUnsure)
}

/// Whether a crash leaves the cell one content after a write: only where it did so before and the write left
/// nothing.
fn settled_by_write(tab: &Tab<Content>, outcome: Outcome) -> bool
    ensures { result ≡ settled_by_write tab.now outcome }
{
    match turn_of(tab) {
        Some(turn) => was_settled(turn) && matches!(outcome, Outcome::Nothing),
        None => false,
    }
}

/// Whether it leaves it one content after a sync.
fn settled_by_sync(tab: &Tab<Content>, is_kept: bool) -> bool
    ensures { result ≡ settled_by_sync tab.now is_kept }
{
    match turn_of(tab) {
        Some(turn) => was_settled(turn) || is_kept,
        None => is_kept,
    }
}

/// A tab writes its content into the cell that it has out: a writing one the piece that it chose, a freeing one the
/// blank content.
pub fn write(
    alloc: Global,
    opening: &Opening,
    table: &Table,
    view: &View<Content>,
    tab: u8,
    slot: u32,
    outcome: Outcome,
) -> Result<Change, Refusal>
    requires { IsScene opening.now table.now view.now }
    ensures planned { IfOk result (λ change. Plans opening.now table.now view.now (move.Write tab slot outcome) change) }
    ensures refused { IsErrOf result Refusal.NotAllowed
        → Allowed (setting opening.now) (state table.now) view.now (move.Write tab slot outcome) → ⊥ }
{
    let _ = opening;
    let _ = table;
    let Some(now) = tab_with_cell(view, tab, slot) else {
        return Err(Refusal::NotAllowed);
    };
    let cell = written_cell(alloc, now, outcome)?;
    let is_settled = settled_by_write(now, outcome);
    let change = TabChange::Rewrites(cell, is_kept(outcome), is_settled);
    Ok(cell_change(Kind::Wrote, tab, slot, change))
}

/// The cell that a tab has after a sync, where it is another one: a crash may leave only what is there.
fn synced_cell(
    alloc: Global,
    tab: &Tab<Content>,
    is_synced: bool,
) -> Result<Option<Cell<Content>>, AllocError>
    ensures { IfOk result (λ cell. rewritten (turn_of tab.now) false (settled_by_sync tab.now is_synced) cell ≡ synced_turn tab.now is_synced) }
{
    let Some(Turn::Has(hold)) = turn_of(tab) else {
        return Ok(None);
    };
    if !is_synced {
        return Ok(None);
    }
    let now = hold.cell.now;
    let mut possible = Vec::new(alloc);
    possible.push(now)?;
    Ok(Some(Cell {
        now,
        possible: Row::from_vec(possible),
    }))
}

/// A writing or freeing tab syncs the cell that it has out. Where that fails nothing changes.
pub fn sync(
    alloc: Global,
    opening: &Opening,
    table: &Table,
    view: &View<Content>,
    tab: u8,
    slot: u32,
    is_kept: bool,
) -> Result<Change, Refusal>
    requires { IsScene opening.now table.now view.now }
    ensures planned { IfOk result (λ change. Plans opening.now table.now view.now (move.Sync tab slot is_kept) change) }
    ensures refused { IsErrOf result Refusal.NotAllowed
        → Allowed (setting opening.now) (state table.now) view.now (move.Sync tab slot is_kept) → ⊥ }
{
    let _ = opening;
    let _ = table;
    let Some(now) = tab_with_cell(view, tab, slot) else {
        return Err(Refusal::NotAllowed);
    };
    let cell = synced_cell(alloc, now, is_kept)?;
    let is_settled = settled_by_sync(now, is_kept);
    let change = TabChange::Rewrites(cell, false, is_settled);
    Ok(cell_change(Kind::Synced, tab, slot, change))
}
