// The cell of a slot, wherever it is.
ghost use Rattle.std.specs.Prelude.{◌≡◌, ◌<◌, MatchOption};
ghost use Rattle.core_model.specs.Cells.{IsCell};
ghost use Rattle.core_model.specs.Tabs.{turn_of};
ghost use Rattle.core_model.specs.declared.tab.Cell.{Cell as CellOf};
ghost use Rattle.core_model.specs.declared.tab.Turn.{Turn as TurnOf};
ghost use Rattle.core_table.specs.declared.content.Content.{Content as ContentOf};
ghost use Rattle.core_table.specs.Machine.{state_of};
ghost use Rattle.core_lives.specs.Crash.{HoldsCell, IsHeldBy, IsHeldIn};

use core_model::{Cell, Tab, Turn, View};
use core_state::{Content, Core};

/// The cell that a turn has, where it is that of this slot.
fn cell_of_turn(turn: &Turn<Content>, slot: u32) -> Option<&Cell<Content>>
    ensures { MatchOption result
        ((cell : CellOf ContentOf) → HoldsCell turn.now slot cell → ⊥)
        (λ cell. HoldsCell turn.now slot cell.now) }
{
    match turn {
        Turn::NoTurn => None,
        Turn::Has(hold) => {
            if hold.slot != slot {
                return None;
            }
            Some(&hold.cell)
        }
    }
}

/// The cell that a tab has, where it holds the turn of this slot.
fn cell_of_tab(tab: &Tab<Content>, slot: u32) -> Option<&Cell<Content>>
    ensures { MatchOption result
        ((cell : CellOf ContentOf) → HoldsCell (turn_of tab.now) slot cell → ⊥)
        (λ cell. HoldsCell (turn_of tab.now) slot cell.now) }
{
    match tab {
        Tab::Free | Tab::Retreating { .. } | Tab::Last { .. } => None,
        Tab::Reading(reader) => cell_of_turn(&reader.turn, slot),
        Tab::Writing(writer) => cell_of_turn(&writer.turn, slot),
        Tab::Freeing(freer) => cell_of_turn(&freer.turn, slot),
    }
}

/// The cell of this slot that one of these tabs has, if one does.
fn cell_of_tabs(tabs: &[Tab<Content>], slot: u32) -> Option<&Cell<Content>>
    ensures { MatchOption result
        ((cell : CellOf ContentOf) → IsHeldBy tabs.now slot cell → ⊥)
        (λ cell. IsHeldBy tabs.now slot cell.now) }
{
    let mut left = tabs;
    'tabs: while let Some((tab, rest)) = left.split_first() {
        if let Some(cell) = cell_of_tab(tab, slot) {
            return Some(cell);
        }
        left = rest;
    }
    None
}

/// The cell of this slot that a tab of one of these views has, if one does.
fn cell_of_views(views: &[View<Content>], slot: u32) -> Option<&Cell<Content>>
    ensures { MatchOption result
        ((cell : CellOf ContentOf) → IsHeldIn views.now slot cell → ⊥)
        (λ cell. IsHeldIn views.now slot cell.now) }
{
    let mut left = views;
    'views: while let Some((view, rest)) = left.split_first() {
        if let Some(cell) = cell_of_tabs(view.tabs.as_slice(), slot) {
            return Some(cell);
        }
        left = rest;
    }
    None
}

/// The cell of a slot, at home or at the tab that has its turn.
pub(crate) fn cell_of_slot(core: &Core, slot: u32) -> &Cell<Content>
    requires { slot < core.now.slots }
    ensures { IsCell (state_of core.now) slot result.now }
{
    core.is_always_sound();
    match &core.places()[slot as usize] {
        Some(cell) => cell,
        None => match cell_of_views(core.views(), slot) {
            Some(cell) => cell,
            None => unreachable!(),
        },
    }
}
