// What becomes of the turn of a tab, and of the cell that goes with it.
ghost use Rattle.std.specs.Prelude.{◌≡◌, ◌<◌, length, slice_set, slice_index_or};
ghost use Rattle.core_model.specs.Tabs.{turn_of};
ghost use Rattle.core_model.specs.declared.tab.Tab.TheVariants.{Free};
ghost use Rattle.core_model.specs.CellMoves.{cell_held, turn_with};
ghost use Rattle.core_change.specs.Turns.{with_turn, turned, places_changed, FitsTurn};

use core_model::{Cell, Hold, Row, Tab, Turn};
use core_table::Content;
use std::mem;

/// What becomes of it. Nothing of this takes memory.
#[derive(Drop)]
pub enum TurnChange {
    Same,
    /// The tab has the turn at this slot, and the cell that was home there.
    Taken(u8, u32),
    /// The tab has no turn any more, and the cell that it had is home at this slot.
    Ended(u8, u32),
}

/// The turn at a slot with this cell.
fn turn_with(slot: u32, cell: Option<Cell<Content>>) -> Turn<Content>
    ensures { result ≡ turn_with slot cell }
{
    match cell {
        None => Turn::NoTurn,
        Some(cell) => Turn::Has(Hold {
            slot,
            cell,
            is_out: false,
            is_written: false,
            is_settled: false,
        }),
    }
}

fn cell_held(turn: Turn<Content>) -> Option<Cell<Content>>
    ensures { result ≡ cell_held turn }
{
    match turn {
        Turn::NoTurn => None,
        Turn::Has(hold) => Some(hold.cell),
    }
}

/// The tab with this turn, and the turn that it had. Where it neither reads nor
/// writes nor frees it stays as it is.
fn with_turn(tab: Tab<Content>, turn: Turn<Content>) -> (Tab<Content>, Turn<Content>)
    ensures tab { result.0 ≡ with_turn tab turn }
    ensures turn { result.1 ≡ turn_of tab }
{
    match tab {
        Tab::Reading(mut reader) => {
            let had = mem::replace(&mut reader.turn, turn);
            (Tab::Reading(reader), had)
        }
        Tab::Writing(mut writer) => {
            let had = mem::replace(&mut writer.turn, turn);
            (Tab::Writing(writer), had)
        }
        Tab::Freeing(mut freer) => {
            let had = mem::replace(&mut freer.turn, turn);
            (Tab::Freeing(freer), had)
        }
        tab => (tab, Turn::NoTurn),
    }
}

/// Gives the tab this turn, and answers the one that it had.
fn replace_turn(tabs: &mut Row<Tab<Content>>, at: u8, turn: Turn<Content>) -> Turn<Content>
    requires { at < length tabs.old }
    ensures tabs { tabs.new ≡ slice_set tabs.old at (with_turn (slice_index_or tabs.old at Free) turn) }
    ensures turn { result ≡ turn_of (slice_index_or tabs.old at Free) }
{
    let tab = tabs.replace(at as usize, Tab::Free);
    let (tab, had) = with_turn(tab, turn);
    tabs.set(at as usize, tab);
    had
}

/// Changes the turn of a tab, and moves the cell.
pub(crate) fn change_turn(
    tabs: &mut Row<Tab<Content>>,
    places: &mut [Option<Cell<Content>>],
    change: TurnChange,
)
    requires { FitsTurn (length tabs.old) (length places.old) change }
    ensures tabs { tabs.new ≡ turned tabs.old places.old change }
    ensures places { places.new ≡ places_changed tabs.old places.old change }
{
    match change {
        TurnChange::Same => {}
        TurnChange::Taken(at, slot) => {
            let cell = mem::replace(&mut places[slot as usize], None);
            let _had = replace_turn(tabs, at, turn_with(slot, cell));
        }
        TurnChange::Ended(at, slot) => {
            let turn = replace_turn(tabs, at, Turn::NoTurn);
            places[slot as usize] = cell_held(turn);
        }
    }
}
