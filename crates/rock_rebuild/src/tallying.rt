// What a store keeps of a file, counted.
ghost use Rattle.std.specs.Prelude.{◌≡◌, ◌<◌, ◌≤◌, ℕ, List, map, IsTrue, IfOk, IsErrOf};
ghost use Rattle.rock_io.specs.Faults.{Rose};
ghost use Rattle.rock_disk.specs.Cell.{CellState};
ghost use Rattle.rock_disk.specs.Opened.{AreSlots};
ghost use Rattle.rock_rebuild.specs.Read.{AreImagesOf};
ghost use Rattle.rock_rebuild.specs.Tally.{IsTally};

use crate::candidates::candidates_of;
use crate::chosen::{chosen_of, count_chosen, slots_of_chosen};
use crate::outcome::{RebuildFault, Tally};
use crate::read::read_slots;
use rebuild_model::{winners_and_owners_make_a_rebuild, winners_are_apart, winners_are_gathered};
use rock_disk::Station;
use std::alloc::Global;

/// Counts what a store with so many anchors keeps of a file with these slots, as [`rebuild`] gives it. Each
/// slot is read once, in order, and no entry is copied: of each its anchor, its version and how many slots
/// it has are looked at. The cells are as they were, whatever the answer.
///
/// What is counted is what the definition says of the images that the reads gave, also where the cells
/// don't tell what they hold.
///
/// [`rebuild`]: crate::rebuild
///
/// # Errors
///
/// [`RebuildFault::Failed`] where a read failed, and [`RebuildFault::Memory`] where memory runs out.
/// At any answer but Failed the station's count of faults is as it was.
pub fn tally<St: Station>(
    alloc: Global,
    station: &mut St,
    cells: &mut [St::C],
    slot: u32,
    anchors: u32,
) -> Result<Tally, RebuildFault>
    requires slots { AreSlots slot (map St.C.state cells.old) }
    requires some { 0 < anchors }
    ensures read { IfOk result (λ tally. (images : List (List ℕ))
        × AreImagesOf St.C.tells slot (map St.C.state cells.old) images × IsTally slot images anchors tally) }
    ensures counted { IfOk result (λ tally. IsTrue St.C.tells
        → IsTally slot (map (λ (c : CellState). c.now) (map St.C.state cells.old)) anchors tally) }
    ensures cells { map St.C.state cells.new ≡ map St.C.state cells.old }
    ensures faults { St.faults station.old ≤ St.faults station.new }
    ensures unfailed { (IsErrOf result RebuildFault.Failed → ⊥)
        → St.faults station.new ≡ St.faults station.old }
    ensures failed { IsErrOf result RebuildFault.Failed
        → Rose (St.faults station.old) (St.faults station.new) }
{
    winners_are_gathered();
    winners_are_apart();
    winners_and_owners_make_a_rebuild();
    let mut slots = read_slots(alloc, station, cells, slot)?;
    let candidates = candidates_of(
        alloc,
        &mut slots.table,
        &slots.heads,
        &slots.urls,
        slot,
        anchors,
    )?;
    let chosen = chosen_of(alloc, &candidates, anchors)?;
    Ok(Tally {
        slots: cells.len(),
        kept: count_chosen(&chosen),
        used: slots_of_chosen(&chosen),
        greatest: slots.greatest,
    })
}
