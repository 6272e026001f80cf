// A scan of a file.
ghost use Rattle.std.specs.Prelude.{◌≡◌, ◌≤◌, ℕ, List, map, IsTrue, IfOk, IsErrOf};
ghost use Rattle.rock_io.specs.Faults.{Rose};
ghost use Rattle.rock_disk.specs.Cell.{CellState};
ghost use Rattle.rock_disk.specs.Opened.{AreSlots};
ghost use Rattle.rock_rebuild.specs.Read.{AreImagesOf};
ghost use Rattle.rock_rebuild.specs.Scan.{IsScan};

use crate::FoundList;
use crate::entries::entries_of;
use crate::outcome::{RebuildFault, Scan};
use crate::read::read_slots;
use rock_disk::Station;
use std::alloc::Global;

/// Finds all complete entries of a file with these slots, and the greatest version of a sane slot.
/// Each slot is read once, in order. The cells are as they were, whatever the answer.
///
/// What is told is true of the images that the reads gave, also where the cells don't tell what they
/// hold, as those of real files.
///
/// # Errors
///
/// [`RebuildFault::Failed`] where a read failed, and [`RebuildFault::Memory`] where memory runs out.
/// At any answer but Failed the station's count of faults is as it was.
pub fn scan<St: Station>(
    alloc: Global,
    station: &mut St,
    cells: &mut [St::C],
    slot: u32,
) -> Result<Scan, RebuildFault>
    requires { AreSlots slot (map St.C.state cells.old) }
    ensures read { IfOk result (λ scan. (images : List (List ℕ))
        × AreImagesOf St.C.tells slot (map St.C.state cells.old) images × IsScan slot images scan) }
    ensures scanned { IfOk result (λ scan. IsTrue St.C.tells
        → IsScan slot (map (λ (c : CellState). c.now) (map St.C.state cells.old)) scan) }
    ensures cells { map St.C.state cells.new ≡ map St.C.state cells.old }
    ensures faults { St.faults station.old ≤ St.faults station.new }
    ensures unfailed { (IsErrOf result RebuildFault.Failed → ⊥)
        → St.faults station.new ≡ St.faults station.old }
    ensures failed { IsErrOf result RebuildFault.Failed
        → Rose (St.faults station.old) (St.faults station.new) }
{
    let mut slots = read_slots(alloc, station, cells, slot)?;
    let found = entries_of(alloc, &mut slots.table, &slots.heads, &slots.urls, slot)?;
    Ok(Scan {
        found: FoundList::from_vec(found),
        greatest: slots.greatest,
    })
}
