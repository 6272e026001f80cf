// A rebuild of a file.
ghost use Rattle.std.specs.Prelude.{◌≡◌, ◌<◌, ◌≤◌, ℕ, List, map, IsTrue, IfOk, IsErrOf};
ghost use Rattle.rock_io.specs.Faults.{Rose};
ghost use Rattle.rock_disk.specs.Cell.{CellState};
ghost use Rattle.rebuild_model.specs.Rebuilt.{IsRebuilt};
ghost use Rattle.rock_disk.specs.Opened.{AreSlots};
ghost use Rattle.rock_rebuild.specs.Read.{AreImagesOf};

use crate::best::best_of;
use crate::outcome::{RebuildFault, Scan};
use crate::owners::owners_of;
use crate::scanning::scan;
use crate::winners::winners_of;
use crate::{FoundList, Rebuilt};
use rebuild_model::winners_and_owners_make_a_rebuild;
use rock_disk::Station;
use rock_io::Numbers;
use std::alloc::Global;

/// What a store with so many anchors keeps of a file with these slots: at each anchor the complete
/// entry of greatest version, and of those the one that begins first; whose each slot is; and the
/// greatest version of a sane slot. Each slot is read once, in order. The cells are as they were,
/// whatever the answer.
///
/// What is kept is what the definition says of the images that the reads gave, also where the cells
/// don't tell what they hold, as those of real files. Images have one rebuild for so many anchors.
///
/// # Errors
///
/// [`RebuildFault::Failed`] where a read failed, and [`RebuildFault::Memory`] where memory runs out.
/// At any answer but Failed the station's count of faults is as it was.
pub fn rebuild<St: Station>(
    alloc: Global,
    station: &mut St,
    cells: &mut [St::C],
    slot: u32,
    anchors: u32,
) -> Result<Rebuilt, RebuildFault>
    requires slots { AreSlots slot (map St.C.state cells.old) }
    requires some { 0 < anchors }
    ensures read { IfOk result (λ rebuilt. (images : List (List ℕ))
        × AreImagesOf St.C.tells slot (map St.C.state cells.old) images × IsRebuilt slot images anchors rebuilt) }
    ensures rebuilt { IfOk result (λ rebuilt. IsTrue St.C.tells
        → IsRebuilt slot (map (λ (c : CellState). c.now) (map St.C.state cells.old)) anchors rebuilt) }
    ensures cells { map St.C.state cells.new ≡ map St.C.state cells.old }
    ensures faults { St.faults station.old ≤ St.faults station.new }
    ensures unfailed { (IsErrOf result RebuildFault.Failed → ⊥)
        → St.faults station.new ≡ St.faults station.old }
    ensures failed { IsErrOf result RebuildFault.Failed
        → Rose (St.faults station.old) (St.faults station.new) }
{
    winners_and_owners_make_a_rebuild();
    let Scan { found, greatest } = scan(alloc, station, cells, slot)?;
    let best = best_of(alloc, found.as_slice(), anchors)?;
    let winners = winners_of(alloc, found.as_slice(), &best)?;
    let owner = owners_of(alloc, &winners, anchors, cells.len())?;
    Ok(Rebuilt {
        winners: FoundList::from_vec(winners),
        owner: Numbers::from_vec(owner),
        greatest,
    })
}
