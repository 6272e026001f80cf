// What a rebuild of an opened file keeps, where a store of it may have so many anchors.
ghost use Rattle.std.specs.Prelude.{◌≡◌, ◌<◌, ◌≤◌, ℕ, IfErr, IfOk, IsErrOf, IsTrue, List, OnOk, length, map, ◌↔◌};
ghost use Rattle.rebuild_model.specs.Rebuilt.{IsRebuilt};
ghost use Rattle.rock_disk.specs.File.{IsThere};
ghost use Rattle.rock_disk.specs.Opened.{AreSlots};
ghost use Rattle.rock_rebuild.specs.Read.{AreImagesOf};
ghost use Rattle.rock_disk.specs.Counts.{EachEnded, NoStation, NoneFailed, OneStation, counts};
ghost use Rattle.rock_open.specs.Opening.{IsAnchors, KeepingEnds, RebuildEnds};

use crate::fault::{OpenStoreFault, of_rebuild, of_station};
use rebuild_model::Rebuilt;
use rock_disk::Volume;
use rock_rebuild::rebuild;
use std::alloc::Global;

/// Whether a file with so many slots may have so many anchors.
fn are_anchors(anchors: u32, slots: usize) -> bool
    ensures { IsTrue result ↔ IsAnchors anchors slots }
{
    1 <= anchors && anchors as usize <= slots
}

/// Rebuilds by a station that it makes and ends.
fn rebuilt_by_station<V: Volume>(
    alloc: Global,
    volume: &mut V,
    name: &str,
    cells: &mut [V::C],
    slot: u32,
    anchors: u32,
) -> Result<Rebuilt, OpenStoreFault>
    requires there { IsTrue V.tells → IsThere (V.files volume.old) name.now }
    requires some { 0 < anchors }
    requires slots { AreSlots slot (map V.C.state cells.old) }
    ensures kept { IfOk result (λ rebuilt. (images : List (List ℕ))
        × AreImagesOf V.C.tells slot (map V.C.state cells.old) images × IsRebuilt slot images anchors rebuilt) }
    ensures one { OnOk result (OneStation 0
        (counts V.faults V.made V.ended volume.old)
        (counts V.faults V.made V.ended volume.new)) }
    ensures cells { map V.C.state cells.new ≡ map V.C.state cells.old }
    ensures files { V.files volume.new ≡ V.files volume.old }
    ensures faults { V.faults volume.old ≤ V.faults volume.new }
    ensures unfailed { (IsErrOf result OpenStoreFault.Failed → ⊥) → NoneFailed
        (counts V.faults V.made V.ended volume.old)
        (counts V.faults V.made V.ended volume.new) }
    ensures ended { EachEnded
        (counts V.faults V.made V.ended volume.old)
        (counts V.faults V.made V.ended volume.new) }
    ensures refused { IfErr result (RebuildEnds
        (counts V.faults V.made V.ended volume.old)
        (counts V.faults V.made V.ended volume.new)) }
{
    let mut station = match volume.station(name) {
        Ok(station) => station,
        Err(fault) => return Err(of_station(fault)),
    };
    let outcome = rebuild(alloc, &mut station, cells, slot, anchors);
    volume.end_station(station);
    match outcome {
        Ok(rebuilt) => Ok(rebuilt),
        Err(fault) => Err(of_rebuild(fault)),
    }
}

/// Rebuilds where the file has as many slots as so many anchors ask for.
pub(crate) fn kept_of<V: Volume>(
    alloc: Global,
    volume: &mut V,
    name: &str,
    cells: &mut [V::C],
    slot: u32,
    anchors: u32,
) -> Result<Rebuilt, OpenStoreFault>
    requires there { IsTrue V.tells → IsThere (V.files volume.old) name.now }
    requires slots { AreSlots slot (map V.C.state cells.old) }
    ensures kept { IfOk result (λ rebuilt. (images : List (List ℕ))
        × AreImagesOf V.C.tells slot (map V.C.state cells.old) images × IsRebuilt slot images anchors rebuilt) }
    ensures fit { OnOk result (IsAnchors anchors (length cells.old)) }
    ensures one { OnOk result (OneStation 0
        (counts V.faults V.made V.ended volume.old)
        (counts V.faults V.made V.ended volume.new)) }
    ensures cells { map V.C.state cells.new ≡ map V.C.state cells.old }
    ensures files { V.files volume.new ≡ V.files volume.old }
    ensures faults { V.faults volume.old ≤ V.faults volume.new }
    ensures unfailed { (IsErrOf result OpenStoreFault.Failed → ⊥) → NoneFailed
        (counts V.faults V.made V.ended volume.old)
        (counts V.faults V.made V.ended volume.new) }
    ensures ended { EachEnded
        (counts V.faults V.made V.ended volume.old)
        (counts V.faults V.made V.ended volume.new) }
    ensures refused { IfErr result (KeepingEnds anchors (length cells.old)
        (counts V.faults V.made V.ended volume.old)
        (counts V.faults V.made V.ended volume.new)) }
    ensures unfit { (IsAnchors anchors (length cells.old) → ⊥)
        → IsErrOf result (OpenStoreFault.BadGeometry 2) × NoStation
        (counts V.faults V.made V.ended volume.old)
        (counts V.faults V.made V.ended volume.new) }
{
    if !are_anchors(anchors, cells.len()) {
        return Err(OpenStoreFault::BadGeometry { field: 2 });
    }
    rebuilt_by_station(alloc, volume, name, cells, slot, anchors)
}
