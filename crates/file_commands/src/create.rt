// Making a file of empty slots, which its header area records.
ghost use Rattle.std.specs.Prelude.{◌≡◌, ◌≤◌, ◌↔◌, IsTrue};
ghost use Rattle.db_layout.specs.Layout.{IsSlotSize};
ghost use Rattle.rock_disk.specs.Counts.{EachEnded, NoStation, NoneFailed, OneStation, counts};
ghost use Rattle.rock_disk.specs.File.{IsThere, NoneAway};
ghost use Rattle.file_commands.specs.Create.{IsSlotCount, IsGeometry, IsHalfMade, CreateEnds, CreateSays, CreateLeaves};

use crate::recording::record;
use db_layout::{Geometry, MOST_SLOTS, slot_size_ok};
use rock_disk::{CreateFault, Volume, created_files_are_in};
use rock_status::Status;
use std::alloc::Global;

/// Makes a file with a header area, which records `slot` and `slots`, and so many slots of zeros. The slot size, in
/// bytes, is judged first, then the number of slots, then the name.
///
/// The header area is written and synced once the file is there, by one station, which is ended. So a fault of the disk
/// may leave the file with a header area of zeros: then it has its slots, but does not record them.
pub fn create_file<V: Volume>(
    alloc: Global,
    volume: &mut V,
    name: &str,
    slot: u32,
    slots: u32,
) -> Status
    // When each status comes.
    ensures ends { CreateEnds slot slots
        (counts V.faults V.made V.ended volume.old)
        (counts V.faults V.made V.ended volume.new) result }
    ensures says { IsTrue V.tells → CreateSays (V.files volume.old) name.now result }
    ensures size { (IsSlotSize slot → ⊥) → result ≡ Status.BadGeometry 1 }
    ensures count { IsSlotSize slot → (IsSlotCount slots → ⊥) → result ≡ Status.BadGeometry 4 }
    ensures exists { IsTrue V.tells → IsGeometry slot slots → IsThere (V.files volume.old) name.now
        → result ≡ Status.Exists }

    // What it leaves. Where a station was made the file is whole.
    ensures leaves { CreateLeaves V.tells slot slots name.now
        (V.files volume.old) (V.files volume.new) result }
    ensures whole { IsTrue V.tells → (V.made volume.new ≡ V.made volume.old → ⊥)
        → IsHalfMade slot slots name.now (V.files volume.old) (V.files volume.new) }

    ensures back { IsTrue V.tells → NoneAway (V.files volume.old) → NoneAway (V.files volume.new) }

    // Its station: that of the header area.
    ensures ended { EachEnded
        (counts V.faults V.made V.ended volume.old)
        (counts V.faults V.made V.ended volume.new) }
    ensures done { result ≡ Status.Done → OneStation 0
        (counts V.faults V.made V.ended volume.old)
        (counts V.faults V.made V.ended volume.new) }
    ensures none { (result ≡ Status.Done → ⊥) → (result ≡ Status.DeviceFault → ⊥) → NoStation
        (counts V.faults V.made V.ended volume.old)
        (counts V.faults V.made V.ended volume.new) }

    // A fault is told as a fault.
    ensures faults { V.faults volume.old ≤ V.faults volume.new }
    ensures unfailed { (result ≡ Status.DeviceFault → ⊥) → NoneFailed
        (counts V.faults V.made V.ended volume.old)
        (counts V.faults V.made V.ended volume.new) }
{
    created_files_are_in();
    if !slot_size_ok(slot) {
        return Status::BadGeometry { field: 1 };
    }
    if !is_slot_count(slots) {
        return Status::BadGeometry { field: 4 };
    }
    match volume.create(name, slots, slot) {
        Ok(()) => {}
        Err(CreateFault::Exists) => return Status::Exists,
        Err(CreateFault::Failed) => return Status::DeviceFault,
        Err(CreateFault::Memory) => return Status::Memory,
    }
    match record(alloc, volume, name, &Geometry { slot, slots }) {
        Ok(()) => Status::Done,
        Err(status) => status,
    }
}

/// Whether a file may be made with `slots` slots.
fn is_slot_count(slots: u32) -> bool
    ensures { IsTrue result ↔ IsSlotCount slots }
{
    1 <= slots && slots <= MOST_SLOTS
}
