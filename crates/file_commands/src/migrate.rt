// The header area of a file that records nothing is written, and how many slots the file has is printed.
ghost use Rattle.std.specs.Prelude.{◌≡◌, ℕ, ◌++◌, ◌≤◌, [], IsErrOf, IsTrue, IfErr, IfOk, OnErr, OnOk, Some};
ghost use Rattle.std.specs.FinMap.{get};
ghost use Rattle.db_layout.specs.Layout.{IsSlotSize};
ghost use Rattle.rock_disk.specs.Counts.{EachEnded, NoStation, NoneFailed, counts};
ghost use Rattle.rock_disk.specs.File.{HasSlots, IsNotAway, NoneAway};
ghost use Rattle.rock_disk.specs.Opened.{IsSmall};
ghost use Rattle.rock_io.specs.Faults.{Rose};
ghost use Rattle.rock_io.specs.LineBuffer.{Adds, HasRoom, held_of, size_of};
ghost use Rattle.rock_io.specs.Sink.{TakesPrefix};
ghost use Rattle.slot_finding.specs.Faults.{OrFailed};
ghost use Rattle.slot_finding.specs.Finding.{FileRecords, FindsSlot};
ghost use Rattle.file_commands.specs.Migrate.{IsMarkedFile, IsMigratedText, MigrateLeaves, migrated_line};
ghost use Rattle.file_commands.specs.Report.{AnyCount, FoundEnds, IsRefused, ReadEnds, ReadSays, ReportEnds, ReportPrints, ReportSays};

use crate::recording::record;
use db_layout::{Geometry, slot_size_ok, slots_are_whole, slots_of};
use rock_disk::{Volume, created_files_are_in};
use rock_io::{Failed, LineBuffer, Sink};
use rock_status::Status;
use slot_finding::{Looked, find_slot, look_at_header, status_of_find};
use std::alloc::Global;

/// More bytes than the line has.
const LINE_BYTES: usize = 64;

/// What is left to print of a file whose header area records its slots.
#[derive(Debug, Drop)]
struct Migrated {
    /// How many slots it has.
    slots: u32,
    /// An empty buffer with room for the line.
    buffer: LineBuffer,
}

/// Writes the header area of a file that was looked at, where it records nothing. The answer is how many slots the file
/// has.
fn record_unmarked<V: Volume>(
    alloc: Global,
    volume: &mut V,
    name: &str,
    slot: u32,
    looked: &Looked,
) -> Result<u32, Status>
    requires size { IsSlotSize slot }
    requires home { IsTrue V.tells → IsNotAway (get (V.files volume.old) name.now) }
    requires looked { IsTrue V.tells → FileRecords (V.files volume.old) name.now looked.now.recorded looked.now.bytes }
    requires sized { IsTrue V.tells → FindsSlot (V.files volume.old) name.now (Some slot) slot }

    ensures counted { IfOk result (λ slots. IsTrue V.tells → HasSlots (V.files volume.old) name.now slot slots) }
    ensures done { OnOk result (IsTrue V.tells
        → MigrateLeaves slot name.now (V.files volume.old) (V.files volume.new) Status.Done) }
    ensures left { IfErr result (λ status. IsTrue V.tells
        → MigrateLeaves slot name.now (V.files volume.old) (V.files volume.new) status) }

    // When each refusal comes.
    ensures refused { IfErr result (ReadEnds AnyCount
        (counts V.faults V.made V.ended volume.old)
        (counts V.faults V.made V.ended volume.new)) }
    ensures says { IsTrue V.tells
        → IfErr result (ReadSays AnyCount (V.files volume.old) name.now slot) }
    ensures short { IsTrue V.tells → (bytes : ℕ)
        → IsSmall (V.files volume.old) name.now slot bytes → IfErr result (OrFailed (Status.Small bytes)) }

    // Its station, and how a fault shows.
    ensures ended { EachEnded
        (counts V.faults V.made V.ended volume.old)
        (counts V.faults V.made V.ended volume.new) }
    ensures faults { V.faults volume.old ≤ V.faults volume.new }
    ensures unfailed { (IsErrOf result Status.DeviceFault → ⊥) → NoneFailed
        (counts V.faults V.made V.ended volume.old)
        (counts V.faults V.made V.ended volume.new) }

    // A file that is marked is left alone.
    ensures marked { IsTrue V.tells → IsMarkedFile (V.files volume.old) name.now
        → (V.files volume.new ≡ V.files volume.old)
        × NoStation (counts V.faults V.made V.ended volume.old) (counts V.faults V.made V.ended volume.new)
        × (IsErrOf result Status.DeviceFault → Rose (V.faults volume.old) (V.faults volume.new)) }
{
    slots_are_whole();
    match looked.recorded {
        Some(geometry) => Ok(geometry.slots),
        None => {
            let slots = slots_of(looked.bytes, slot);
            match record(alloc, volume, name, &Geometry { slot, slots }) {
                Ok(()) => Ok(slots),
                Err(status) => Err(status),
            }
        }
    }
}

/// Looks at the header area of a file, takes the room for the line, and writes the header area, where it records nothing.
fn record_looked<V: Volume>(
    alloc: Global,
    volume: &mut V,
    name: &str,
    slot: u32,
) -> Result<Migrated, Status>
    requires size { IsSlotSize slot }
    requires home { IsTrue V.tells → IsNotAway (get (V.files volume.old) name.now) }
    requires sized { IsTrue V.tells → FindsSlot (V.files volume.old) name.now (Some slot) slot }

    ensures room { IfOk result (λ migrated. (held_of migrated.buffer ≡ []) × (size_of migrated.buffer ≡ LINE_BYTES)) }
    ensures counted { IfOk result (λ migrated. IsTrue V.tells → HasSlots (V.files volume.old) name.now slot migrated.slots) }
    ensures done { OnOk result (IsTrue V.tells
        → MigrateLeaves slot name.now (V.files volume.old) (V.files volume.new) Status.Done) }
    ensures left { IfErr result (λ status. IsTrue V.tells
        → MigrateLeaves slot name.now (V.files volume.old) (V.files volume.new) status) }

    // When each refusal comes.
    ensures refused { IfErr result (ReadEnds AnyCount
        (counts V.faults V.made V.ended volume.old)
        (counts V.faults V.made V.ended volume.new)) }
    ensures says { IsTrue V.tells
        → IfErr result (ReadSays AnyCount (V.files volume.old) name.now slot) }
    ensures short { IsTrue V.tells → (bytes : ℕ)
        → IsSmall (V.files volume.old) name.now slot bytes → IfErr result (OrFailed (Status.Small bytes)) }

    // Its station, and how a fault shows.
    ensures ended { EachEnded
        (counts V.faults V.made V.ended volume.old)
        (counts V.faults V.made V.ended volume.new) }
    ensures faults { V.faults volume.old ≤ V.faults volume.new }
    ensures unfailed { (IsErrOf result Status.DeviceFault → ⊥) → NoneFailed
        (counts V.faults V.made V.ended volume.old)
        (counts V.faults V.made V.ended volume.new) }

    // A file that is marked is left alone.
    ensures marked { IsTrue V.tells → IsMarkedFile (V.files volume.old) name.now
        → (V.files volume.new ≡ V.files volume.old)
        × NoStation (counts V.faults V.made V.ended volume.old) (counts V.faults V.made V.ended volume.new)
        × (IsErrOf result Status.DeviceFault → Rose (V.faults volume.old) (V.faults volume.new)) }
{
    let looked = match look_at_header(volume, name) {
        Ok(looked) => looked,
        Err(fault) => return Err(status_of_find(fault)),
    };
    let Ok(buffer) = LineBuffer::new(alloc, LINE_BYTES) else {
        return Err(Status::Memory);
    };
    match record_unmarked(alloc, volume, name, slot, &looked) {
        Ok(slots) => Ok(Migrated { slots, buffer }),
        Err(status) => Err(status),
    }
}

/// Finds out whether the file has slots of this size, and writes its header area, where it records nothing.
fn migrate_found<V: Volume>(
    alloc: Global,
    volume: &mut V,
    name: &str,
    slot: u32,
) -> Result<Migrated, Status>
    requires size { IsSlotSize slot }
    requires home { IsTrue V.tells → IsNotAway (get (V.files volume.old) name.now) }

    ensures room { IfOk result (λ migrated. (held_of migrated.buffer ≡ []) × (size_of migrated.buffer ≡ LINE_BYTES)) }
    ensures counted { IfOk result (λ migrated. IsTrue V.tells
        → FindsSlot (V.files volume.old) name.now (Some slot) slot
        × HasSlots (V.files volume.old) name.now slot migrated.slots) }
    ensures done { OnOk result (IsTrue V.tells
        → MigrateLeaves slot name.now (V.files volume.old) (V.files volume.new) Status.Done) }
    ensures left { IfErr result (λ status. IsTrue V.tells
        → MigrateLeaves slot name.now (V.files volume.old) (V.files volume.new) status) }

    // When each refusal comes, and that it does.
    ensures ends { IfErr result (FoundEnds AnyCount (Some slot)
        (counts V.faults V.made V.ended volume.old)
        (counts V.faults V.made V.ended volume.new)) }
    ensures says { IsTrue V.tells
        → IfErr result (ReportSays AnyCount (V.files volume.old) name.now (Some slot)) }
    ensures refused { IfErr result (IsRefused V.tells AnyCount (V.files volume.old) name.now (Some slot)) }

    // Its station, and how a fault shows.
    ensures ended { EachEnded
        (counts V.faults V.made V.ended volume.old)
        (counts V.faults V.made V.ended volume.new) }
    ensures faults { V.faults volume.old ≤ V.faults volume.new }
    ensures unfailed { (IsErrOf result Status.DeviceFault → ⊥) → NoneFailed
        (counts V.faults V.made V.ended volume.old)
        (counts V.faults V.made V.ended volume.new) }

    // A file that is marked is left alone.
    ensures marked { IsTrue V.tells → IsMarkedFile (V.files volume.old) name.now
        → (V.files volume.new ≡ V.files volume.old)
        × NoStation (counts V.faults V.made V.ended volume.old) (counts V.faults V.made V.ended volume.new)
        × (IsErrOf result Status.DeviceFault → Rose (V.faults volume.old) (V.faults volume.new)) }
{
    match find_slot(volume, name, Some(slot)) {
        Ok(_slot) => record_looked(alloc, volume, name, slot),
        Err(fault) => Err(status_of_find(fault)),
    }
}

/// Prints the line of so many slots, through an empty buffer.
#[tactic(auto, using(crate::proofs::Lines::short_migrated))]
fn print_slots<K: Sink>(out: &mut K, buffer: &mut LineBuffer, slots: u32) -> Result<(), Failed>
    requires empty { held_of buffer.old ≡ [] }
    requires room { size_of buffer.old ≡ LINE_BYTES }
    ensures all { OnOk result (IsTrue K.tells
        → K.taken out.new ≡ K.taken out.old ++ migrated_line slots) }
    ensures prefix { OnErr result (IsTrue K.tells
        → TakesPrefix (K.taken out.old) (K.taken out.new) (migrated_line slots)) }
    ensures faults { K.faults out.old ≤ K.faults out.new }
    ensures unfailed { OnOk result (K.faults out.new ≡ K.faults out.old) }
    ensures failed { OnErr result (Rose (K.faults out.old) (K.faults out.new)) }
{
    put_slots(buffer, slots);
    buffer.write_to(out)
}

/// Adds the line of so many slots to a buffer that has room for it.
fn put_slots(buffer: &mut LineBuffer, slots: u32)
    requires { HasRoom buffer.old (migrated_line slots) }
    ensures { Adds buffer.old buffer.new (migrated_line slots) }
{
    buffer.put(b"MIGRATED slots=");
    buffer.put_number(u64::from(slots));
    buffer.put(b"\n");
}

/// Makes the header area of a file record its slots, where it records nothing, and prints how many slots the file has.
/// The slots are of `slot` bytes each. Where the header area records them already, nothing is written.
///
/// The header area is written and synced by one station, which is ended. The room for the line is taken before. A crash
/// leaves the slots as they were, and as header area the old one or the new one, also where it comes within the write or
/// the sync: that is what a station promises of each.
pub fn migrate_file<V: Volume, K: Sink>(
    alloc: Global,
    volume: &mut V,
    out: &mut K,
    name: &str,
    slot: u32,
) -> Status
    requires { IsTrue V.tells → IsNotAway (get (V.files volume.old) name.now) }

    // When each status comes.
    ensures ends { ReportEnds AnyCount (Some slot) (K.faults out.old) (K.faults out.new)
        (counts V.faults V.made V.ended volume.old)
        (counts V.faults V.made V.ended volume.new) result }
    ensures says { IsTrue V.tells → ReportSays AnyCount (V.files volume.old) name.now (Some slot) result }
    ensures refused { IsRefused V.tells AnyCount (V.files volume.old) name.now (Some slot) result }

    // What was printed.
    ensures prints { IsTrue K.tells
        → ReportPrints (λ text. IsTrue V.tells → IsMigratedText (V.files volume.old) name.now slot text)
        (K.taken out.old) (K.taken out.new) result }

    // What it leaves.
    ensures leaves { IsTrue V.tells → MigrateLeaves slot name.now (V.files volume.old) (V.files volume.new) result }
    ensures back { IsTrue V.tells → NoneAway (V.files volume.old) → NoneAway (V.files volume.new) }

    ensures ended { EachEnded
        (counts V.faults V.made V.ended volume.old)
        (counts V.faults V.made V.ended volume.new) }
    ensures faults { V.faults volume.old ≤ V.faults volume.new }
    ensures sink_faults { K.faults out.old ≤ K.faults out.new }

    // A fault is told as a fault.
    ensures sink_unfailed { (result ≡ Status.SinkFault → ⊥) → K.faults out.new ≡ K.faults out.old }
    ensures device_unfailed { (result ≡ Status.DeviceFault → ⊥) → NoneFailed
        (counts V.faults V.made V.ended volume.old)
        (counts V.faults V.made V.ended volume.new) }

    // A file that is marked is left alone: nothing is written, and no station is made.
    ensures marked { IsTrue V.tells → IsMarkedFile (V.files volume.old) name.now
        → (V.files volume.new ≡ V.files volume.old)
        × NoStation (counts V.faults V.made V.ended volume.old) (counts V.faults V.made V.ended volume.new)
        × (result ≡ Status.DeviceFault → Rose (V.faults volume.old) (V.faults volume.new)) }
{
    created_files_are_in();
    if !slot_size_ok(slot) {
        return Status::BadGeometry { field: 1 };
    }
    let Migrated { slots, mut buffer } = match migrate_found(alloc, volume, name, slot) {
        Ok(migrated) => migrated,
        Err(status) => return status,
    };
    match print_slots(out, &mut buffer, slots) {
        Ok(()) => Status::Done,
        Err(_failed) => Status::SinkFault,
    }
}
