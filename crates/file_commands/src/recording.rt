// The header area of a file is written, and records the slots of its file.
ghost use Rattle.std.specs.Prelude.{◌≡◌, ℕ, ◌+◌, ◌<◌, ◌≤◌, IsTrue, IfErr, IsErrOf, OnErr, OnOk, None, length};
ghost use Rattle.std.specs.FinMap.{get};
ghost use Rattle.db_layout.specs.Layout.{IsSlotSize};
ghost use Rattle.rock_io.specs.Faults.{Rose};
ghost use Rattle.rock_disk.specs.Cell.{settled, shape};
ghost use Rattle.rock_disk.specs.Counts.{EachEnded, NoStation, NoneFailed, OneStation, counts};
ghost use Rattle.rock_disk.specs.File.{IsNotAway, IsThere};
ghost use Rattle.rock_disk.specs.Opened.{IsSmall};
ghost use Rattle.rock_disk.specs.Written.{AddsAtMost, ReadsOldOrNew};
ghost use Rattle.file_commands.specs.Recording.{HeaderLeft, IsRecorded, MayBeRecorded, RecordLeaves};
ghost use Rattle.file_commands.specs.Report.{AnyCount, OpenedEnds, ReadEnds, ReadSays};

use crate::read::{no_station, not_opened};
use db_layout::{Geometry, HEADER_BYTES, geometries_are_read_as_written, write_geometry};
use rock_disk::{
    Opened, Station, Volume, opened_cells_are_the_files, opened_cells_may_be_given_back,
};
use rock_io::Failed;
use rock_status::Status;
use std::alloc::Global;

/// Writes a header area, and syncs it.
fn write_header<St: Station>(
    station: &mut St,
    header: &mut St::C,
    bytes: &[u8],
) -> Result<(), Failed>
    requires { length bytes.now ≡ (St.C.state header.old).width }
    ensures settled { OnOk result (IsTrue St.C.tells
        → St.C.state header.new ≡ settled (St.C.state header.old).number (St.C.state header.old).width bytes.now) }
    ensures possible { IsTrue St.C.tells → AddsAtMost bytes.now (St.C.state header.old) (St.C.state header.new) }
    ensures unsure { IsTrue St.C.tells → ReadsOldOrNew bytes.now (St.C.state header.old) (St.C.state header.new) }
    ensures shape { shape (St.C.state header.new) ≡ shape (St.C.state header.old) }
    ensures faults { St.faults station.old ≤ St.faults station.new }
    ensures unfailed { OnOk result (St.faults station.new ≡ St.faults station.old) }
    ensures failed { OnErr result (Rose (St.faults station.old) (St.faults station.new)) }
{
    station.write(header, bytes)?;
    station.sync(header)
}

/// Writes the header area of an opened file by a station that it makes and ends.
fn record_by_station<V: Volume>(
    volume: &mut V,
    name: &str,
    header: &mut V::C,
    bytes: &[u8],
) -> Result<(), Status>
    requires there { IsTrue V.tells → IsThere (V.files volume.old) name.now }
    requires wide { length bytes.now ≡ (V.C.state header.old).width }
    ensures settled { OnOk result (IsTrue V.C.tells
        → V.C.state header.new ≡ settled (V.C.state header.old).number (V.C.state header.old).width bytes.now) }
    ensures left { IfErr result (λ status. IsTrue V.C.tells
        → HeaderLeft bytes.now (V.C.state header.old) (V.C.state header.new) status) }
    ensures shape { shape (V.C.state header.new) ≡ shape (V.C.state header.old) }
    ensures files { V.files volume.new ≡ V.files volume.old }

    // Its station, and how a fault shows.
    ensures refused { IfErr result (OpenedEnds AnyCount 0
        (counts V.faults V.made V.ended volume.old)
        (counts V.faults V.made V.ended volume.new)) }
    ensures ended { EachEnded
        (counts V.faults V.made V.ended volume.old)
        (counts V.faults V.made V.ended volume.new) }
    ensures done { OnOk result (OneStation 0
        (counts V.faults V.made V.ended volume.old)
        (counts V.faults V.made V.ended volume.new)) }
    ensures none { IsErrOf result Status.Memory → NoStation
        (counts V.faults V.made V.ended volume.old)
        (counts V.faults V.made V.ended volume.new) }
    ensures faults { V.faults volume.old ≤ V.faults volume.new }
    ensures unfailed { (IsErrOf result Status.DeviceFault → ⊥) → NoneFailed
        (counts V.faults V.made V.ended volume.old)
        (counts V.faults V.made V.ended volume.new) }
{
    let mut station = match volume.station(name) {
        Ok(station) => station,
        Err(fault) => return Err(no_station(fault)),
    };
    let outcome = write_header(&mut station, header, bytes);
    volume.end_station(station);
    match outcome {
        Ok(()) => Ok(()),
        Err(_failed) => Err(Status::DeviceFault),
    }
}

/// Opens a file by its slot size, makes its header area one that records its slots, by one write and one sync of one
/// station, and gives the file back.
///
/// The header area is made in an array, so no memory is wanted for it.
///
/// # Errors
///
/// [`Status::Missing`] and [`Status::Small`] as opening meets them; [`Status::DeviceFault`] where the volume's count
/// rose, or the station was ended with a count above 0: then the header area may hold what it held, or the record;
/// [`Status::Memory`], where it holds what it held.
pub(crate) fn record<V: Volume>(
    alloc: Global,
    volume: &mut V,
    name: &str,
    geometry: &Geometry,
) -> Result<(), Status>
    requires size { IsSlotSize geometry.now.slot }
    requires home { IsTrue V.tells → IsNotAway (get (V.files volume.old) name.now) }

    // What it leaves.
    ensures recorded { OnOk result (IsTrue V.tells
        → IsRecorded geometry.now name.now (V.files volume.old) (V.files volume.new)) }
    ensures left { IfErr result (λ status. IsTrue V.tells
        → RecordLeaves geometry.now name.now (V.files volume.old) (V.files volume.new) status) }

    ensures either { IsTrue V.tells → (V.made volume.new ≡ V.made volume.old → ⊥)
        → MayBeRecorded geometry.now name.now (V.files volume.old) (V.files volume.new) }

    // When each refusal comes.
    ensures refused { IfErr result (ReadEnds AnyCount
        (counts V.faults V.made V.ended volume.old)
        (counts V.faults V.made V.ended volume.new)) }
    ensures says { IsTrue V.tells
        → IfErr result (ReadSays AnyCount (V.files volume.old) name.now geometry.now.slot) }
    ensures short { (bytes : ℕ) → IsErrOf result (Status.Small bytes) → bytes < HEADER_BYTES + geometry.now.slot }
    ensures missing { IsTrue V.tells → get (V.files volume.old) name.now ≡ None
        → IsErrOf result Status.Missing }
    ensures small { IsTrue V.tells → (bytes : ℕ)
        → IsSmall (V.files volume.old) name.now geometry.now.slot bytes → IsErrOf result (Status.Small bytes) }

    // Its station, and how a fault shows.
    ensures ended { EachEnded
        (counts V.faults V.made V.ended volume.old)
        (counts V.faults V.made V.ended volume.new) }
    ensures done { OnOk result (OneStation 0
        (counts V.faults V.made V.ended volume.old)
        (counts V.faults V.made V.ended volume.new)) }
    ensures none { OnErr result ((IsErrOf result Status.DeviceFault → ⊥) → NoStation
        (counts V.faults V.made V.ended volume.old)
        (counts V.faults V.made V.ended volume.new)) }
    ensures faults { V.faults volume.old ≤ V.faults volume.new }
    ensures unfailed { (IsErrOf result Status.DeviceFault → ⊥) → NoneFailed
        (counts V.faults V.made V.ended volume.old)
        (counts V.faults V.made V.ended volume.new) }
{
    geometries_are_read_as_written();
    opened_cells_are_the_files();
    opened_cells_may_be_given_back();
    let mut bytes = [0u8; HEADER_BYTES as usize];
    write_geometry(geometry, &mut bytes);
    let Opened {
        mut header,
        cells,
        bytes: _,
    } = match volume.open_file(alloc, name, geometry.slot) {
        Ok(opened) => opened,
        Err(fault) => return Err(not_opened(fault)),
    };
    let outcome = record_by_station(volume, name, &mut header, &bytes);
    volume.give_back(name, header, cells);
    outcome
}
