// A whole file is read: opened, reported on by one station, and given back.
ghost use Rattle.std.specs.Prelude.{◌≡◌, ℕ, ◌≤◌, IsTrue, IsOk, IfOk, IfErr, IsErrOf, length, map, None};
ghost use Rattle.std.specs.FinMap.{get};
ghost use Rattle.rock_io.specs.Faults.{Rose};
ghost use Rattle.rock_disk.specs.Cell.{CellState};
ghost use Rattle.rock_disk.specs.Counts.{EachEnded, NoStation, NoneFailed, counts};
ghost use Rattle.rock_disk.specs.File.{IsNotAway, IsThere, IsKept};
ghost use Rattle.rock_disk.specs.Opened.{AreSlots, IsSmall};
ghost use Rattle.db_layout.specs.Layout.{IsSlotSize};
ghost use Rattle.file_commands.specs.Faults.{status_of_open, status_of_rebuild, status_of_station};
ghost use Rattle.file_commands.specs.Report.{Fits, Prints, OfFile, HasSlots, IsFit, OpenedEnds, ReadEnds, ReadSays, text_of};

use crate::report::{Reading, Report};
use rock_disk::{
    OpenFault, Opened, StationFault, Volume, opened_cells_are_the_files,
    opened_cells_may_be_given_back, opened_slots_are_wide_and_few,
};
use rock_rebuild::RebuildFault;
use rock_status::Status;
use std::alloc::Global;

/// How a command ends whose file was not opened.
pub(crate) fn not_opened(fault: OpenFault) -> Status
    ensures { result ≡ status_of_open fault }
{
    match fault {
        OpenFault::Missing => Status::Missing,
        OpenFault::Small { bytes } => Status::Small { bytes },
        OpenFault::Failed => Status::DeviceFault,
        OpenFault::Memory => Status::Memory,
    }
}

/// How it ends where no station was made.
pub(crate) fn no_station(fault: StationFault) -> Status
    ensures { result ≡ status_of_station fault }
{
    match fault {
        StationFault::Failed => Status::DeviceFault,
        StationFault::Memory => Status::Memory,
    }
}

/// How it ends where the slots were not all read.
fn not_read(fault: RebuildFault) -> Status
    ensures { result ≡ status_of_rebuild fault }
{
    match fault {
        RebuildFault::Failed => Status::DeviceFault,
        RebuildFault::Memory => Status::Memory,
    }
}

/// Reads an opened file for a report by a station that it makes and ends.
fn read_by_station<V: Volume>(
    alloc: Global,
    volume: &mut V,
    name: &str,
    cells: &mut [V::C],
    slot: u32,
    report: Report,
) -> Result<Reading, Status>
    requires there { IsTrue V.tells → IsThere (V.files volume.old) name.now }
    requires fits { Fits report (length cells.old) }
    requires slots { AreSlots slot (map V.C.state cells.old) }
    ensures prints { IfOk result (λ reading. IsTrue V.C.tells
        → Prints report slot (map (λ (c : CellState). c.now) (map V.C.state cells.old)) (text_of reading)) }
    ensures cells { map V.C.state cells.new ≡ map V.C.state cells.old }
    ensures files { V.files volume.new ≡ V.files volume.old }
    ensures faults { V.faults volume.old ≤ V.faults volume.new }
    ensures ended { EachEnded
        (counts V.faults V.made V.ended volume.old)
        (counts V.faults V.made V.ended volume.new) }
    ensures unfailed { (IsErrOf result Status.DeviceFault → ⊥) → NoneFailed
        (counts V.faults V.made V.ended volume.old)
        (counts V.faults V.made V.ended volume.new) }
    ensures refused { IfErr result (OpenedEnds (Fits report) (length cells.old)
        (counts V.faults V.made V.ended volume.old)
        (counts V.faults V.made V.ended volume.new)) }
{
    let mut station = match volume.station(name) {
        Ok(station) => station,
        Err(fault) => return Err(no_station(fault)),
    };
    let outcome = report.read(alloc, &mut station, cells, slot);
    volume.end_station(station);
    match outcome {
        Ok(reading) => Ok(reading),
        Err(fault) => Err(not_read(fault)),
    }
}

/// Reads an opened file for a report where it has as many slots as the report is for.
fn read_if_fit<V: Volume>(
    alloc: Global,
    volume: &mut V,
    name: &str,
    cells: &mut [V::C],
    slot: u32,
    report: Report,
) -> Result<Reading, Status>
    requires there { IsTrue V.tells → IsThere (V.files volume.old) name.now }
    requires slots { AreSlots slot (map V.C.state cells.old) }
    ensures prints { IfOk result (λ reading. IsTrue V.C.tells
        → Prints report slot (map (λ (c : CellState). c.now) (map V.C.state cells.old)) (text_of reading)) }
    ensures fits { IsOk result → Fits report (length cells.old) }
    ensures cells { map V.C.state cells.new ≡ map V.C.state cells.old }
    ensures files { V.files volume.new ≡ V.files volume.old }
    ensures faults { V.faults volume.old ≤ V.faults volume.new }
    ensures ended { EachEnded
        (counts V.faults V.made V.ended volume.old)
        (counts V.faults V.made V.ended volume.new) }
    ensures unfailed { (IsErrOf result Status.DeviceFault → ⊥) → NoneFailed
        (counts V.faults V.made V.ended volume.old)
        (counts V.faults V.made V.ended volume.new) }
    ensures refused { IfErr result (OpenedEnds (Fits report) (length cells.old)
        (counts V.faults V.made V.ended volume.old)
        (counts V.faults V.made V.ended volume.new)) }
    ensures unfit { (Fits report (length cells.old) → ⊥)
        → IsErrOf result (Status.BadGeometry 2) × NoStation
        (counts V.faults V.made V.ended volume.old)
        (counts V.faults V.made V.ended volume.new) }
{
    if !report.is_for(cells.len()) {
        return Err(Status::BadGeometry { field: 2 });
    }
    read_by_station(alloc, volume, name, cells, slot, report)
}

/// Opens a file, reads it for a report by one station, and gives it back.
pub fn read_file<V: Volume>(
    alloc: Global,
    volume: &mut V,
    name: &str,
    slot: u32,
    report: Report,
) -> Result<Reading, Status>
    requires size { IsSlotSize slot }
    requires home { IsTrue V.tells → IsNotAway (get (V.files volume.old) name.now) }

    ensures prints { IfOk result (λ reading. IsTrue V.tells
        → OfFile (Prints report slot) (V.files volume.old) name.now slot (text_of reading)) }
    ensures fits { IsTrue V.tells → IsOk result
        → IsFit (Fits report) (V.files volume.old) name.now slot }
    ensures kept { IsTrue V.tells → IsKept slot name.now (V.files volume.old) (V.files volume.new) }
    ensures ended { EachEnded
        (counts V.faults V.made V.ended volume.old)
        (counts V.faults V.made V.ended volume.new) }
    ensures faults { V.faults volume.old ≤ V.faults volume.new }

    // When each refusal comes.
    ensures refused { IfErr result (ReadEnds (Fits report)
        (counts V.faults V.made V.ended volume.old)
        (counts V.faults V.made V.ended volume.new)) }
    ensures says { IsTrue V.tells
        → IfErr result (ReadSays (Fits report) (V.files volume.old) name.now slot) }
    ensures missing { IsTrue V.tells → get (V.files volume.old) name.now ≡ None
        → IsErrOf result Status.Missing }
    ensures small { IsTrue V.tells → (bytes : ℕ)
        → IsSmall (V.files volume.old) name.now slot bytes → IsErrOf result (Status.Small bytes) }
    ensures unfailed { (IsErrOf result Status.DeviceFault → ⊥) → NoneFailed
        (counts V.faults V.made V.ended volume.old)
        (counts V.faults V.made V.ended volume.new) }

    // Where the report is not for a file with its number of slots, no station is made.
    ensures early { IsTrue V.tells → (slots : ℕ)
        → HasSlots (V.files volume.old) name.now slot slots → (Fits report slots → ⊥)
        → NoStation (counts V.faults V.made V.ended volume.old) (counts V.faults V.made V.ended volume.new)
        × (IsErrOf result Status.DeviceFault → Rose (V.faults volume.old) (V.faults volume.new)) }
{
    opened_slots_are_wide_and_few();
    opened_cells_are_the_files();
    opened_cells_may_be_given_back();
    let Opened {
        header,
        mut cells,
        bytes: _,
    } = match volume.open_file(alloc, name, slot) {
        Ok(opened) => opened,
        Err(fault) => return Err(not_opened(fault)),
    };
    let outcome = read_if_fit(alloc, volume, name, &mut cells, slot, report);
    volume.give_back(name, header, cells);
    outcome
}
