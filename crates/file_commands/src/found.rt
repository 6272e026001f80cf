// A file is read by its slot size, which is found before.
ghost use Rattle.std.specs.Prelude.{◌≤◌, IsTrue, IsOk, IfOk, IfErr, IsErrOf};
ghost use Rattle.std.specs.FinMap.{get};
ghost use Rattle.rock_io.specs.Faults.{Rose};
ghost use Rattle.rock_disk.specs.Counts.{EachEnded, NoStation, NoneFailed, counts};
ghost use Rattle.rock_disk.specs.File.{IsNotAway};
ghost use Rattle.slot_finding.specs.Finding.{IsGiven, IsKeptFor, WithSlot};
ghost use Rattle.file_commands.specs.Report.{Fits, FoundEnds, IsFit, IsRefused, IsUnfit, OfFileFor, Prints, ReportSays, text_of};

use crate::read::read_file;
use crate::report::{Reading, Report};
use rock_disk::Volume;
use rock_status::Status;
use slot_finding::{find_slot, status_of_find};
use std::alloc::Global;

/// Reads a file for a report. Its header area is looked at first, where it has one, and tells its slot size, or leaves it to
/// what was given.
pub(crate) fn read_found<V: Volume>(
    alloc: Global,
    volume: &mut V,
    name: &str,
    given: Option<u32>,
    report: Report,
) -> Result<Reading, Status>
    requires given { IsGiven given }
    requires home { IsTrue V.tells → IsNotAway (get (V.files volume.old) name.now) }

    ensures prints { IfOk result (λ reading. IsTrue V.tells
        → OfFileFor (Prints report) (V.files volume.old) name.now given (text_of reading)) }
    ensures fits { IsTrue V.tells → IsOk result
        → WithSlot (V.files volume.old) name.now given (IsFit (Fits report) (V.files volume.old) name.now) }
    ensures kept { IsTrue V.tells → IsKeptFor name.now given (V.files volume.old) (V.files volume.new) }
    ensures ended { EachEnded
        (counts V.faults V.made V.ended volume.old)
        (counts V.faults V.made V.ended volume.new) }
    ensures faults { V.faults volume.old ≤ V.faults volume.new }

    // When each refusal comes, and that it does.
    ensures ends { IfErr result (FoundEnds (Fits report) given
        (counts V.faults V.made V.ended volume.old)
        (counts V.faults V.made V.ended volume.new)) }
    ensures says { IsTrue V.tells
        → IfErr result (ReportSays (Fits report) (V.files volume.old) name.now given) }
    ensures refused { IfErr result (IsRefused V.tells (Fits report) (V.files volume.old) name.now given) }
    ensures unfailed { (IsErrOf result Status.DeviceFault → ⊥) → NoneFailed
        (counts V.faults V.made V.ended volume.old)
        (counts V.faults V.made V.ended volume.new) }

    // Where the report is not for a file with its number of slots, no station is made.
    ensures early { IsTrue V.tells
        → WithSlot (V.files volume.old) name.now given (IsUnfit (Fits report) (V.files volume.old) name.now)
        → NoStation (counts V.faults V.made V.ended volume.old) (counts V.faults V.made V.ended volume.new)
        × (IsErrOf result Status.DeviceFault → Rose (V.faults volume.old) (V.faults volume.new)) }
{
    let slot = match find_slot(volume, name, given) {
        Ok(slot) => slot,
        Err(fault) => return Err(status_of_find(fault)),
    };
    read_file(alloc, volume, name, slot, report)
}
