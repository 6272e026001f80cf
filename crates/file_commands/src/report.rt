// Commands that read a whole file and print what they tell of it.
ghost use Rattle.std.specs.Prelude.{◌≡◌, ◌≤◌, IsTrue, IfOk, IsErrOf, OnOk, OnErr, length, map, ◌++◌, [], ◌↔◌};
ghost use Rattle.std.specs.FinMap.{get};
ghost use Rattle.rock_io.specs.Faults.{Rose};
ghost use Rattle.rock_io.specs.LineBuffer.{held_of, size_of};
ghost use Rattle.rock_io.specs.Sink.{TakesPrefix};
ghost use Rattle.rock_disk.specs.Cell.{CellState};
ghost use Rattle.rock_disk.specs.Counts.{EachEnded, NoStation, NoneFailed, counts};
ghost use Rattle.rock_disk.specs.File.{IsNotAway};
ghost use Rattle.rock_disk.specs.Opened.{AreSlots};
ghost use Rattle.slot_finding.specs.Finding.{IsKeptFor, WithSlot};
ghost use Rattle.file_commands.specs.Report.{Fits, IsAnchors, IsRefused, IsUnfit, OfFileFor, PrintEnds, Prints, ReportEnds, ReportPrints, ReportSays, text_of};

use crate::found::read_found;
use crate::listing::{ListedEntries, listed, print_lines};
use crate::summary::{print_summary, summed};
use rock_disk::{Station, Volume};
use rock_io::{BUFFER_BYTES, Failed, LineBuffer, Sink};
use rock_rebuild::{RebuildFault, Tally};
use rock_status::Status;
use slot_finding::may_be_given;
use std::alloc::Global;

/// What a command prints of a file.
#[derive(Clone, Copy, Debug, PartialEq, Eq)]
pub enum Report {
    /// A line for each complete entry, in order of first slot.
    Listing,
    /// One line on what a store with `anchors` anchors keeps.
    Summary { anchors: u32 },
}

/// What was read of a file for a report.
#[derive(Debug, Drop)]
pub enum Reading {
    Entries(ListedEntries),
    Sums(Tally),
}

impl Report {
    /// Whether it may be made of a file with `slots` slots.
    pub fn is_for(self, slots: usize) -> bool
        ensures { IsTrue result ↔ Fits self slots }
    {
        match self {
            Report::Listing => true,
            Report::Summary { anchors } => are_anchors(anchors, slots),
        }
    }

    /// Reads the slots of a file by a station. The cells are as they were, whatever the answer.
    pub fn read<St: Station>(
        self,
        alloc: Global,
        station: &mut St,
        cells: &mut [St::C],
        slot: u32,
    ) -> Result<Reading, RebuildFault>
        requires fits { Fits self (length cells.old) }
        requires slots { AreSlots slot (map St.C.state cells.old) }
        ensures prints { IfOk result (λ reading. IsTrue St.C.tells
            → Prints self slot (map (λ (c : CellState). c.now) (map St.C.state cells.old)) (text_of reading)) }
        ensures cells { map St.C.state cells.new ≡ map St.C.state cells.old }
        ensures faults { St.faults station.old ≤ St.faults station.new }
        ensures failed { IsErrOf result RebuildFault.Failed
            → Rose (St.faults station.old) (St.faults station.new) }
        ensures unfailed { (IsErrOf result RebuildFault.Failed → ⊥)
            → St.faults station.new ≡ St.faults station.old }
    {
        match self {
            Report::Listing => {
                let entries = listed(alloc, station, cells, slot)?;
                Ok(Reading::Entries(entries))
            }
            Report::Summary { anchors } => {
                let sums = summed(alloc, station, cells, slot, anchors)?;
                Ok(Reading::Sums(sums))
            }
        }
    }
}

/// Whether a file with `slots` slots may have `anchors` anchors.
fn are_anchors(anchors: u32, slots: usize) -> bool
    ensures { IsTrue result ↔ IsAnchors anchors slots }
{
    1 <= anchors && anchors as usize <= slots
}

/// Prints what was read, through an empty buffer.
fn print_through<K: Sink>(
    out: &mut K,
    buffer: &mut LineBuffer,
    reading: &Reading,
) -> Result<(), Failed>
    requires room { BUFFER_BYTES ≤ size_of buffer.old }
    requires empty { held_of buffer.old ≡ [] }
    ensures all { OnOk result (IsTrue K.tells
        → K.taken out.new ≡ K.taken out.old ++ text_of reading.now) }
    ensures prefix { OnErr result (IsTrue K.tells
        → TakesPrefix (K.taken out.old) (K.taken out.new) (text_of reading.now)) }
    ensures faults { K.faults out.old ≤ K.faults out.new }
    ensures unfailed { OnOk result (K.faults out.new ≡ K.faults out.old) }
    ensures failed { OnErr result (Rose (K.faults out.old) (K.faults out.new)) }
{
    match reading {
        Reading::Entries(listed) => print_lines(out, buffer, listed.found.as_slice()),
        Reading::Sums(tally) => print_summary(out, buffer, tally),
    }
}

/// Prints what was read, through one buffer. Nothing is printed where there is no memory for it.
fn print_reading<K: Sink>(alloc: Global, out: &mut K, reading: &Reading) -> Status
    ensures ends { PrintEnds (K.faults out.old) (K.faults out.new) result }
    ensures prints { IsTrue K.tells
        → ReportPrints (λ text. text ≡ text_of reading.now) (K.taken out.old) (K.taken out.new) result }
    ensures sink_faults { K.faults out.old ≤ K.faults out.new }
    ensures sink_unfailed { (result ≡ Status.SinkFault → ⊥) → K.faults out.new ≡ K.faults out.old }
{
    let Ok(mut buffer) = LineBuffer::new(alloc, BUFFER_BYTES) else {
        return Status::Memory;
    };
    match print_through(out, &mut buffer, reading) {
        Ok(()) => Status::Done,
        Err(_failed) => Status::SinkFault,
    }
}

/// Prints a report of a file, whose slot size is given, or left to its header area. Nothing is printed before the whole file
/// was read and given back.
pub fn print_report<V: Volume, K: Sink>(
    alloc: Global,
    volume: &mut V,
    out: &mut K,
    name: &str,
    given: Option<u32>,
    report: Report,
) -> Status
    requires { IsTrue V.tells → IsNotAway (get (V.files volume.old) name.now) }

    // When each status comes.
    ensures ends { ReportEnds (Fits report) given (K.faults out.old) (K.faults out.new)
        (counts V.faults V.made V.ended volume.old)
        (counts V.faults V.made V.ended volume.new) result }
    ensures says { IsTrue V.tells → ReportSays (Fits report) (V.files volume.old) name.now given result }
    ensures refused { IsRefused V.tells (Fits report) (V.files volume.old) name.now given result }

    // What was printed.
    ensures prints { IsTrue K.tells
        → ReportPrints (λ text. IsTrue V.tells → OfFileFor (Prints report) (V.files volume.old) name.now given text)
        (K.taken out.old) (K.taken out.new) result }

    ensures kept { IsTrue V.tells → IsKeptFor name.now given (V.files volume.old) (V.files volume.new) }
    ensures ended { EachEnded
        (counts V.faults V.made V.ended volume.old)
        (counts V.faults V.made V.ended volume.new) }
    ensures faults { V.faults volume.old ≤ V.faults volume.new }
    ensures sink_faults { K.faults out.old ≤ K.faults out.new }

    // A fault is told as a fault.
    ensures sink_unfailed { (result ≡ Status.SinkFault → ⊥) → K.faults out.new ≡ K.faults out.old }
    ensures device_unfailed { (result ≡ Status.DeviceFault → ⊥) → NoneFailed
        (counts V.faults V.made V.ended volume.old)
        (counts V.faults V.made V.ended volume.new) }

    // Where the report is not for a file with its number of slots, no station is made.
    ensures early { IsTrue V.tells
        → WithSlot (V.files volume.old) name.now given (IsUnfit (Fits report) (V.files volume.old) name.now)
        → NoStation (counts V.faults V.made V.ended volume.old) (counts V.faults V.made V.ended volume.new)
        × (result ≡ Status.DeviceFault → Rose (V.faults volume.old) (V.faults volume.new)) }
{
    if !may_be_given(given) {
        return Status::BadGeometry { field: 1 };
    }
    match read_found(alloc, volume, name, given, report) {
        Ok(reading) => print_reading(alloc, out, &reading),
        Err(status) => status,
    }
}
