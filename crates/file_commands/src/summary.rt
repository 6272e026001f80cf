// The summary of a file: what a rebuild keeps of it, in one line.
ghost use Rattle.std.specs.Prelude.{◌≡◌, ◌+◌, ◌<◌, ◌≤◌, length, map, IsTrue, IfOk, IsErrOf, OnOk, OnErr, ◌++◌, []};
ghost use Rattle.rock_io.specs.Faults.{Rose};
ghost use Rattle.rock_io.specs.Sink.{TakesPrefix};
ghost use Rattle.rock_disk.specs.Cell.{CellState};
ghost use Rattle.rock_disk.specs.Opened.{AreSlots};
ghost use Rattle.rock_io.specs.LineBuffer.{held_of, size_of, HasRoom, Adds};
ghost use Rattle.file_commands.specs.Summary.{front, back, line_of_tally, Sums};

use rock_disk::Station;
use rock_io::{BUFFER_BYTES, Failed, LineBuffer, Sink};
use rock_rebuild::{RebuildFault, Tally, tally};
use std::alloc::Global;

/// More bytes than the line has.
const SUMMARY_BYTES: usize = 512;

/// Reads the slots of a file, and counts what a store with `anchors` anchors keeps.
pub fn summed<St: Station>(
    alloc: Global,
    station: &mut St,
    cells: &mut [St::C],
    slot: u32,
    anchors: u32,
) -> Result<Tally, RebuildFault>
    requires some { 0 < anchors }
    requires slots { AreSlots slot (map St.C.state cells.old) }
    ensures sums { IfOk result (λ tally. IsTrue St.C.tells
        → Sums anchors slot (map (λ (c : CellState). c.now) (map St.C.state cells.old)) (line_of_tally tally)) }
    ensures cells { map St.C.state cells.new ≡ map St.C.state cells.old }
    ensures faults { St.faults station.old ≤ St.faults station.new }
    ensures failed { IsErrOf result RebuildFault.Failed
        → Rose (St.faults station.old) (St.faults station.new) }
    ensures unfailed { (IsErrOf result RebuildFault.Failed → ⊥)
        → St.faults station.new ≡ St.faults station.old }
{
    tally(alloc, station, cells, slot, anchors)
}

/// Prints the line of a tally, through an empty buffer.
pub fn print_summary<K: Sink>(
    out: &mut K,
    buffer: &mut LineBuffer,
    tally: &Tally,
) -> Result<(), Failed>
    requires room { BUFFER_BYTES ≤ size_of buffer.old }
    requires empty { held_of buffer.old ≡ [] }
    ensures all { OnOk result (IsTrue K.tells → K.taken out.new ≡ K.taken out.old ++ line_of_tally tally.now) }
    ensures prefix { OnErr result (IsTrue K.tells
        → TakesPrefix (K.taken out.old) (K.taken out.new) (line_of_tally tally.now)) }
    ensures faults { K.faults out.old ≤ K.faults out.new }
    ensures unfailed { OnOk result (K.faults out.new ≡ K.faults out.old) }
    ensures failed { OnErr result (Rose (K.faults out.old) (K.faults out.new)) }
{
    put_summary(buffer, tally);
    buffer.write_to(out)
}

/// Adds the line of a tally to a buffer that has room for it.
#[tactic(auto, using(crate::proofs::Lines::short_front, crate::proofs::Lines::short_back))]
fn put_summary(buffer: &mut LineBuffer, tally: &Tally)
    requires { length (held_of buffer.old) + SUMMARY_BYTES ≤ size_of buffer.old }
    ensures { Adds buffer.old buffer.new (line_of_tally tally.now) }
{
    put_front(buffer, tally.slots, tally.kept, tally.used);
    put_back(
        buffer,
        tally.slots.saturating_sub(tally.used),
        tally.greatest,
    );
}

/// Adds the front of the line.
fn put_front(buffer: &mut LineBuffer, slots: usize, kept: usize, used: usize)
    requires { HasRoom buffer.old (front slots kept used) }
    ensures { Adds buffer.old buffer.new (front slots kept used) }
{
    buffer.put(b"slots=");
    buffer.put_number(slots as u64);
    buffer.put(b" kept=");
    buffer.put_number(kept as u64);
    buffer.put(b" used=");
    buffer.put_number(used as u64);
    buffer.put(b" ");
}

/// Adds the rest of it.
fn put_back(buffer: &mut LineBuffer, free: usize, version: u32)
    requires { HasRoom buffer.old (back free version) }
    ensures { Adds buffer.old buffer.new (back free version) }
{
    buffer.put(b"free=");
    buffer.put_number(free as u64);
    buffer.put(b" version=");
    buffer.put_number(u64::from(version));
    buffer.put(b"\n");
}
