ghost use Rattle.std.specs.Prelude.{◌≡◌, ◌+◌, ◌<◌, ◌≤◌, ◌++◌, length, map, take, true, IsErr, OnOk, OnErr, IfErr, ◌↔◌};
ghost use Rattle.rock_io.specs.Faults.{one_more, Rose};
ghost use Rattle.rock_io.specs.Plan.{planned, called, FailsNext};

use crate::{FailedAfter, MemCell, Station};
use rock_io::{Failed, Plan};

/// A station of a volume in memory. Exactly those of its calls fail that are listed for it.
pub struct MemStation {
    plan: Plan,
}

impl MemStation {
    ghost use Rattle.rock_disk.specs.Memory.{station_faults, station_plan};

    pub(super) fn new(fail: Vec<u64>) -> MemStation
        ensures plan { station_plan result ≡ planned fail.items }
        ensures faults { station_faults result ≡ 0 }
    {
        MemStation {
            plan: Plan::new(fail),
        }
    }

    /// Ends the station, and answers how many of its calls failed.
    pub(super) fn into_faults(self) -> u64
        ensures { result ≡ station_faults self }
    {
        let MemStation { plan } = self;
        plan.faults()
    }

    /// Counts a call, which fails if it is listed.
    fn call(&mut self) -> Result<(), Failed>
        ensures listed { IsErr result ↔ FailsNext (station_plan self.old) }
        ensures plan { station_plan self.new ≡ called (station_plan self.old) }
        ensures ok { OnOk result (station_faults self.new ≡ station_faults self.old) }
        ensures err { OnErr result (station_faults self.new ≡ one_more (station_faults self.old)) }
        ensures grown { station_faults self.old ≤ station_faults self.new }
    {
        if self.plan.begin_call() {
            return Err(self.plan.fault());
        }
        Ok(())
    }
}

/// Writes `part` from byte `at` on, and answers where it ends.
fn put(out: &mut [u8], at: usize, part: &[u8]) -> usize
    requires { at + length part.now ≤ length out.old }
    ensures end { result ≡ at + length part.now }
    ensures front { take result out.new ≡ take at out.old ++ part.now }
    ensures length { length out.new ≡ length out.old }
{
    let end = at + part.len();
    out[at..end].copy_from_slice(part);
    end
}

impl Station for MemStation {
    ghost use Rattle.rock_disk.specs.Cell.{joined, shape, settle};
    ghost use Rattle.rock_disk.specs.Memory.{called_by, cell_state, station_faults, station_plan, IsFirstToFail, NoneFails};
    ghost use Rattle.rock_disk.specs.Reads.{BeginsWith, width_of};
    ghost use Rattle.rock_disk.specs.Written.{AddsAtMost, IsWritten, IsHalfWritten};

    type C = MemCell;

    ghost faults = { station_faults };

    ghost counts = { true };

    ghost calls = { λ station. (station_plan station).number };

    fn read(&mut self, cell: &mut MemCell, buf: &mut [u8]) -> Result<(), Failed>
        requires { length buf.old ≡ (cell_state cell.old).width }
        ensures read { OnOk result (buf.new ≡ (cell_state cell.old).now) }
        ensures cell { cell_state cell.new ≡ cell_state cell.old }
        ensures faults { station_faults self.old ≤ station_faults self.new }
        ensures failed { OnErr result (Rose (station_faults self.old) (station_faults self.new)) }

        // Exactly the listed calls fail, and each counts once.
        ensures listed { IsErr result ↔ FailsNext (station_plan self.old) }
        ensures plan { station_plan self.new ≡ called (station_plan self.old) }
        ensures ok { OnOk result (station_faults self.new ≡ station_faults self.old) }
        ensures err { OnErr result (station_faults self.new ≡ one_more (station_faults self.old)) }
    {
        self.call()?;
        buf.copy_from_slice(cell.now());
        Ok(())
    }

    fn read_cells(&mut self, cells: &[MemCell], buf: &mut [u8]) -> Result<(), FailedAfter>
        requires { length buf.old ≡ width_of (map cell_state cells.now) }
        ensures read { OnOk result (buf.new ≡ joined (map cell_state cells.now)) }
        ensures front { IfErr result (λ f. BeginsWith (joined (take f.read (map cell_state cells.now))) buf.new) }
        ensures within { IfErr result (λ f. f.read < length cells.now) }
        ensures faults { station_faults self.old ≤ station_faults self.new }
        ensures failed { OnErr result (Rose (station_faults self.old) (station_faults self.new)) }

        // Each cell is a call. Where one of these is listed, the whole fails at the first that is, and counts once.
        ensures passed { OnOk result (NoneFails (length cells.now) (station_plan self.old)) }
        ensures listed { IfErr result (λ f. IsFirstToFail f.read (station_plan self.old)) }
        ensures plan { OnOk result (station_plan self.new ≡ called_by (length cells.now) (station_plan self.old)) }
        ensures halted { IfErr result (λ f. station_plan self.new ≡ called_by (f.read + 1) (station_plan self.old)) }
        ensures ok { OnOk result (station_faults self.new ≡ station_faults self.old) }
        ensures err { OnErr result (station_faults self.new ≡ one_more (station_faults self.old)) }
    {
        let mut end = 0;
        for place in 0..cells.len() {
            match self.call() {
                Ok(()) => {}
                Err(_) => return Err(FailedAfter { read: place }),
            }
            end = put(buf, end, cells[place].now());
        }
        Ok(())
    }

    /// A write that fails still may be what a crash leaves. Where no memory is left to keep all that
    /// a crash may leave, the bytes take the place of what a read gave, and those of a failed write
    /// are not kept.
    fn write(&mut self, cell: &mut MemCell, bytes: &[u8]) -> Result<(), Failed>
        requires { length bytes.now ≡ (cell_state cell.old).width }
        ensures written { OnOk result ((cell_state cell.new).now ≡ bytes.now) }
        ensures unsure { OnErr result ((cell_state cell.new).now ≡ (cell_state cell.old).now) }
        ensures possible { AddsAtMost bytes.now (cell_state cell.old) (cell_state cell.new) }
        ensures shape { shape (cell_state cell.new) ≡ shape (cell_state cell.old) }
        ensures faults { station_faults self.old ≤ station_faults self.new }
        ensures failed { OnErr result (Rose (station_faults self.old) (station_faults self.new)) }

        // What was possible before is kept.
        ensures kept { OnOk result (IsWritten bytes.now (cell_state cell.old) (cell_state cell.new)) }
        ensures half { OnErr result (IsHalfWritten bytes.now (cell_state cell.old) (cell_state cell.new)) }

        // Exactly the listed calls fail, and each counts once.
        ensures listed { IsErr result ↔ FailsNext (station_plan self.old) }
        ensures plan { station_plan self.new ≡ called (station_plan self.old) }
        ensures ok { OnOk result (station_faults self.new ≡ station_faults self.old) }
        ensures err { OnErr result (station_faults self.new ≡ one_more (station_faults self.old)) }
    {
        match self.call() {
            Ok(()) => cell.write(bytes),
            Err(failed) => {
                // Want of memory is no fault of the device.
                let _ = cell.add(bytes);
                return Err(failed);
            }
        }
        Ok(())
    }

    fn sync(&mut self, cell: &mut MemCell) -> Result<(), Failed>
        ensures settled { OnOk result (cell_state cell.new ≡ settle (cell_state cell.old)) }
        ensures unchanged { OnErr result (cell_state cell.new ≡ cell_state cell.old) }
        ensures shape { shape (cell_state cell.new) ≡ shape (cell_state cell.old) }
        ensures faults { station_faults self.old ≤ station_faults self.new }
        ensures failed { OnErr result (Rose (station_faults self.old) (station_faults self.new)) }

        // Exactly the listed calls fail, and each counts once.
        ensures listed { IsErr result ↔ FailsNext (station_plan self.old) }
        ensures plan { station_plan self.new ≡ called (station_plan self.old) }
        ensures ok { OnOk result (station_faults self.new ≡ station_faults self.old) }
        ensures err { OnErr result (station_faults self.new ≡ one_more (station_faults self.old)) }
    {
        let answer = self.call();
        if answer.is_ok() {
            cell.settle();
        }
        answer
    }
}
