ghost use Rattle.std.specs.Prelude.{◌≡◌, ℕ, ◌+◌, ◌<◌, ◌≤◌, Bool, IsTrue, length, map, take, OnOk, OnErr, IfErr};
ghost use Rattle.rock_io.specs.Faults.{Rose, one_more};
ghost use Rattle.rock_disk.specs.Cell.{joined, shape, settle};
ghost use Rattle.rock_disk.specs.Reads.{BeginsWith, many_more, width_of};
ghost use Rattle.rock_disk.specs.Written.{AddsAtMost, ReadsOldOrNew};

use crate::Cell;
use rock_io::Failed;
use thiserror::Error;

/// The read of one of several cells failed, and the station's count of faults rose.
#[derive(Clone, Copy, Debug, PartialEq, Eq, Error)]
#[error("a read failed behind {read} others")]
pub struct FailedAfter {
    /// How many cells were read before that one.
    pub read: usize,
}

/// What one worker reads and writes the cells of a file with. A call that succeeds leaves the count of
/// faults as it was, and no call wants memory. A station is ended by the volume that made it, so it
/// cannot be dropped.
///
/// What a crash may leave of a cell is told of the time between two calls. A crash within a call is no
/// call's answer, so no clause speaks of it. The system keeps to this: a crash within a write leaves
/// a content that may be left after the write, and a crash within a sync one that may be left before it.
pub trait Station {
    type C: Cell;

    /// How many of its calls have failed.
    ghost faults: { Self → ℕ };

    /// Whether stations of this type tell how often they were called. Where they don't, no clause says anything of that.
    ghost counts: { Bool };

    /// How often it was called, as far as a number of 64 bits goes.
    ghost calls: { Self → ℕ };

    /// Puts what the cell holds into `buf`. The cell is unchanged, whatever the answer.
    fn read(&mut self, cell: &mut Self::C, buf: &mut [u8]) -> Result<(), Failed>
        requires { length buf.old ≡ (Self.C.state cell.old).width }
        ensures read { OnOk result (IsTrue Self.C.tells → buf.new ≡ (Self.C.state cell.old).now) }
        ensures cell { Self.C.state cell.new ≡ Self.C.state cell.old }
        ensures counted { IsTrue counts → calls self.new ≡ one_more (calls self.old) }
        ensures faults { faults self.old ≤ faults self.new }
        ensures unfailed { OnOk result (faults self.new ≡ faults self.old) }
        ensures failed { OnErr result (Rose (faults self.old) (faults self.new)) };

    /// Puts what these cells hold into `buf`, one behind the other, as a read of each in this order does. Where
    /// one of these reads fails, so does the call, and no later cell is read. What was read before then
    /// stands in front, and behind it `buf` may have any bytes. Cells that stand side by side in a file may be
    /// read by one call of the system.
    fn read_cells(&mut self, cells: &[Self::C], buf: &mut [u8]) -> Result<(), FailedAfter>
        requires { length buf.old ≡ width_of (map Self.C.state cells.now) }
        ensures read { OnOk result (IsTrue Self.C.tells → buf.new ≡ joined (map Self.C.state cells.now)) }
        ensures front { IfErr result (λ f. IsTrue Self.C.tells → BeginsWith (joined (take f.read (map Self.C.state cells.now))) buf.new) }
        ensures within { IfErr result (λ f. f.read < length cells.now) }
        ensures counted { OnOk result (IsTrue counts → calls self.new ≡ many_more (length cells.now) (calls self.old)) }
        ensures stopped { IfErr result (λ f. IsTrue counts → calls self.new ≡ many_more (f.read + 1) (calls self.old)) }
        ensures faults { faults self.old ≤ faults self.new }
        ensures unfailed { OnOk result (faults self.new ≡ faults self.old) }
        ensures failed { OnErr result (Rose (faults self.old) (faults self.new)) };

    /// Puts `bytes` into the cell. Until the cell is synced, a crash may leave these bytes or what
    /// it might have left before. Where the call fails, the cell may hold either. A crash within the
    /// call leaves one of them too, whole.
    fn write(&mut self, cell: &mut Self::C, bytes: &[u8]) -> Result<(), Failed>
        requires { length bytes.now ≡ (Self.C.state cell.old).width }
        ensures written { OnOk result (IsTrue Self.C.tells → (Self.C.state cell.new).now ≡ bytes.now) }
        ensures unsure { OnErr result (IsTrue Self.C.tells → ReadsOldOrNew bytes.now (Self.C.state cell.old) (Self.C.state cell.new)) }
        ensures possible { IsTrue Self.C.tells → AddsAtMost bytes.now (Self.C.state cell.old) (Self.C.state cell.new) }
        ensures shape { shape (Self.C.state cell.new) ≡ shape (Self.C.state cell.old) }
        ensures counted { IsTrue counts → calls self.new ≡ one_more (calls self.old) }
        ensures faults { faults self.old ≤ faults self.new }
        ensures unfailed { OnOk result (faults self.new ≡ faults self.old) }
        ensures failed { OnErr result (Rose (faults self.old) (faults self.new)) };

    /// Makes sure that a crash leaves what a read gives. Where the call fails, the cell is unchanged. A
    /// crash within the call leaves what one before it might.
    fn sync(&mut self, cell: &mut Self::C) -> Result<(), Failed>
        ensures settled { OnOk result (IsTrue Self.C.tells → Self.C.state cell.new ≡ settle (Self.C.state cell.old)) }
        ensures unchanged { OnErr result (Self.C.state cell.new ≡ Self.C.state cell.old) }
        ensures shape { shape (Self.C.state cell.new) ≡ shape (Self.C.state cell.old) }
        ensures counted { IsTrue counts → calls self.new ≡ one_more (calls self.old) }
        ensures faults { faults self.old ≤ faults self.new }
        ensures unfailed { OnOk result (faults self.new ≡ faults self.old) }
        ensures failed { OnErr result (Rose (faults self.old) (faults self.new)) };
}
