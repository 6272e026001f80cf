// What the calls of a station give one after the other, and what a crash leaves of cells.
ghost use Rattle.std.specs.Prelude.{◌≡◌, ◌*◌, ◌≤◌, ◌<◌, ◌∷◌, [], ℕ, List, length, map, Contains, All, IsTrue, IsErr, OnOk, OnErr, ◌↔◌};
ghost use Rattle.rock_io.specs.Faults.{Rose};
ghost use Rattle.rock_io.specs.Plan.{called, FailsNext};
ghost use Rattle.rock_disk.specs.Cell.{CellState, settled, shape};
ghost use Rattle.rock_disk.specs.Crash.{IsCrashImage, IsSettled, KeepsAndAdds, NowMayStay};
ghost use Rattle.rock_disk.specs.Memory.{cell_state, station_plan};
ghost use Rattle.rock_disk.specs.Reads.{width_of};

use crate::{MemCell, MemStation, Station};
use rock_io::Failed;

/// Writes a cell, and reads it. Where both succeed, the read gives what was written.
pub fn write_then_read<S: Station>(
    station: &mut S,
    cell: &mut S::C,
    bytes: &[u8],
    buf: &mut [u8],
) -> Result<(), Failed>
    requires bytes { length bytes.now ≡ (S.C.state cell.old).width }
    requires buf { length buf.old ≡ (S.C.state cell.old).width }
    ensures read { OnOk result (IsTrue S.C.tells → buf.new ≡ bytes.now) }
    ensures now { OnOk result (IsTrue S.C.tells → (S.C.state cell.new).now ≡ bytes.now) }
    ensures shape { shape (S.C.state cell.new) ≡ shape (S.C.state cell.old) }
    ensures faults { S.faults station.old ≤ S.faults station.new }
    ensures unfailed { OnOk result (S.faults station.new ≡ S.faults station.old) }
    ensures failed { OnErr result (Rose (S.faults station.old) (S.faults station.new)) }
{
    station.write(cell, bytes)?;
    station.read(cell, buf)
}

/// Writes a cell, and syncs it. Where both succeed, a crash leaves what was written.
pub fn write_then_sync<S: Station>(
    station: &mut S,
    cell: &mut S::C,
    bytes: &[u8],
) -> Result<(), Failed>
    requires { length bytes.now ≡ (S.C.state cell.old).width }
    ensures settled { OnOk result (IsTrue S.C.tells → S.C.state cell.new ≡ settled (S.C.state cell.old).number (S.C.state cell.old).width bytes.now) }
    ensures crash { OnOk result (IsTrue S.C.tells → (image : List (List ℕ)) → IsCrashImage (S.C.state cell.new ∷ []) image → image ≡ bytes.now ∷ []) }
    ensures shape { shape (S.C.state cell.new) ≡ shape (S.C.state cell.old) }
    ensures faults { S.faults station.old ≤ S.faults station.new }
    ensures unfailed { OnOk result (S.faults station.new ≡ S.faults station.old) }
    ensures failed { OnErr result (Rose (S.faults station.old) (S.faults station.new)) }
{
    station.write(cell, bytes)?;
    station.sync(cell)
}

/// Writes a cell in memory. A crash before the next sync may leave what it might before, and what is
/// written, also if the write fails. The list of what it may leave grows, if memory is left.
pub fn write_keeps_the_old(
    station: &mut MemStation,
    cell: &mut MemCell,
    bytes: &[u8],
) -> Result<(), Failed>
    requires { length bytes.now ≡ (cell_state cell.old).width }
    ensures kept { length (cell_state cell.old).possible < length (cell_state cell.new).possible → KeepsAndAdds bytes.now (cell_state cell.old) (cell_state cell.new) }
    ensures now { OnOk result ((cell_state cell.new).now ≡ bytes.now) }
    ensures shape { shape (cell_state cell.new) ≡ shape (cell_state cell.old) }
    ensures listed { IsErr result ↔ FailsNext (station_plan station.old) }
    ensures plan { station_plan station.new ≡ called (station_plan station.old) }
{
    station.write(cell, bytes)
}

/// Where in each cell a crash may leave what a read gives, it may leave that in all of them at once.
pub fn now_is_a_crash_image()
    ensures { (cells : List CellState) → All NowMayStay cells → IsCrashImage cells (map (λ c. c.now) cells) }
{}

/// Where a crash leaves in each cell what a read gives, as after a sync, it can leave one image alone.
pub fn synced_cells_leave_one_image()
    ensures { (cells : List CellState) (image : List (List ℕ)) → All IsSettled cells → IsCrashImage cells image → image ≡ map (λ c. c.now) cells }
{}

/// Cells of one width are together as many times as wide as there are cells.
pub fn cells_of_one_width_add_up()
    ensures { (width : ℕ) (cells : List CellState) → All (λ c. c.width ≡ width) cells → width_of cells ≡ length cells * width }
{}
