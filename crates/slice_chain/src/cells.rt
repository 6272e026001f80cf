// A cell in a caller's hands is written, and synced.
ghost use Rattle.rock_disk.specs.Cell.{shape};
ghost use Rattle.rock_io.specs.Faults.{Rose};
ghost use Rattle.slice_chain.specs.Written.{IsWrittenCell, MayBeLeft, StoppedAt, WentThrough, calls_to_write};
ghost use Rattle.std.specs.Prelude.{Contains, IsTrue, OnErr, OnOk, length, ◌≡◌};

use rock_disk::{Cell, Station};
use rock_io::Failed;

/// Puts these bytes into a cell, and where they are to be durable, makes sure that a crash leaves nothing
/// else.
pub(crate) fn write_cell<St: Station>(
    station: &mut St,
    cell: &mut St::C,
    bytes: &[u8],
    durable: bool,
) -> Result<(), Failed>
    requires { length bytes.now ≡ (St.C.state cell.old).width }
    ensures written { OnOk result (IsTrue St.C.tells → IsWrittenCell bytes.now durable (St.C.state cell.new)) }
    ensures possible { IsTrue St.C.tells → MayBeLeft bytes.now (St.C.state cell.old) (St.C.state cell.new) }
    ensures between { IsTrue St.C.tells → WentThrough bytes.now durable (St.C.state cell.old) (St.C.state cell.new) }
    ensures shape { shape (St.C.state cell.new) ≡ shape (St.C.state cell.old) }
    ensures called { IsTrue St.counts → OnOk result (St.calls station.new ≡ calls_to_write durable (St.calls station.old)) }
    ensures stopped { IsTrue St.counts → OnErr result (StoppedAt durable (St.calls station.old) (St.calls station.new)) }
    ensures unfailed { OnOk result (St.faults station.new ≡ St.faults station.old) }
    ensures failed { OnErr result (Rose (St.faults station.old) (St.faults station.new)) }
{
    reads_may_stay::<St::C>();
    station.write(cell, bytes)?;
    if durable {
        station.sync(cell)?;
    }
    Ok(())
}

// A law of cells, for proofs: what a read gives may outlive a crash. The function does nothing.
fn reads_may_stay<C: Cell>()
    ensures { (cell : C) → IsTrue C.tells → Contains (C.state cell).possible (C.state cell).now }
{}
