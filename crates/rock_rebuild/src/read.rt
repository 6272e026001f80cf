// The slots of a file are read in order, each once, several by one call.
ghost use Rattle.std.specs.Prelude.{◌≡◌, ◌+◌, ◌*◌, ◌<◌, ◌≤◌, ℕ, List, ◌++◌, length, map, All, IfOk, OnOk, IsErrOf};
ghost use Rattle.rock_io.specs.Faults.{Rose};
ghost use Rattle.db_layout.specs.Layout.{IsSlotSize};
ghost use Rattle.rock_disk.specs.Cell.{CellState};
ghost use Rattle.rock_disk.specs.Opened.{AreSlots};
ghost use Rattle.rock_rebuild.specs.Read.{AreImagesOf};
ghost use Rattle.rock_rebuild.specs.Slots.{AreRead};

use crate::outcome::RebuildFault;
use crate::slots::Slots;
use rock_disk::{Station, cells_of_one_width_add_up};
use std::alloc::Global;

/// How many bytes one call reads at most.
const READ_BYTES: u32 = 65_536;

/// How many slots of this size one call reads.
fn slots_in_a_read(slot: u32) -> u32
    requires { IsSlotSize slot }
    ensures some { 0 < result }
    ensures room { result * slot ≤ READ_BYTES }
{
    READ_BYTES / slot
}

/// Reads the next slots, whose first has this number, by one call, and tells what is kept of them too.
fn read_part<St: Station>(
    station: &mut St,
    cells: &[St::C],
    buf: &mut [u8],
    slots: &mut Slots,
    first: u32,
    count: u32,
    slot: u32,
) -> Result<(), RebuildFault>
    requires wide { All (λ (c : CellState). c.width ≡ slot) (map St.C.state cells.now) }
    requires room { length buf.old ≡ length cells.now * slot }
    requires numbers { first + length cells.now ≤ count }
    ensures read { OnOk result ((images : List (List ℕ)) × AreImagesOf St.C.tells slot (map St.C.state cells.now) images
        × ((before : List (List ℕ)) → length before ≡ first
        → AreRead count slot before slots.old → AreRead count slot (before ++ images) slots.new)) }
    ensures count { OnOk result ((length slots.new.table ≡ length slots.old.table + length cells.now)
        × (length slots.new.heads.items ≡ length slots.old.heads.items + length cells.now)) }
    ensures faults { St.faults station.old ≤ St.faults station.new }
    ensures unfailed { (IsErrOf result RebuildFault.Failed → ⊥)
        → St.faults station.new ≡ St.faults station.old }
    ensures failed { IsErrOf result RebuildFault.Failed
        → Rose (St.faults station.old) (St.faults station.new) }
{
    cells_of_one_width_add_up();
    station.read_cells(cells, buf)?;
    slots.add_all(first, cells.len() as u32, count, slot, buf)?;
    Ok(())
}

/// Reads the slots of a file, and tells what is kept of them.
pub fn read_slots<St: Station>(
    alloc: Global,
    station: &mut St,
    cells: &[St::C],
    slot: u32,
) -> Result<Slots, RebuildFault>
    requires { AreSlots slot (map St.C.state cells.now) }
    ensures read { IfOk result (λ slots. (images : List (List ℕ))
        × AreImagesOf St.C.tells slot (map St.C.state cells.now) images × AreRead (length cells.now) slot images slots) }
    ensures count { IfOk result (λ slots. (length slots.table ≡ length cells.now)
        × (length slots.heads.items ≡ length cells.now)) }
    ensures faults { St.faults station.old ≤ St.faults station.new }
    ensures unfailed { (IsErrOf result RebuildFault.Failed → ⊥)
        → St.faults station.new ≡ St.faults station.old }
    ensures failed { IsErrOf result RebuildFault.Failed
        → Rose (St.faults station.old) (St.faults station.new) }
{
    let count = cells.len() as u32;
    let most = slots_in_a_read(slot);
    let mut images = Vec::new(alloc);
    images.resize((most * slot) as usize, 0)?;
    let mut slots = Slots::with_capacity(alloc, cells.len())?;
    let mut rest = cells;
    let mut next = 0;
    while next < count {
        let some = most.min(count - next);
        let (part, behind) = rest.split_at(some as usize);
        let room = &mut images[..(some * slot) as usize];
        read_part(station, part, room, &mut slots, next, count, slot)?;
        rest = behind;
        next += some;
    }
    Ok(slots)
}
