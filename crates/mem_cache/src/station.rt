ghost use Rattle.std.specs.Prelude.{IsOk, false, length, map, take, ◌+◌, ◌++◌, ◌≡◌, ◌≤◌};

use crate::PageCell;
use rock_disk::{Cell, FailedAfter, Station};
use rock_io::Failed;
use std::marker::PhantomData;

/// What one worker reads and writes the slots of a store in memory with. It copies bytes, and no call of it fails.
/// It has nothing to end, so it may be dropped.
#[derive(Drop)]
pub struct PageStation<D> {
    /// Only names the type `D`.
    disk: PhantomData<D>,
}

impl<D> PageStation<D> {
    /// A station. It takes no memory.
    pub fn new() -> PageStation<D> {
        PageStation { disk: PhantomData }
    }
}

/// Writes `part` from byte `at` on, and answers where it ends.
fn put(out: &mut [u8], at: usize, part: &[u8]) -> usize
    requires { at + length part.now ≤ length out.old }
    ensures end { result ≡ at + length part.now }
    ensures front { take result out.new ≡ take at out.old ++ part.now }
    ensures length { length out.new ≡ length out.old }
{
    let end = at + part.len();
    out[at..end].copy_from_slice(part);
    end
}

impl<D: Cell> Station for PageStation<D> {
    ghost use Rattle.rock_disk.specs.Cell.{joined, settled, shape};
    ghost use Rattle.rock_disk.specs.Reads.{width_of};
    ghost use Rattle.mem_cache.specs.Cell.{cell_state};

    type C = PageCell<D>;

    ghost faults = { λ station. 0 };

    ghost counts = { false };

    ghost calls = { λ station. 0 };

    fn read(&mut self, cell: &mut PageCell<D>, buf: &mut [u8]) -> Result<(), Failed>
        requires { length buf.old ≡ (cell_state cell.old).width }
        ensures done { IsOk result }
        ensures read { buf.new ≡ (cell_state cell.old).now }
        ensures cell { cell_state cell.new ≡ cell_state cell.old }
    {
        buf.copy_from_slice(cell.bytes());
        Ok(())
    }

    fn read_cells(&mut self, cells: &[PageCell<D>], buf: &mut [u8]) -> Result<(), FailedAfter>
        requires { length buf.old ≡ width_of (map cell_state cells.now) }
        ensures done { IsOk result }
        ensures read { buf.new ≡ joined (map cell_state cells.now) }
    {
        let mut end = 0;
        for place in 0..cells.len() {
            end = put(buf, end, cells[place].bytes());
        }
        Ok(())
    }

    fn write(&mut self, cell: &mut PageCell<D>, bytes: &[u8]) -> Result<(), Failed>
        requires { length bytes.now ≡ (cell_state cell.old).width }
        ensures done { IsOk result }
        ensures written { cell_state cell.new ≡ settled (cell_state cell.old).number (cell_state cell.old).width bytes.now }
    {
        cell.page.bytes_mut().copy_from_slice(bytes);
        Ok(())
    }

    /// Does nothing: a page holds what was written.
    fn sync(&mut self, cell: &mut PageCell<D>) -> Result<(), Failed>
        ensures done { IsOk result }
        ensures cell { cell_state cell.new ≡ cell_state cell.old }
    {
        let _ = cell;
        Ok(())
    }
}
