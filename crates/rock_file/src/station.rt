ghost use Rattle.std.specs.Prelude.{◌≡◌, ◌<◌, ◌≤◌, false, length, map, OnOk, OnErr, IfErr};
ghost use Rattle.rock_io.specs.Faults.{one_more};

use crate::FileCell;
use crate::cell_reads::read_until_fault;
use rock_disk::{FailedAfter, Station};
use rock_io::Failed;
use std::fs::OpenFile;
use std::os::unix::fs::FileExt;

/// What is put in place of the header of a slot whose write failed. A slot that begins with these zeros is a
/// part of no entry.
const NO_HEADER: [u8; 40] = [0; 40];

/// An open file, with the count of the calls that failed.
pub struct FileStation<F> {
    file: F,
    faults: u64,
}

impl<F: Drop> FileStation<F> {
    ghost use Rattle.rock_file.specs.Station.{station_faults};

    pub(crate) fn new(file: F) -> FileStation<F>
        ensures { station_faults result ≡ 0 }
    {
        FileStation { file, faults: 0 }
    }

    /// Counts a fault, and gives the error to answer with.
    fn fault(&mut self) -> Failed
        ensures faults { station_faults self.new ≡ one_more (station_faults self.old) }
        ensures grown { station_faults self.old ≤ station_faults self.new }
    {
        self.faults = self.faults.saturating_add(1);
        Failed
    }

    /// Closes the file, and answers how many calls failed.
    pub(crate) fn into_faults(self) -> u64
        ensures { result ≡ station_faults self }
    {
        let FileStation { file: _, faults } = self;
        faults
    }
}

impl<F: FileExt + OpenFile + Drop> Station for FileStation<F> {
    ghost use Rattle.rock_disk.specs.Reads.{width_of};
    ghost use Rattle.rock_file.specs.Cell.{cell_state};
    ghost use Rattle.rock_file.specs.Station.{station_faults};

    type C = FileCell;

    ghost faults = { station_faults };

    ghost counts = { false };

    ghost calls = { λ station. 0 };

    fn read(&mut self, cell: &mut FileCell, buf: &mut [u8]) -> Result<(), Failed>
        requires { length buf.old ≡ (cell_state cell.old).width }
        ensures cell { cell_state cell.new ≡ cell_state cell.old }

        // A failed read counts once, and no other does.
        ensures ok { OnOk result (station_faults self.new ≡ station_faults self.old) }
        ensures failed { OnErr result (station_faults self.new ≡ one_more (station_faults self.old)) }
        ensures faults { station_faults self.old ≤ station_faults self.new }
    {
        if self.file.read_exact_at(buf, cell.offset()).is_err() {
            return Err(self.fault());
        }
        Ok(())
    }

    /// Cells that stand side by side are read from the place of the first on, by as few calls as the system makes
    /// of it. Others are read by a call each.
    fn read_cells(&mut self, cells: &[FileCell], buf: &mut [u8]) -> Result<(), FailedAfter>
        requires { length buf.old ≡ width_of (map cell_state cells.now) }
        ensures within { IfErr result (λ f. f.read < length cells.now) }

        // A failed call counts once, and no other does.
        ensures ok { OnOk result (station_faults self.new ≡ station_faults self.old) }
        ensures failed { OnErr result (station_faults self.new ≡ one_more (station_faults self.old)) }
        ensures faults { station_faults self.old ≤ station_faults self.new }
    {
        let read = read_until_fault(&self.file, cells, buf);
        if read < cells.len() {
            let _ = self.fault();
            return Err(FailedAfter { read });
        }
        Ok(())
    }

    /// Puts the bytes at the cell's place. Where the call fails, some of them may stand there. Of a slot its
    /// header is then overwritten with zeros, where the system still takes these, so that no part of what was to
    /// be written is taken for a slot. That is tried once, and whatever comes of it, the failure counts once.
    fn write(&mut self, cell: &mut FileCell, bytes: &[u8]) -> Result<(), Failed>
        requires { length bytes.now ≡ (cell_state cell.old).width }
        ensures cell { cell_state cell.new ≡ cell_state cell.old }

        // A failed write counts once, and no other does.
        ensures ok { OnOk result (station_faults self.new ≡ station_faults self.old) }
        ensures failed { OnErr result (station_faults self.new ≡ one_more (station_faults self.old)) }
        ensures faults { station_faults self.old ≤ station_faults self.new }
    {
        if self.file.write_all_at(bytes, cell.offset()).is_err() {
            if !cell.is_header() {
                let zeros = &NO_HEADER[..NO_HEADER.len().min(bytes.len())];
                let _ = self.file.write_all_at(zeros, cell.offset());
            }
            return Err(self.fault());
        }
        Ok(())
    }

    /// Brings what was written to the disk, of the whole file.
    fn sync(&mut self, cell: &mut FileCell) -> Result<(), Failed>
        ensures cell { cell_state cell.new ≡ cell_state cell.old }

        // A failed sync counts once, and no other does.
        ensures ok { OnOk result (station_faults self.new ≡ station_faults self.old) }
        ensures failed { OnErr result (station_faults self.new ≡ one_more (station_faults self.old)) }
        ensures faults { station_faults self.old ≤ station_faults self.new }
    {
        if self.file.sync_data().is_err() {
            return Err(self.fault());
        }
        Ok(())
    }
}
