// A station gives other bytes than were written.
ghost use Rattle.std.specs.Prelude.{◌≡◌, IfOk, [], false, length, map};
ghost use Rattle.std.specs.FinMap.{empty};
ghost use Rattle.rock_disk.specs.Cell.{settled};
ghost use Rattle.rock_disk.specs.Opened.{HasShape};
ghost use Rattle.rock_disk.specs.Stations.{ended_of, made_of};

use rock_disk::{
    Cell, CreateFault, FailedAfter, HEADER_NUMBER, OpenFault, Opened, PeekFault, Station,
    StationFault, Stations, Volume,
};
use rock_io::{Failed, Memory};
use std::alloc::Global;

/// How wide each slot is.
const SLOT: usize = 512;

/// A cell in memory. It tells proofs nothing of what it holds, so that a station may give other bytes.
#[derive(Drop)]
pub struct Veiled {
    number: u32,
    bytes: Vec<u8>,
}

impl Veiled {
    /// A cell of `width` zeros.
    fn blank(alloc: Global, number: u32, width: usize) -> Result<Veiled, Memory>
        ensures number { IfOk result (λ cell. cell.number ≡ number) }
        ensures width { IfOk result (λ cell. length cell.bytes.items ≡ width) }
    {
        let bytes = vec![in alloc; 0u8; width]?;
        Ok(Veiled { number, bytes })
    }
}

impl Cell for Veiled {
    ghost use Rattle.std.proofs.lemmas.Bool.{false≢true};

    ghost tells = { false };

    ghost state = { λ cell. settled cell.number (length cell.bytes.items) [] };

    ghost as_wide = { λ cell told. absurd (false≢true told) };

    ghost now_may_stay = { λ cell told. absurd (false≢true told) };

    fn number(&self) -> u32 {
        self.number
    }
}

/// The station of such cells. Its first read gives what the cell holds, and some of the next ones a page in place of that. No
/// call fails.
#[derive(Drop)]
pub struct Liar {
    page: Vec<u8>,
    reads: u32,
    /// How many reads there are until it gives what a cell holds again.
    until: u32,
}

/// Puts these bytes in front of the others.
fn put(buf: &mut [u8], bytes: &[u8]) {
    for (place, byte) in buf.iter_mut().zip(bytes) {
        *place = *byte;
    }
}

impl Liar {
    /// Gives what the cell holds, or the page.
    fn give(&mut self, cell: &Veiled, buf: &mut [u8]) {
        put(buf, &cell.bytes);
        if self.reads > 0 && self.reads < self.until {
            put(buf, &self.page);
        }
        self.reads = self.reads.saturating_add(1);
    }
}

impl Station for Liar {
    type C = Veiled;

    ghost faults = { λ _. 0 };

    ghost counts = { false };

    ghost calls = { λ _. 0 };

    fn read(&mut self, cell: &mut Veiled, buf: &mut [u8]) -> Result<(), Failed> {
        self.give(cell, buf);
        Ok(())
    }

    fn read_cells(&mut self, cells: &[Veiled], buf: &mut [u8]) -> Result<(), FailedAfter> {
        for (cell, part) in cells.iter().zip(buf.chunks_exact_mut(SLOT)) {
            self.give(cell, part);
        }
        Ok(())
    }

    fn write(&mut self, cell: &mut Veiled, bytes: &[u8]) -> Result<(), Failed> {
        cell.bytes.copy_from_slice(bytes);
        Ok(())
    }

    fn sync(&mut self, _cell: &mut Veiled) -> Result<(), Failed> {
        Ok(())
    }
}

/// A file of three empty slots of 512 bytes.
fn empty_slots(alloc: Global) -> Result<Opened<Veiled>, Memory>
    ensures { IfOk result (λ opened. HasShape 512 opened.bytes (settled opened.header.number (length opened.header.bytes.items) [])
        (map (λ (cell : Veiled). settled cell.number (length cell.bytes.items) []) opened.cells.items)) }
{
    let mut cells = Vec::new(alloc);
    cells.push(Veiled::blank(alloc, 0, 512)?)?;
    cells.push(Veiled::blank(alloc, 1, 512)?)?;
    cells.push(Veiled::blank(alloc, 2, 512)?)?;
    Ok(Opened {
        header: Veiled::blank(alloc, HEADER_NUMBER, 16_384)?,
        cells,
        bytes: 17_920,
    })
}

/// A volume that has a file of three empty slots whenever one is opened. The station that it makes first, which is the one
/// for the rebuild, gives what the cells hold. Each other one gives this page, behind its first read and until this one.
#[derive(Drop)]
pub struct Lying {
    pub page: Vec<u8>,
    pub until: u32,
    pub stations: Stations,
}

impl Volume for Lying {
    type C = Veiled;

    type St = Liar;

    ghost tells = { false };

    ghost files = { λ _. empty };

    ghost faults = { λ _. 0 };

    ghost made = { λ v. made_of v.stations };

    ghost ended = { λ v. ended_of v.stations };

    fn open_file(
        &mut self,
        alloc: Global,
        _name: &str,
        slot: u32,
    ) -> Result<Opened<Veiled>, OpenFault> {
        if slot != 512 {
            return Err(OpenFault::Missing);
        }
        Ok(empty_slots(alloc)?)
    }

    fn peek(&mut self, _name: &str, buf: &mut [u8]) -> Result<u64, PeekFault> {
        buf.fill(0);
        Ok(16_384)
    }

    fn station(&mut self, _name: &str) -> Result<Liar, StationFault> {
        let until = if self.stations.made() == 0 {
            0
        } else {
            self.until
        };
        let alloc = *self.page.allocator();
        let Ok(page) = self.page.to_vec(alloc) else {
            return Err(StationFault::Memory);
        };
        self.stations.make()?;
        Ok(Liar {
            page,
            reads: 0,
            until,
        })
    }

    fn end_station(&mut self, _station: Liar) {
        self.stations.end(0);
    }

    fn give_back(&mut self, _name: &str, _header: Veiled, _cells: Vec<Veiled>)
        ensures { self.new.stations ≡ self.old.stations }
    {}

    fn create(&mut self, _name: &str, _slots: u32, _slot: u32) -> Result<(), CreateFault> {
        Err(CreateFault::Exists)
    }

    ghost ended_were_made = { λ volume. volume.stations.within };

    ghost cells_tell = { λ told. told };
}
