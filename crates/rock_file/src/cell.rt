ghost use Rattle.std.specs.Prelude.{◌≡◌, ◌↔◌, ◌+◌, ◌*◌, ◌<◌, map, false, IfOk, IsTrue};
ghost use Rattle.rock_disk.specs.Cell.{shape};
ghost use Rattle.rock_disk.specs.File.{shapes_from};

use db_layout::{HEADER_BYTES, offset_of};
use rock_disk::{Cell, HEADER_NUMBER};
use rock_io::Memory;
use std::alloc::Global;

/// A place in a file. It holds none of the file's bytes.
#[derive(Debug, Drop)]
pub struct FileCell {
    number: u32,
    width: u32,
}

impl FileCell {
    ghost use Rattle.rock_file.specs.Cell.{cell_state};

    /// How many bytes it has.
    pub fn width(&self) -> u32
        ensures { result ≡ (cell_state self.now).width }
    {
        self.width
    }

    pub(crate) fn header() -> FileCell
        ensures { shape (cell_state result) ≡ (HEADER_NUMBER, HEADER_BYTES) }
    {
        FileCell {
            number: HEADER_NUMBER,
            width: HEADER_BYTES,
        }
    }

    /// Whether it is the header area of a file, and no slot.
    pub(crate) fn is_header(&self) -> bool
        ensures { IsTrue result ↔ (self.now.number ≡ HEADER_NUMBER) }
    {
        self.number == HEADER_NUMBER
    }

    /// The first slots of a file, in order.
    pub(crate) fn slots(alloc: Global, count: u32, width: u32) -> Result<Vec<FileCell>, Memory>
        ensures { IfOk result (λ cells. map shape (map cell_state cells.items) ≡ shapes_from 0 count width) }
    {
        let mut cells = Vec::new(alloc);
        for number in 0..count {
            cells.push(FileCell { number, width })?;
        }
        Ok(cells)
    }

    /// Whether it stands so many places behind that one, among slots of one width.
    pub(crate) fn is_behind(&self, first: &FileCell, places: usize) -> bool
        ensures { IsTrue result ↔ ((self.now.number ≡ first.now.number + places) × (self.now.width ≡ first.now.width)) }
    {
        u64::from(self.number) == u64::from(first.number).saturating_add(places as u64)
            && self.width == first.width
    }

    /// Where in the file it begins.
    pub(crate) fn offset(&self) -> u64
        ensures header { self.now.number ≡ HEADER_NUMBER → result ≡ 0 }
        ensures slot { self.now.number < HEADER_NUMBER → result ≡ HEADER_BYTES + self.now.number * self.now.width }
    {
        if self.is_header() {
            return 0;
        }
        offset_of(self.number, self.width)
    }
}

impl Cell for FileCell {
    ghost use Rattle.std.proofs.lemmas.Bool.{false≢true};
    ghost use Rattle.rock_file.specs.Cell.{cell_state};

    ghost tells = { false };

    ghost state = { cell_state };

    fn number(&self) -> u32 {
        self.number
    }

    ghost as_wide = { λ cell told. absurd (false≢true told) };

    ghost now_may_stay = { λ cell told. absurd (false≢true told) };
}
