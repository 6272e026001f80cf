ghost use Rattle.std.specs.Prelude.{◌≡◌, ◌-◌, ◌^◌, ◌++◌, min, length, map, IfOk, option_map, option_copied};
ghost use Rattle.rock_disk.specs.Cell.{joined};
ghost use Rattle.rock_disk.specs.File.{bytes_of, uncut, zeros};
ghost use Rattle.rock_disk.specs.File.File.{Home};
ghost use Rattle.rock_disk.specs.Memory.{cell_state, file_of, rest_of, cells_in};

use crate::{HEADER_NUMBER, MemCell};
use rock_io::Memory;
use std::alloc::Global;

/// A file in memory, with its cells in it or with the cells out.
#[derive(Drop)]
pub(super) enum MemFile {
    Home {
        header: MemCell,
        cells: Vec<MemCell>,
        rest: Vec<u8>,
    },
    Away {
        slots: u32,
        slot: u32,
        rest: Vec<u8>,
    },
}

impl MemFile {
    /// A file with these bytes, none of them in a cell yet.
    pub(super) fn uncut(alloc: Global, bytes: &[u8]) -> Result<MemFile, Memory>
        ensures { IfOk result (λ f. file_of f ≡ uncut bytes.now) }
    {
        MemFile::of_rest(alloc, bytes.to_vec(alloc)?)
    }

    /// A file of so many zeros, none of them in a cell yet.
    #[tactic(auto, unfolding(crate::specs::File::zeros))]
    pub(super) fn zeros(alloc: Global, size: usize) -> Result<MemFile, Memory>
        ensures { IfOk result (λ f. file_of f ≡ uncut (zeros size)) }
    {
        MemFile::of_rest(alloc, vec![in alloc; 0; size]?)
    }

    fn of_rest(alloc: Global, rest: Vec<u8>) -> Result<MemFile, Memory>
        ensures { IfOk result (λ f. file_of f ≡ uncut rest.items) }
    {
        Ok(MemFile::Home {
            header: MemCell::new(alloc, HEADER_NUMBER, &[])?,
            cells: Vec::new(alloc),
            rest,
        })
    }

    /// How many bytes the file has, or the largest `u64` if they are more. It takes no memory.
    pub(super) fn size(&self) -> u64
        ensures { result ≡ min (length (bytes_of (file_of self.now))) (2 ^ 64 - 1) }
    {
        match self {
            MemFile::Home {
                header,
                cells,
                rest,
            } => (header.now().len() as u64)
                .saturating_add(size_of_cells(cells))
                .saturating_add(rest.len() as u64),
            MemFile::Away { rest, .. } => rest.len() as u64,
        }
    }

    /// The bytes of the file, one after the other.
    pub(super) fn bytes(&self, alloc: Global) -> Result<Vec<u8>, Memory>
        ensures { IfOk result (λ bytes. bytes.items ≡ bytes_of (file_of self.now)) }
    {
        match self {
            MemFile::Home {
                header,
                cells,
                rest,
            } => join(alloc, header, cells, rest),
            MemFile::Away { rest, .. } => Ok(rest.to_vec(alloc)?),
        }
    }

    /// The slot cells, if they are in.
    pub(super) fn cells(&self) -> Option<&[MemCell]>
        ensures { option_map (map cell_state) (option_copied result) ≡ cells_in (Some (file_of self.now)) }
    {
        match self {
            MemFile::Home { cells, .. } => Some(cells),
            MemFile::Away { .. } => None,
        }
    }

    /// The file with these cells in it.
    pub(super) fn with_cells(self, header: MemCell, cells: Vec<MemCell>) -> MemFile
        ensures { file_of result ≡ Home (cell_state header) (map cell_state cells.items) (rest_of (file_of self)) }
    {
        let rest = self.into_rest();
        MemFile::Home {
            header,
            cells,
            rest,
        }
    }

    fn into_rest(self) -> Vec<u8>
        ensures { result.items ≡ rest_of (file_of self) }
    {
        match self {
            MemFile::Home { rest, .. } => rest,
            MemFile::Away { rest, .. } => rest,
        }
    }
}

/// How many bytes the cells hold, or the largest `u64` if they are more.
fn size_of_cells(cells: &[MemCell]) -> u64
    ensures { result ≡ min (length (joined (map cell_state cells.now))) (2 ^ 64 - 1) }
{
    let mut size: u64 = 0;
    for cell in cells {
        size = size.saturating_add(cell.now().len() as u64);
    }
    size
}

fn join(alloc: Global, header: &MemCell, cells: &[MemCell], rest: &[u8]) -> Result<Vec<u8>, Memory>
    ensures { IfOk result (λ bytes. bytes.items ≡ (cell_state header.now).now ++ (joined (map cell_state cells.now) ++ rest.now)) }
{
    let mut bytes = header.now().to_vec(alloc)?;
    for cell in cells {
        bytes.extend_from_slice(cell.now())?;
    }
    bytes.extend_from_slice(rest)?;
    Ok(bytes)
}
