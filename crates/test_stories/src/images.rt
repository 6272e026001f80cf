// What a crash may leave of a file.
ghost use Rattle.std.specs.Prelude.{IfOk};
ghost use Rattle.rock_disk.specs.File.{NoneAway};
ghost use Rattle.rock_disk.specs.Memory.{volume_files};

use crate::files::empty_file;
use crate::numbers::wrong;
use rock_disk::{MemCell, MemVolume};
use rock_io::Memory;
use std::alloc::{AllocError, Global};
use std::test::Fail;

/// The files that a crash may leave of the slots of a file, each behind a header area of zeros: of each slot one of the contents
/// that are possible, and of all slots any combination.
#[derive(Drop)]
pub struct Images {
    /// What is possible of each slot.
    slots: Vec<Vec<Vec<u8>>>,
    /// How many bytes a slot has.
    width: usize,
    count: u32,
}

impl Images {
    /// The files that a crash may leave of these cells. There may not be more than this.
    pub fn of(alloc: Global, cells: &[MemCell], most: u32) -> Result<Images, Fail> {
        let Some(first) = cells.first() else {
            return Err(wrong("the file has no slots"));
        };
        let Some(count) = choices(cells, most) else {
            return Err(Fail::new(format_args!("there are more than {most} images")));
        };
        let mut slots = Vec::new(alloc);
        for cell in cells {
            slots.push(contents_of(alloc, cell)?)?;
        }
        Ok(Images {
            slots,
            width: first.now().len(),
            count,
        })
    }

    /// How many files there are.
    pub fn count(&self) -> u32 {
        self.count
    }

    /// How many bytes a slot has.
    pub fn width(&self) -> usize {
        self.width
    }

    /// The file of this number. They are numbered from 0, and the first slot differs first.
    pub fn file(&self, alloc: Global, number: u32) -> Result<Vec<u8>, AllocError> {
        let mut file = empty_file(alloc)?;
        let mut rest = number as usize;
        for contents in &self.slots {
            let choice = rest.checked_rem(contents.len()).unwrap_or(0);
            rest = rest.checked_div(contents.len()).unwrap_or(0);
            if let Some(content) = contents.get(choice) {
                file.extend_from_slice(content)?;
            }
        }
        Ok(file)
    }
}

/// What is possible of a slot.
fn contents_of(alloc: Global, cell: &MemCell) -> Result<Vec<Vec<u8>>, AllocError> {
    let mut contents = Vec::new(alloc);
    for content in cell.possible() {
        contents.push(content.as_slice().to_vec(alloc)?)?;
    }
    Ok(contents)
}

/// In how many ways one content of each cell may be chosen. None: in more than so many.
fn choices(cells: &[MemCell], most: u32) -> Option<u32> {
    let mut count: u32 = 1;
    for cell in cells {
        count = count.checked_mul(u32::try_from(cell.possible().len()).ok()?)?;
        if count > most {
            return None;
        }
    }
    Some(count)
}

/// A volume with this file alone, whose name is `db`.
pub fn volume_with(alloc: Global, file: &[u8]) -> Result<MemVolume, Memory>
    ensures { IfOk result (λ volume. NoneAway (volume_files volume)) }
{
    let mut volume = MemVolume::new(alloc, Vec::new(alloc), Vec::new(alloc));
    volume.put_file("db", file)?;
    Ok(volume)
}
