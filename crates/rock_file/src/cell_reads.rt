// Cells of a file that are read by one call, one behind the other.
ghost use Rattle.std.specs.Prelude.{◌≡◌, length, map};
ghost use Rattle.rock_disk.specs.Reads.{width_of};
ghost use Rattle.rock_file.specs.Cell.{cell_state};

use crate::FileCell;
use std::io::ErrorKind;
use std::os::unix::fs::FileExt;

/// Puts cells of a file into `buf`, up to the first that can't be read whole, and answers how many were read.
pub(crate) fn read_until_fault(file: &impl FileExt, cells: &[FileCell], buf: &mut [u8]) -> usize
    requires { length buf.old ≡ width_of (map cell_state cells.now) }
{
    if are_neighbours(cells) {
        return read_together(file, cells, buf);
    }
    read_apart(file, cells, buf)
}

/// Whether these cells stand side by side in a file, in this order.
fn are_neighbours(cells: &[FileCell]) -> bool {
    let Some(first) = cells.first() else {
        return true;
    };
    for (places, cell) in cells.iter().enumerate() {
        if !cell.is_behind(first, places) {
            return false;
        }
    }
    true
}

/// Reads cells that stand side by side, from the place of the first on.
fn read_together(file: &impl FileExt, cells: &[FileCell], buf: &mut [u8]) -> usize {
    let Some(first) = cells.first() else {
        return 0;
    };
    let bytes = read_from(file, first.offset(), buf);
    count_whole(cells, bytes)
}

/// Reads cells by a call each.
fn read_apart(file: &impl FileExt, cells: &[FileCell], buf: &mut [u8]) -> usize
    requires { length buf.old ≡ width_of (map cell_state cells.now) }
{
    let mut end = 0;
    for place in 0..cells.len() {
        let cell = &cells[place];
        let from = end;
        end += cell.width() as usize;
        if file
            .read_exact_at(&mut buf[from..end], cell.offset())
            .is_err()
        {
            return place;
        }
    }
    cells.len()
}

/// Puts the bytes of a file from this place on into `buf`, until it is full or no more come, and answers how many.
fn read_from(file: &impl FileExt, offset: u64, buf: &mut [u8]) -> usize {
    let mut count = 0;
    for _ in 0..u64::MAX {
        if count >= buf.len() {
            return count;
        }
        match file.read_at(&mut buf[count..], offset.saturating_add(count as u64)) {
            Ok(0) => return count,
            Ok(more) => count += more,
            Err(error) if error.kind() == ErrorKind::Interrupted => {}
            Err(_) => return count,
        }
    }
    count
}

/// How many of these cells lie whole in so many bytes.
fn count_whole(cells: &[FileCell], bytes: usize) -> usize {
    let mut left = bytes;
    for (place, cell) in cells.iter().enumerate() {
        let width = cell.width() as usize;
        if left < width {
            return place;
        }
        left -= width;
    }
    cells.len()
}
