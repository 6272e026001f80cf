// What the volume of a story has.
ghost use Rattle.rock_disk.specs.File.{NoneAway};
ghost use Rattle.rock_disk.specs.Memory.{volume_files};

use crate::files::{HEADER, bytes_of};
use crate::numbers::{number, wrong};
use rock_disk::{MemCell, MemVolume, Volume};
use std::alloc::Global;
use std::test::Fail;

/// Whether a volume has what these words say: `has NAME SLOTS`, `lacks NAME`, `bytes NAME SLOT AT HEX`,
/// `bytes NAME header AT HEX` or `possible NAME SLOT COUNT`. To look at a header area is a call of the volume.
pub(crate) fn holds(alloc: Global, volume: &mut MemVolume, words: &str) -> Result<bool, Fail>
    requires { NoneAway (volume_files volume.old) }
    ensures { NoneAway (volume_files volume.new) }
{
    let (kind, rest) = words.split_once(' ').unwrap_or((words, ""));
    let (name, numbers) = rest.split_once(' ').unwrap_or((rest, ""));
    if kind == "bytes" && numbers.starts_with("header ") {
        let (_header, place) = numbers.split_once(' ').unwrap_or(("", ""));
        return header_has_bytes(alloc, volume, name, place);
    }
    match volume.cells(name) {
        None if kind == "lacks" => Ok(true),
        None => Err(wrong("the file is not in the volume")),
        Some(cells) => match kind {
            "has" => has_slots(cells, numbers),
            "bytes" => has_bytes(alloc, cells, numbers),
            "possible" => has_contents(cells, numbers),
            _ => Ok(false),
        },
    }
}

/// `SLOTS`, which may be left out.
fn has_slots(cells: &[MemCell], slots: &str) -> Result<bool, Fail> {
    if slots.is_empty() {
        return Ok(true);
    }
    Ok(cells.len() == number(slots)? as usize)
}

/// `SLOT COUNT`.
fn has_contents(cells: &[MemCell], numbers: &str) -> Result<bool, Fail> {
    let (slot, count) = numbers.split_once(' ').unwrap_or((numbers, ""));
    let slot = number(slot)? as usize;
    let count = number(count)? as usize;
    match cells.get(slot) {
        Some(cell) => Ok(cell.possible().len() == count),
        None => Ok(false),
    }
}

/// `SLOT AT HEX`.
fn has_bytes(alloc: Global, cells: &[MemCell], words: &str) -> Result<bool, Fail> {
    let (slot, place) = words.split_once(' ').unwrap_or((words, ""));
    let slot = number(slot)? as usize;
    match cells.get(slot) {
        Some(cell) => stand_at(alloc, cell.now(), place),
        None => Ok(false),
    }
}

/// `AT HEX`, of the header area of a file.
fn header_has_bytes(
    alloc: Global,
    volume: &mut MemVolume,
    name: &str,
    place: &str,
) -> Result<bool, Fail>
    requires { NoneAway (volume_files volume.old) }
    ensures { NoneAway (volume_files volume.new) }
{
    let mut header = [0u8; HEADER];
    match volume.peek(name, &mut header) {
        Ok(_bytes) => stand_at(alloc, &header, place),
        Err(_fault) => Err(wrong("the header area was not read")),
    }
}

/// Whether these bytes have others at a place: `AT HEX`.
fn stand_at(alloc: Global, bytes: &[u8], place: &str) -> Result<bool, Fail> {
    let (at, digits) = place.split_once(' ').unwrap_or((place, ""));
    let at = number(at)? as usize;
    let others = bytes_of(alloc, digits)?;
    Ok(bytes.get(at..at.saturating_add(others.len())) == Some(others.as_slice()))
}
