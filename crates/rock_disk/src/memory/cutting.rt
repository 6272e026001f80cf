// How a file's bytes are cut into its header area, its slots and its rest.
ghost use Rattle.std.specs.Prelude.{◌≡◌, ◌+◌, ◌*◌, ◌<◌, ◌≤◌, length, map, IfOk};
ghost use Rattle.rock_disk.specs.File.{slots_from, header_cut, slots_cut, rest_cut};
ghost use Rattle.db_layout.specs.Layout.{slots_of};
ghost use Rattle.rock_disk.specs.File.File.{Away};
ghost use Rattle.rock_disk.specs.Memory.{cell_state, file_of};

use super::file::MemFile;
use crate::{HEADER_NUMBER, MemCell, Opened};
use db_layout::{HEADER_BYTES, slots_are_whole, slots_of};
use rock_io::Memory;
use std::alloc::Global;

/// The cells of a file, and the file without them.
pub(super) struct CutFile {
    pub(super) opened: Opened<MemCell>,
    pub(super) away: MemFile,
}

/// Cuts a file of these bytes by a slot size.
pub(super) fn cut_file(alloc: Global, bytes: &[u8], slot: u32) -> Result<CutFile, Memory>
    requires slot { 0 < slot }
    requires room { HEADER_BYTES + slot ≤ length bytes.now }
    ensures bytes { IfOk result (λ c. c.opened.bytes ≡ length bytes.now) }
    ensures header { IfOk result (λ c. cell_state c.opened.header ≡ header_cut bytes.now) }
    ensures cells { IfOk result (λ c. map cell_state c.opened.cells.items ≡ slots_cut slot bytes.now) }
    ensures away { IfOk result (λ c. file_of c.away ≡ Away (slots_of (length bytes.now) slot) slot (rest_cut slot bytes.now)) }
{
    slots_are_whole();
    let slots = slots_of(bytes.len() as u64, slot);
    let (front, body) = bytes.split_at(HEADER_BYTES as usize);
    let (_, rest) = bytes.split_at(HEADER_BYTES as usize + slots as usize * slot as usize);
    let header = MemCell::new(alloc, HEADER_NUMBER, front)?;
    let cells = cut_slots(alloc, body, slots, slot)?;
    let rest = rest.to_vec(alloc)?;
    Ok(CutFile {
        opened: Opened {
            header,
            cells,
            bytes: bytes.len() as u64,
        },
        away: MemFile::Away { slots, slot, rest },
    })
}

/// The first `count` slots of these bytes.
fn cut_slots(alloc: Global, bytes: &[u8], count: u32, slot: u32) -> Result<Vec<MemCell>, Memory>
    requires { count * slot ≤ length bytes.now }
    ensures { IfOk result (λ cells. map cell_state cells.items ≡ slots_from 0 count slot bytes.now) }
{
    let mut cells = Vec::new(alloc);
    let mut rest = bytes;
    for number in 0..count {
        let (front, tail) = rest.split_at(slot as usize);
        cells.push(MemCell::new(alloc, number, front)?)?;
        rest = tail;
    }
    Ok(cells)
}
