ghost use Rattle.std.specs.Prelude.{◌≡◌, ◌+◌, ◌<◌, ◌≤◌, ℕ, Some, None, position, length, IfOk, OnOk, OnErr, IsErrOf, is_some, ◌↔◌};
ghost use Rattle.std.specs.FinMap.{get, insert};
ghost use Rattle.std.specs.Str.{bytes_eq};
ghost use Rattle.rock_disk.specs.Opened.{IsSmall};
ghost use Rattle.rock_disk.specs.Memory.{file_of, files_of, HasRoom};

use super::file::MemFile;
use crate::{OpenFault, PeekFault};
use db_layout::HEADER_BYTES;
use rock_io::{Memory, Octets};
use std::alloc::Global;

/// A file under its name.
#[derive(Drop)]
pub(super) struct Entry {
    pub(super) name: Octets,
    pub(super) file: MemFile,
}

/// Where the file of this name stands.
pub(super) fn place_of(entries: &[Entry], name: &str) -> Option<usize>
    ensures { result ≡ position (λ e. bytes_eq name.now e.name) entries.now }
{
    entries
        .iter()
        .position(|e| name.as_bytes() == e.name.as_slice())
}

/// Whether there is a file of this name.
pub(super) fn has_file(entries: &[Entry], name: &str) -> bool
    ensures { result ≡ is_some (get (files_of entries.now) name.now) }
{
    place_of(entries, name).is_some()
}

/// Where the file of this name stands, if it can be opened with this slot size. It takes no memory.
pub(super) fn place_to_open(entries: &[Entry], name: &str, slot: u32) -> Result<usize, OpenFault>
    ensures place { IfOk result (λ i. Some i ≡ position (λ e. bytes_eq name.now e.name) entries.now) }
    ensures room { IfOk result (λ i. HasRoom (files_of entries.now) name.now slot) }
    ensures missing { IsErrOf result OpenFault.Missing ↔ (get (files_of entries.now) name.now ≡ None) }
    ensures small { (bytes : ℕ) → (IsErrOf result (OpenFault.Small bytes) ↔ IsSmall (files_of entries.now) name.now slot bytes) }
    ensures failed { IsErrOf result OpenFault.Failed → ⊥ }
    ensures memory { IsErrOf result OpenFault.Memory → ⊥ }
{
    let Some(place) = place_of(entries, name) else {
        return Err(OpenFault::Missing);
    };
    let bytes = entries[place].file.size();
    if bytes < HEADER_BYTES as u64 + slot as u64 {
        return Err(OpenFault::Small { bytes });
    }
    Ok(place)
}

/// Where the file of this name stands, if it has a header area. It takes no memory.
pub(super) fn place_to_peek(entries: &[Entry], name: &str) -> Result<usize, PeekFault>
    ensures place { IfOk result (λ i. Some i ≡ position (λ e. bytes_eq name.now e.name) entries.now) }
    ensures room { IfOk result (λ i. HasRoom (files_of entries.now) name.now 0) }
    ensures missing { IsErrOf result PeekFault.Missing ↔ (get (files_of entries.now) name.now ≡ None) }
    ensures small { (bytes : ℕ) → (IsErrOf result (PeekFault.Small bytes) ↔ IsSmall (files_of entries.now) name.now 0 bytes) }
    ensures failed { IsErrOf result PeekFault.Failed → ⊥ }
    ensures memory { IsErrOf result PeekFault.Memory → ⊥ }
{
    match place_to_open(entries, name, 0) {
        Ok(place) => Ok(place),
        Err(OpenFault::Missing) => Err(PeekFault::Missing),
        Err(OpenFault::Small { bytes }) => Err(PeekFault::Small { bytes }),
        Err(OpenFault::Failed | OpenFault::Memory) => unreachable!(),
    }
}

/// Puts a file in, in place of one of that name.
pub(super) fn put_entry(
    alloc: Global,
    entries: &mut Vec<Entry>,
    name: &str,
    file: MemFile,
) -> Result<(), Memory>
    ensures ok { OnOk result (files_of entries.new.items ≡ insert (files_of entries.old.items) name.now (file_of file)) }
    ensures err { OnErr result (files_of entries.new.items ≡ files_of entries.old.items) }
{
    if let Some(place) = place_of(entries, name) {
        entries[place].file = file;
        return Ok(());
    }
    let name = Octets::from_vec(name.as_bytes().to_vec(alloc)?);
    entries.push(Entry { name, file })?;
    Ok(())
}
