// Files are opened as a cache, and closed again at once or refused: what is answered, and what is left of each file.
ghost use Rattle.std.specs.Prelude.{IfSome, length, string_bytes, vec_len, ◌+◌, ◌<◌, ◌≡◌, ◌≤◌};
ghost use Rattle.dir_set.specs.Files.{AreDifferent};
ghost use Rattle.rock_disk.specs.File.{NoneAway};
ghost use Rattle.rock_disk.specs.Memory.{volume_files};

use crate::urls::TwoUrls;
use dir_set::{DirFault, OpenDirs, close_dirs, new_caches_may_be_closed, open_dirs};
use rock_disk::{MemCell, MemVolume};
use rock_io::Words;
use std::alloc::Global;

/// What is opened, and what fails.
#[derive(Drop)]
pub struct Case<'a> {
    /// The length of each file. There is none where it is 0.
    pub lengths: &'a [usize],
    pub slot: u32,
    pub anchors: u32,
    pub workers: u32,
    /// The number of a call of the volume that fails.
    pub call: Option<u64>,
    /// The number of a station that fails at its first call.
    pub station: Option<usize>,
}

/// So many names, all different: of one letter, of two letters and so on.
fn names_of(alloc: Global, many: usize) -> Option<Words>
    ensures many { IfSome result (λ names. length names ≡ many) }
    ensures different { IfSome result AreDifferent }
{
    let mut names = Vec::new(alloc);
    for place in 0..many {
        let name = name_of(alloc, place)?;
        let Ok(()) = names.push(name) else {
            return None;
        };
    }
    Some(Words::from_vec(names))
}

/// A name of one letter more than this.
fn name_of(alloc: Global, letters: usize) -> Option<String>
    ensures { IfSome result (λ name. length (string_bytes name) ≡ letters + 1) }
{
    let mut name = String::new(alloc);
    name.push_str("d").ok()?;
    for _ in 0..letters {
        name.push_str("d").ok()?;
    }
    Some(name)
}

/// The byte at a place of a file. No two slots of 512 bytes have the same.
fn byte_at(place: usize) -> u8 {
    (place / 512 % 251) as u8
}

fn file_of(alloc: Global, length: usize) -> Option<Vec<u8>> {
    let mut bytes = Vec::with_capacity(alloc, length).ok()?;
    for place in 0..length {
        bytes.push(byte_at(place)).ok()?;
    }
    Some(bytes)
}

/// For each station up to this one the calls that fail: the first one of the last station.
fn failing(alloc: Global, station: Option<usize>) -> Option<Vec<Vec<u64>>> {
    let mut lists = Vec::new(alloc);
    if let Some(station) = station {
        for _ in 0..station {
            lists.push(Vec::new(alloc)).ok()?;
        }
        let mut first = Vec::new(alloc);
        first.push(0).ok()?;
        lists.push(first).ok()?;
    }
    Some(lists)
}

/// A volume with the files of a case.
fn volume_of(alloc: Global, case: &Case<'_>, names: &Words) -> Option<MemVolume>
    requires { length names.now ≡ length case.now.lengths.now }
    ensures { IfSome result (λ v. NoneAway (volume_files v)) }
{
    let mut calls = Vec::new(alloc);
    if let Some(call) = case.call {
        calls.push(call).ok()?;
    }
    let mut volume = MemVolume::new(alloc, calls, failing(alloc, case.station)?);
    for place in 0..case.lengths.len() {
        if 0 < case.lengths[place] {
            let bytes = file_of(alloc, case.lengths[place])?;
            let Ok(()) = volume.put_file(names.as_slice()[place].as_str(), &bytes) else {
                return None;
            };
        }
    }
    Some(volume)
}

/// So many origins that offer nothing of their own.
fn origins_of(alloc: Global, many: usize) -> Option<Vec<TwoUrls>>
    ensures { IfSome result (λ all. vec_len all ≡ many) }
{
    let empty = Vec::new(alloc);
    let mut origins = Vec::new(alloc);
    for _ in 0..many {
        origins.push(TwoUrls::new(&empty, &empty, &empty)).ok()?;
    }
    Some(origins)
}

/// Opens the files of a case, and closes them again: how many files and workers the cache has, or which file was refused.
fn answer_of(
    alloc: Global,
    case: &Case<'_>,
    names: &Words,
    volume: &mut MemVolume,
) -> Option<String>
    requires some { 0 < length names.now }
    requires few { length names.now ≤ 8 }
    requires different { AreDifferent names.now }
    requires home { NoneAway (volume_files volume.old) }
{
    new_caches_may_be_closed::<MemCell, TwoUrls>();
    let origins = origins_of(alloc, names.as_slice().len())?;
    let opened = open_dirs(
        alloc,
        volume,
        names,
        case.slot,
        case.anchors,
        case.workers,
        origins,
    );
    match opened {
        Ok(
            OpenDirs {
                dirs,
                passes,
                homes,
            },
        ) => {
            let (files, workers) = (dirs.count(), passes.len());
            close_dirs(dirs, passes, homes, volume, names);
            format!(in alloc; "{files} files for {workers}").ok()
        }
        Err(DirFault { dir, fault }) => format!(in alloc; "file {dir}: {fault:?}").ok(),
    }
}

/// What a volume has of a file: whether its cells are in, and whether they hold what the file had.
fn left_of(volume: &MemVolume, name: &str) -> &'static str {
    let Some(cells) = volume.cells(name) else {
        return "none";
    };
    if cells.len() == 0 {
        return "untouched";
    }
    for number in 0..cells.len() {
        let bytes = cells[number].now();
        let wanted = byte_at(number.wrapping_mul(512).wrapping_add(16384));
        for place in 0..bytes.len() {
            if bytes[place] != wanted {
                return "another";
            }
        }
    }
    "same"
}

/// What comes of opening the files of a case and closing them again, what is left of each file, and with how many faults
/// each station was ended.
pub fn told(alloc: Global, case: &Case<'_>) -> Option<String>
    requires some { 0 < length case.now.lengths.now }
    requires few { length case.now.lengths.now ≤ 8 }
{
    let names = names_of(alloc, case.lengths.len())?;
    let mut volume = volume_of(alloc, case, &names)?;
    let mut text = answer_of(alloc, case, &names, &mut volume)?;
    text.push_str(";").ok()?;
    for name in names.as_slice() {
        text.push_str(" ").ok()?;
        text.push_str(left_of(&volume, name.as_str())).ok()?;
    }
    text.push_str(";").ok()?;
    for faults in volume.ended() {
        let word = format!(in alloc; " {faults}").ok()?;
        text.push_str(word.as_str()).ok()?;
    }
    Some(text)
}
