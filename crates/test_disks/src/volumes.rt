// Files in memory: how they are made, opened and given back, and which calls fail.
ghost use Rattle.std.specs.Prelude.{◌≡◌, IfOk, map};
ghost use Rattle.rock_disk.specs.File.{IsThere, NoneAway};
ghost use Rattle.rock_disk.specs.Memory.{cell_state, volume_files};

use crate::rows::calls;
use rock_disk::{
    Cell, CreateFault, MemCell, MemStation, MemVolume, Opened, Station, StationFault, Volume,
    opened_cells_are_the_files, opened_cells_may_be_given_back,
};
use std::alloc::{AllocError, Global};
use std::test::Fail;
use test_rows::{fields, three_fields};

const SLOT: u32 = 512;

/// The length of a file with one slot and no rest.
const ONE_SLOT: usize = 16_896;

/// Bytes no two neighbours of which are alike.
fn bytes_of_length(alloc: Global, length: usize) -> Result<Vec<u8>, AllocError> {
    let mut bytes = Vec::new(alloc);
    for i in 0..length {
        bytes.push((i % 251) as u8)?;
    }
    Ok(bytes)
}

/// A volume whose listed calls fail, with a file of so many bytes.
pub(crate) fn volume_with(
    alloc: Global,
    fail: &str,
    name: &str,
    length: usize,
) -> Result<MemVolume, Fail>
    ensures { IfOk result (λ volume. NoneAway (volume_files volume)) }
{
    let mut volume = MemVolume::new(alloc, calls(alloc, fail)?, Vec::new(alloc));
    volume.put_file(name, &bytes_of_length(alloc, length)?)?;
    Ok(volume)
}

// The calls of a volume that fail, the length of its file "a", the name that is opened, and how many slots there are, or why
// none is opened.
const OPENED: &str = "\
;16896;a;1
1;16896;a;1
0;16896;a;Failed
;16895;a;Small { bytes: 16895 }
0;16895;a;Small { bytes: 16895 }
;16896;b;Missing
0;16896;b;Missing";

/// How many slots a file has, or why it is not opened.
fn opened(alloc: Global, volume: &mut MemVolume, name: &str) -> Result<String, AllocError>
    requires { NoneAway (volume_files volume.old) }
{
    match volume.open_file(alloc, name, SLOT) {
        Ok(
            Opened {
                header: _,
                cells,
                bytes: _,
            },
        ) => {
            let count = cells.len();
            format!(in alloc; "{count}")
        }
        Err(fault) => format!(in alloc; "{fault:?}"),
    }
}

#[test]
fn refuses_to_open(rt: HostRuntime) -> Result<(), Fail> {
    let alloc = rt.alloc();
    assert_eq!(rt; OPENED.lines().count(), 7);
    for row in OPENED.lines() {
        let (fail, rest) = fields(row).ok_or("two fields")?;
        let (length, name, wanted) = three_fields(rest).ok_or("three fields")?;
        let mut volume = volume_with(alloc, fail, "a", length.parse()?)?;
        let opened = opened(alloc, &mut volume, name)?;
        assert!(rt; opened.as_str() == wanted, "{row}");
    }
    Ok(())
}

// The calls of a volume with a file "b" that fail, the name of a file that is made, and what comes of it: the answer, and
// whether a file of that name is there then.
const CREATED: &str = "\
;a;Ok(()) true
1;a;Ok(()) true
0;a;Err(Failed) false
;b;Err(Exists) true
0;b;Err(Exists) true";

/// What making a file answers, and whether a file of that name is there then.
fn created(alloc: Global, volume: &mut MemVolume, name: &str) -> Result<String, AllocError> {
    let answer = volume.create(name, 1, SLOT);
    let is_there = volume.cells(name).is_some();
    format!(in alloc; "{answer:?} {is_there}")
}

#[test]
fn refuses_to_create(rt: HostRuntime) -> Result<(), Fail> {
    let alloc = rt.alloc();
    assert_eq!(rt; CREATED.lines().count(), 5);
    for row in CREATED.lines() {
        let (fail, name, wanted) = three_fields(row).ok_or("three fields")?;
        let mut volume = volume_with(alloc, fail, "b", ONE_SLOT)?;
        let created = created(alloc, &mut volume, name)?;
        assert!(rt; created.as_str() == wanted, "{row}");
    }
    Ok(())
}

/// How many bytes and slots the file "a" has, and whether all of them are zeros.
fn zeros_when_opened(alloc: Global, volume: &mut MemVolume) -> Result<(u64, usize, bool), Fail>
    requires { NoneAway (volume_files volume.old) }
{
    let Opened {
        header,
        cells,
        bytes,
    } = volume.open_file(alloc, "a", SLOT)?;
    let mut is_zero = are_zeros(header.now());
    for cell in &cells {
        is_zero = is_zero && are_zeros(cell.now());
    }
    Ok((bytes, cells.len(), is_zero))
}

fn are_zeros(bytes: &[u8]) -> bool {
    for byte in bytes {
        if *byte != 0 {
            return false;
        }
    }
    true
}

#[test]
fn creates_a_file_of_zeros(rt: HostRuntime) -> Result<(), Fail> {
    let alloc = rt.alloc();
    let mut volume = MemVolume::new(alloc, Vec::new(alloc), Vec::new(alloc));
    volume.create("a", 4, SLOT)?;
    let again = volume.create("a", 5, SLOT);
    assert!(rt; again == Err(CreateFault::Exists));
    let (bytes, slots, is_zero) = zeros_when_opened(alloc, &mut volume)?;
    assert!(rt; bytes == 18_432 && slots == 4 && is_zero);
    Ok(())
}

/// What the cells hold, as a station reads it. None if a read fails.
fn read_cells(alloc: Global, station: &mut MemStation, cells: &mut [MemCell]) -> Option<Vec<u8>>
    ensures { map cell_state cells.new ≡ map cell_state cells.old }
{
    let mut read = Vec::new(alloc);
    let mut buf = Vec::new(alloc);
    for i in 0..cells.len() {
        buf.resize(cells[i].now().len(), 0).ok()?;
        station.read(&mut cells[i], &mut buf).ok()?;
        read.extend_from_slice(&buf).ok()?;
    }
    Some(read)
}

fn needs_send<T: Send>(_value: &T) {}

#[test]
fn gives_back_what_it_opens(rt: HostRuntime) -> Result<(), Fail> {
    opened_cells_are_the_files();
    opened_cells_may_be_given_back();
    let alloc = rt.alloc();
    // two slots, and a rest of 100 bytes
    let whole = bytes_of_length(alloc, 17_508)?;
    let mut volume = MemVolume::new(alloc, Vec::new(alloc), Vec::new(alloc));
    volume.put_file("a", &whole)?;
    let Opened {
        header,
        mut cells,
        bytes,
    } = volume.open_file(alloc, "a", SLOT)?;
    let is_out = volume.cells("a").is_none();
    let mut station = volume.station("a")?;
    needs_send(&station);
    let read = read_cells(alloc, &mut station, &mut cells);
    volume.end_station(station);
    volume.give_back("a", header, cells);
    needs_send(&volume);

    assert!(rt; is_out && bytes == 17_508);
    assert!(rt; read.as_deref() == whole.get(16_384..17_408));
    let cells = volume.cells("a").ok_or("the cells are in")?;
    assert!(rt; cells.len() == 2);
    let last = cells.last().ok_or("the last of two")?;
    needs_send(last);
    assert!(rt; last.number() == 1 && last.possible().len() == 1);
    assert!(rt; whole.get(16_896..17_408) == Some(last.now()));
    assert!(rt; volume.cells("b").is_none());
    Ok(())
}

/// Why no station is made, if none is.
pub(crate) fn station_fault(volume: &mut MemVolume, name: &str) -> Option<StationFault>
    requires { IsThere (volume_files volume.old) name.now }
    ensures { volume_files volume.new ≡ volume_files volume.old }
{
    match volume.station(name) {
        Ok(station) => {
            volume.end_station(station);
            None
        }
        Err(fault) => Some(fault),
    }
}

#[test]
fn fails_at_the_listed_calls(rt: HostRuntime) -> Result<(), Fail> {
    opened_cells_are_the_files();
    let alloc = rt.alloc();
    let lists = vec![in alloc; vec![in alloc; 1]?]?;
    let mut volume = MemVolume::new(alloc, vec![in alloc; 1]?, lists);
    volume.put_file("a", &bytes_of_length(alloc, ONE_SLOT)?)?;
    let Opened {
        header: _,
        mut cells,
        bytes: _,
    } = volume.open_file(alloc, "a", SLOT)?;
    let refused = station_fault(&mut volume, "a");
    let mut station = volume.station("a")?;
    let mut is_read = [false; 3];
    for read in &mut is_read {
        *read = read_cells(alloc, &mut station, &mut cells).is_some();
    }
    volume.end_station(station);
    assert!(rt; refused == Some(StationFault::Failed));
    assert!(rt; is_read == [true, false, true]);
    Ok(())
}
