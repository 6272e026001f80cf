// What is asked of a system, as one shows that is made for the tests.
use crate::made::{LENGTH, Made, MadeFile, is_at};
use rock_disk::{Cell, Opened, Station, Volume};
use rock_file::{Access, FileCell, FileStation, FileVolume, SaysWhy};
use std::alloc::{AllocError, Global};
use std::test::Fail;
use test_rows::{fields, three_fields};

// The name of a new file and how many slots of 1,024 bytes it is to have, what the call answers, how many calls have failed
// by then, and why the last one of these did. Cut to 32 bits the length of the fourth would be that of 3 slots.
const CREATED: &str = "\
new;3;Ok(()) 0 Other
new and loose;3;Err(Failed) 1 Other
new;4;Err(Failed) 2 Other
new;4194307;Err(Failed) 3 Other
new and held;3;Err(Failed) 4 InUse
new and shared;3;Err(Failed) 5 InUse
new and free;3;Ok(()) 5 InUse
new and many;3;Err(Failed) 6 TooManyOpen
old;3;Err(Exists) 6 TooManyOpen";

#[test]
fn a_file_is_made_once_it_is_synced(rt: HostRuntime) -> Result<(), Fail> {
    let mut volume = FileVolume::new(Made, rt.alloc(), Access::Writing);
    assert_eq!(rt; CREATED.lines().count(), 9);
    for row in CREATED.lines() {
        let (name, slots, wanted) = three_fields(row).ok_or("three fields")?;
        let answer = volume.create(name, slots.parse()?, 1024);
        let faults = volume.faults();
        let why = volume.why();
        let told = format!(in rt.alloc(); "{answer:?} {faults} {why:?}")?;
        assert!(rt; told.as_str() == wanted, "{row}");
    }
    Ok(())
}

// The name of a file, its length and whether its header area is read, from its place, or why not, and how many calls have
// failed by then.
const PEEKED: &str = "\
firm;34359754752 true 0
locked;34359754752 true 0
held;34359754752 true 0
torn;Failed 1
loose;34359754752 true 1";

/// What is read of the header area of a file.
fn peeked(alloc: Global, volume: &mut FileVolume<Made>, name: &str) -> Result<String, AllocError> {
    let mut header = [0xaa; 16_384];
    match volume.peek(name, &mut header) {
        Ok(bytes) => {
            let is_read = is_at(&header, 0);
            format!(in alloc; "{bytes} {is_read}")
        }
        Err(fault) => format!(in alloc; "{fault:?}"),
    }
}

#[test]
fn the_header_area_is_read_from_its_place(rt: HostRuntime) -> Result<(), Fail> {
    let alloc = rt.alloc();
    let mut volume = FileVolume::new(Made, alloc, Access::Writing);
    assert_eq!(rt; PEEKED.lines().count(), 5);
    for row in PEEKED.lines() {
        let (name, wanted) = fields(row).ok_or("two fields")?;
        let peeked = peeked(alloc, &mut volume, name)?;
        let faults = volume.faults();
        let told = format!(in alloc; "{peeked} {faults}")?;
        assert!(rt; told.as_str() == wanted, "{row}");
    }
    Ok(())
}

/// How many zeros the bytes begin with.
fn zeros_of(bytes: &[u8]) -> usize {
    bytes.iter().take_while(|byte| **byte == 0).count()
}

/// Reads, writes and syncs a slot, and reads it again. Whether its bytes are read, from its place, it is written and it is synced,
/// and how many zeros it begins with then.
fn tried(
    alloc: Global,
    station: &mut FileStation<MadeFile>,
    cell: &mut FileCell,
) -> Result<String, AllocError> {
    let mut buf = Vec::new(alloc);
    buf.resize(cell.width() as usize, 0)?;
    let offset = 16_384 + 32_768 * u64::from(cell.number());
    let is_read = station.read(cell, &mut buf).is_ok()
        && buf.len() == 32_768
        && is_at(&buf, offset);
    let is_written = station.write(cell, &buf).is_ok();
    let is_synced = station.sync(cell).is_ok();
    let zeros = match station.read(cell, &mut buf) {
        Ok(()) => zeros_of(&buf),
        Err(_) => 0,
    };
    format!(in alloc; "{is_read} {is_written} {is_synced} {zeros}")
}

/// Tries the slot of this number of the greatest file, by a station of its own.
fn tried_by_station(
    volume: &mut FileVolume<Made>,
    alloc: Global,
    name: &str,
    number: usize,
) -> Result<String, Fail> {
    let Opened {
        header,
        mut cells,
        bytes: _,
    } = volume.open_file(alloc, name, 32_768)?;
    let mut station = volume.station(name)?;
    let told = match cells.get_mut(number) {
        Some(cell) => tried(alloc, &mut station, cell),
        None => String::from_str(alloc, "no slot"),
    };
    volume.end_station(station);
    volume.give_back(name, header, cells);
    Ok(told?)
}

// The name of a file, the number of a slot, whether its bytes are read, from its place, it is written and it is synced, and how many
// zeros it begins with then. The header of a slot whose write failed is overwritten where that is allowed.
const TRIED: &str = "\
loose;1048575;true false false 40
loose;1048574;true true false 0
firm;0;true true true 0
locked;1048575;true false true 0";

#[test]
fn the_last_slot_of_the_greatest_file_is_reached(rt: HostRuntime) -> Result<(), Fail> {
    let alloc = rt.alloc();
    let mut volume = FileVolume::new(Made, alloc, Access::Writing);
    let Opened {
        header: _,
        cells,
        bytes,
    } = volume.open_file(alloc, "loose", 32_768)?;
    assert!(rt; bytes == LENGTH && cells.len() == 1_048_576);
    assert_eq!(rt; TRIED.lines().count(), 4);
    for row in TRIED.lines() {
        let (name, number, wanted) = three_fields(row).ok_or("three fields")?;
        let told = tried_by_station(&mut volume, alloc, name, number.parse()?)?;
        assert!(rt; told.as_str() == wanted, "{row}");
    }
    assert!(rt; volume.ended() == [2, 1, 0, 1].as_slice());
    Ok(())
}

/// What opening a file of few great slots answers.
fn opened(volume: &mut FileVolume<Made>, alloc: Global, name: &str) -> Result<String, AllocError> {
    match volume.open_file(alloc, name, 1 << 31) {
        Ok(
            Opened {
                header,
                cells,
                bytes: _,
            },
        ) => {
            volume.give_back(name, header, cells);
            String::from_str(alloc, "opened")
        }
        Err(fault) => format!(in alloc; "{fault:?}"),
    }
}

// The name of a file, and what a volume for writing and one for reading answer where they open it, each with how many calls have
// failed by then and why the last one of these did. A file that may only be read is opened as a reader does.
const OPENED: &str = "\
firm;opened 0 Other;opened 0 Other
locked;opened 0 Other;opened 0 Other
shared;Failed 1 InUse;opened 0 Other
locked and shared;opened 1 InUse;opened 0 Other
held;Failed 2 InUse;Failed 1 InUse
free and held;opened 2 InUse;opened 1 InUse
many;Failed 3 TooManyOpen;Failed 2 TooManyOpen";

/// How a volume answers an opening, its count of faults, and why its last call failed.
fn told(volume: &mut FileVolume<Made>, alloc: Global, name: &str) -> Result<String, AllocError> {
    let answer = opened(volume, alloc, name)?;
    let faults = volume.faults();
    let why = volume.why();
    format!(in alloc; "{answer} {faults} {why:?}")
}

#[test]
fn a_file_is_locked_as_it_is_opened(rt: HostRuntime) -> Result<(), Fail> {
    let alloc = rt.alloc();
    let mut writing = FileVolume::new(Made, alloc, Access::Writing);
    let mut reading = FileVolume::new(Made, alloc, Access::Reading);
    assert_eq!(rt; OPENED.lines().count(), 7);
    for row in OPENED.lines() {
        let (name, to_write, to_read) = three_fields(row).ok_or("three fields")?;
        assert!(rt;
            told(&mut writing, alloc, name)?.as_str() == to_write,
            "{row}"
        );
        assert!(rt;
            told(&mut reading, alloc, name)?.as_str() == to_read,
            "{row}"
        );
    }
    Ok(())
}

/// Whether the header area is written, and how many zeros it begins with then.
fn header_tried(alloc: Global, volume: &mut FileVolume<Made>, name: &str) -> Result<String, Fail> {
    let Opened {
        mut header,
        cells,
        bytes: _,
    } = volume.open_file(alloc, name, 32_768)?;
    let mut buf = Vec::new(alloc);
    buf.resize(header.width() as usize, 1)?;
    let mut station = volume.station(name)?;
    let is_written = station.write(&mut header, &buf).is_ok();
    let zeros = match station.read(&mut header, &mut buf) {
        Ok(()) => zeros_of(&buf),
        Err(_) => 40,
    };
    volume.end_station(station);
    volume.give_back(name, header, cells);
    Ok(format!(in alloc; "{is_written} {zeros}")?)
}

#[test]
fn a_header_area_is_never_overwritten_with_zeros(rt: HostRuntime) -> Result<(), Fail> {
    let alloc = rt.alloc();
    let mut volume = FileVolume::new(Made, alloc, Access::Writing);
    assert!(rt; header_tried(alloc, &mut volume, "firm")?.as_str() == "true 1");
    assert!(rt; header_tried(alloc, &mut volume, "full")?.as_str() == "false 1");
    Ok(())
}
