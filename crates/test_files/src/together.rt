// Several slots of a file are read by one call.
ghost use Rattle.std.specs.Prelude.{◌≡◌, IfOk, length, map};
ghost use Rattle.rock_disk.specs.Reads.{width_of};
ghost use Rattle.rock_file.specs.Cell.{cell_state};

use crate::made::{Made, is_at};
use rock_disk::{Cell, Opened, Station, Volume};
use rock_file::{Access, FileCell, FileStation, FileVolume};
use std::alloc::{AllocError, Global};
use std::fs;
use std::fs::{OpenFile, OpenOptions};
use std::os::unix::fs::FileExt;
use std::test::Fail;
use test_rows::{numbers, three_fields};

const SLOT: u32 = 512;

/// A buffer as long as these slots are wide together, with none of their bytes.
fn buffer_for(alloc: Global, cells: &[FileCell]) -> Result<Vec<u8>, AllocError>
    ensures { IfOk result (λ buf. length buf.items ≡ width_of (map cell_state cells.now)) }
{
    let mut buf = Vec::new(alloc);
    for place in 0..cells.len() {
        let cell = &cells[place];
        let long = buf.len() + cell.width() as usize;
        buf.resize(long, 0xff)?;
    }
    Ok(buf)
}

/// How many of these slots, from the first on, have their bytes in the buffer, one behind the other.
fn count_right(cells: &[FileCell], buf: &[u8]) -> usize {
    let mut rest = buf;
    for (place, cell) in cells.iter().enumerate() {
        let Some((bytes, behind)) = rest.split_at_checked(512) else {
            return place;
        };
        if !is_at(bytes, 16_384 + 512 * u64::from(cell.number())) {
            return place;
        }
        rest = behind;
    }
    cells.len()
}

/// Reads these slots by one call: what it answers, and how many of them, from the first on, have their bytes in the buffer.
fn read_by_one_call<F: FileExt + OpenFile + Drop>(
    alloc: Global,
    station: &mut FileStation<F>,
    cells: &[FileCell],
) -> Result<String, AllocError> {
    let mut buf = buffer_for(alloc, cells)?;
    let answer = station.read_cells(cells, &mut buf);
    let right = count_right(cells, &buf);
    format!(in alloc; "{answer:?} {right}")
}

/// Of the slots of a file those that a row lists, in its order: the number of the first, how many, and the places of two that
/// change places.
fn listed<'a>(cells: &'a mut [FileCell], list: &str) -> Option<&'a mut [FileCell]> {
    let [first, many, one, other] = numbers::<4>("", list)?;
    let (_, from) = cells.split_at_mut_checked(first as usize)?;
    let (listed, _) = from.split_at_mut_checked(many as usize)?;
    if one != other && one < many && other < many {
        listed.swap(one as usize, other as usize);
    }
    Some(listed)
}

// The name of a file, which slots of it are read by one call, what that answers, and how many of them have their bytes in the
// buffer. The first 18,500 bytes are slots 0 to 3 and a part of slot 4. Slots that stand side by side are eight in five reads.
const TOGETHER: &str = "\
eight;0 8 0 0;Ok(()) 8
eight;3 1 0 0;Ok(()) 1
eight;5 0 0 0;Ok(()) 0
firm;1048568 8 0 0;Ok(()) 8
eight;0 8 0 7;Ok(()) 8
eight;0 8 3 4;Ok(()) 8
eight and worn;0 8 0 0;Err(FailedAfter { read: 4 }) 4
eight and worn;0 4 0 0;Ok(()) 4
eight and worn;4 4 0 0;Err(FailedAfter { read: 0 }) 0
eight and worn;0 8 0 1;Err(FailedAfter { read: 4 }) 4
eight and worn;0 8 1 5;Err(FailedAfter { read: 1 }) 1
eight and ended;0 8 0 0;Err(FailedAfter { read: 4 }) 4
eight and ended;2 4 0 0;Err(FailedAfter { read: 2 }) 2
eight and ended;0 8 1 5;Err(FailedAfter { read: 1 }) 1
eight and signalled;0 8 0 0;Ok(()) 8
eight and signalled;0 8 3 4;Ok(()) 8
eight and five;0 8 0 0;Ok(()) 8
eight and five;0 8 3 4;Err(FailedAfter { read: 5 }) 5";

/// What comes of reading slots of a file of the made system by one call.
fn tried(alloc: Global, name: &str, list: &str) -> Result<String, Fail> {
    let mut volume = FileVolume::new(Made, alloc, Access::Reading);
    let Opened {
        header: _,
        mut cells,
        bytes: _,
    } = volume.open_file(alloc, name, SLOT)?;
    let listed = listed(&mut cells, list).ok_or("slots of the file")?;
    let mut station = volume.station(name)?;
    let told = read_by_one_call(alloc, &mut station, listed);
    volume.end_station(station);
    Ok(told?)
}

#[test]
fn slots_of_the_made_system_are_read_by_one_call(rt: HostRuntime) -> Result<(), Fail> {
    let alloc = rt.alloc();
    assert_eq!(rt; TOGETHER.lines().count(), 18);
    for row in TOGETHER.lines() {
        let (name, list, wanted) = three_fields(row).ok_or("three fields")?;
        let told = tried(alloc, name, list)?;
        assert!(rt; told.as_str() == wanted, "{row}: {told}");
    }
    Ok(())
}

// How many bytes a file of the system with eight slots is cut to while it is open, which slots are read by one call, what that answers,
// and how many of them have their bytes in the buffer.
const CUT: &str = "\
20480;0 8 0 0;Ok(()) 8
20480;0 8 2 5;Ok(()) 8
20480;6 2 0 0;Ok(()) 2
19000;0 8 0 0;Err(FailedAfter { read: 5 }) 5
19000;0 5 1 3;Ok(()) 5
19000;0 8 0 7;Err(FailedAfter { read: 0 }) 0
18944;0 8 0 0;Err(FailedAfter { read: 5 }) 5
18943;0 8 0 0;Err(FailedAfter { read: 4 }) 4
16384;0 8 0 0;Err(FailedAfter { read: 0 }) 0";

/// Makes the file "slots", of eight slots, whose bytes tell their offset.
fn make_slots(rt: &HostRuntime) -> Result<(), Fail> {
    let mut bytes = Vec::new(rt.alloc());
    for at in 0..20_480u32 {
        bytes.push((at % 253) as u8)?;
    }
    Ok(fs::write(rt, "slots", &bytes)?)
}

/// What comes of reading slots of the file "slots" by one call, where it is cut to so many bytes while it is open.
fn cut_and_tried(rt: &HostRuntime, length: u64, list: &str) -> Result<String, Fail> {
    let alloc = rt.alloc();
    let mut volume = FileVolume::new(rt, alloc, Access::Reading);
    let Opened {
        header: _,
        mut cells,
        bytes: _,
    } = volume.open_file(alloc, "slots", SLOT)?;
    let listed = listed(&mut cells, list).ok_or("slots of the file")?;
    let file = OpenOptions::new().write(true).open(rt, "slots")?;
    file.set_len(length)?;
    let mut station = volume.station("slots")?;
    let told = read_by_one_call(alloc, &mut station, listed);
    volume.end_station(station);
    Ok(told?)
}

#[test]
fn slots_of_a_file_are_read_by_one_call(rt: HostRuntime) -> Result<(), Fail> {
    assert_eq!(rt; CUT.lines().count(), 9);
    for row in CUT.lines() {
        let (length, list, wanted) = three_fields(row).ok_or("three fields")?;
        make_slots(&rt)?;
        let told = cut_and_tried(&rt, length.parse()?, list)?;
        assert!(rt; told.as_str() == wanted, "{row}: {told}");
    }
    fs::remove_file(&rt, "slots")?;
    Ok(())
}
