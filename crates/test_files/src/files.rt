// Files of the system: what is written is found again, and what is refused and counted.
use rock_disk::{Cell, CreateFault, OpenFault, Opened, Station, Volume};
use rock_file::{Access, FaultCause, FileCell, FileStation, FileVolume, SaysWhy};
use std::alloc::{AllocError, Global};
use std::fs::{File, OpenOptions};
use std::test::Fail;
use std::{fs, io};
use test_rows::{fields, three_fields};

const SLOT: u32 = 512;

fn needs_send<T: Send>(_value: &T) {}

/// Fills the cell with this byte, and brings it to the disk. None if that fails.
fn fill_cell(
    alloc: Global,
    station: &mut FileStation<File>,
    cell: &mut FileCell,
    byte: u8,
) -> Option<()> {
    let mut bytes = Vec::new(alloc);
    bytes.resize(cell.width() as usize, byte).ok()?;
    station.write(cell, &bytes).ok()?;
    station.sync(cell).ok()
}

/// Fills the header area and the last slot, each with its byte. None if that fails.
fn fill(
    alloc: Global,
    station: &mut FileStation<File>,
    header: &mut FileCell,
    cells: &mut [FileCell],
) -> Option<()> {
    fill_cell(alloc, station, header, 7)?;
    fill_cell(alloc, station, cells.last_mut()?, 9)
}

/// The byte that all of these are. None if they are not alike.
fn alike(bytes: &[u8]) -> Option<u8> {
    let first = *bytes.first()?;
    for byte in bytes {
        if *byte != first {
            return None;
        }
    }
    Some(first)
}

/// The byte that the cell is filled with, as a station reads it. None if the read fails, or not all of the bytes are alike.
fn filled_with(alloc: Global, station: &mut FileStation<File>, cell: &mut FileCell) -> Option<u8> {
    let mut bytes = Vec::new(alloc);
    bytes.resize(cell.width() as usize, 0).ok()?;
    station.read(cell, &mut bytes).ok()?;
    alike(&bytes)
}

/// The bytes that the header area and the slots are filled with.
fn all_filled_with(
    alloc: Global,
    station: &mut FileStation<File>,
    header: &mut FileCell,
    cells: &mut [FileCell],
) -> Option<Vec<u8>> {
    let mut filled = Vec::new(alloc);
    filled.push(filled_with(alloc, station, header)?).ok()?;
    for cell in cells {
        filled.push(filled_with(alloc, station, cell)?).ok()?;
    }
    Some(filled)
}

/// Fills cells where that is asked for, and reads all. None if either fails.
fn act(
    alloc: Global,
    station: &mut FileStation<File>,
    header: &mut FileCell,
    cells: &mut [FileCell],
    action: &str,
) -> Option<Vec<u8>> {
    if action == "fill" {
        fill(alloc, station, header, cells)?;
    }
    all_filled_with(alloc, station, header, cells)
}

/// Takes the last byte of the file "made" away.
fn cut(rt: &HostRuntime) -> io::Result<()> {
    let file = OpenOptions::new().write(true).open(rt, "made")?;
    file.set_len(17_407)
}

// What is done to the file "made" of two slots while it is open, and what comes of it: its length, the number of its header
// area, and what its header area and its slots are filled with then. The last slot cannot be read behind the end.
const VISITS: &str = "\
look;17408 4294967295 Some([0, 0, 0])
fill;17408 4294967295 Some([7, 0, 9])
look;17408 4294967295 Some([7, 0, 9])
cut;17408 4294967295 None";

/// Opens the file "made", does this to it, reads it, and closes it.
fn visit(
    rt: &HostRuntime,
    volume: &mut FileVolume<&HostRuntime>,
    action: &str,
) -> Result<String, Fail> {
    let alloc = rt.alloc();
    let Opened {
        mut header,
        mut cells,
        bytes,
    } = volume.open_file(alloc, "made", SLOT)?;
    if action == "cut" {
        cut(rt)?;
    }
    let mut station = volume.station("made")?;
    needs_send(&station);
    let filled = act(alloc, &mut station, &mut header, &mut cells, action);
    volume.end_station(station);
    let number = header.number();
    volume.give_back("made", header, cells);
    Ok(format!(in alloc; "{bytes} {number} {filled:?}")?)
}

#[test]
fn makes_a_file_and_finds_what_it_wrote(rt: HostRuntime) -> Result<(), Fail> {
    let mut volume = FileVolume::new(&rt, rt.alloc(), Access::Writing);
    volume.create("made", 2, SLOT)?;
    assert_eq!(rt; VISITS.lines().count(), 4);
    for row in VISITS.lines() {
        let (action, wanted) = fields(row).ok_or("two fields")?;
        let told = visit(&rt, &mut volume, action)?;
        assert!(rt; told.as_str() == wanted, "{row}");
        assert!(rt; volume.create("made", 4, SLOT) == Err(CreateFault::Exists));
    }
    assert!(rt; peeked(rt.alloc(), &mut volume, "made")?.as_str() == "17407 Some(7)");
    fs::remove_file(&rt, "made")?;
    assert!(rt; volume.ended() == [0, 0, 0, 1].as_slice());
    assert!(rt; volume.faults() == 0);
    Ok(())
}

/// The length of a file, and the byte that its header area is filled with, or why that is not read.
fn peeked(
    alloc: Global,
    volume: &mut FileVolume<&HostRuntime>,
    name: &str,
) -> Result<String, AllocError> {
    let mut header = [0xaa; 16_384];
    match volume.peek(name, &mut header) {
        Ok(bytes) => {
            let filled = alike(&header);
            format!(in alloc; "{bytes} {filled:?}")
        }
        Err(fault) => format!(in alloc; "{fault:?}"),
    }
}

// What is opened, made or looked at where there is a file "short" of five bytes and no "none", what comes of it, and how many
// calls have failed by then.
const REFUSED: &str = "\
open;short;Small { bytes: 5 } 0
open;none;Missing 0
create;.;Exists 0
open;.;Failed 1
create;none/made;Failed 2
peek;short;Small { bytes: 5 } 2
peek;none;Missing 2
peek;.;Failed 3";

/// Why the volume does not open this file, does not make it, or does not read its header area.
fn refusal(
    volume: &mut FileVolume<&HostRuntime>,
    alloc: Global,
    call: &str,
    name: &str,
) -> Result<String, Fail> {
    if call == "create" {
        return match volume.create(name, 1, SLOT) {
            Ok(()) => Err(Fail::from("a file that is made")),
            Err(fault) => Ok(format!(in alloc; "{fault:?}")?),
        };
    }
    if call == "peek" {
        return Ok(peeked(alloc, volume, name)?);
    }
    match volume.open_file(alloc, name, SLOT) {
        Ok(
            Opened {
                header: _,
                cells: _,
                bytes: _,
            },
        ) => Err(Fail::from("a file that is opened")),
        Err(fault) => Ok(format!(in alloc; "{fault:?}")?),
    }
}

#[test]
fn refuses_what_is_no_file_of_slots(rt: HostRuntime) -> Result<(), Fail> {
    let alloc = rt.alloc();
    let mut volume = FileVolume::new(&rt, alloc, Access::Writing);
    fs::write(&rt, "short", b"short")?;
    assert_eq!(rt; REFUSED.lines().count(), 8);
    for row in REFUSED.lines() {
        let (call, name, wanted) = three_fields(row).ok_or("three fields")?;
        let refusal = refusal(&mut volume, alloc, call, name)?;
        let faults = volume.faults();
        let told = format!(in alloc; "{refusal} {faults}")?;
        assert!(rt; told.as_str() == wanted, "{row}");
    }
    fs::remove_file(&rt, "short")?;
    Ok(())
}

/// The header area and the slots of the file "kept", which a volume opens.
fn kept_open(
    volume: &mut FileVolume<&HostRuntime>,
    alloc: Global,
) -> Result<(FileCell, Vec<FileCell>), OpenFault> {
    let Opened {
        header,
        cells,
        bytes: _,
    } = volume.open_file(alloc, "kept", SLOT)?;
    Ok((header, cells))
}

/// Whether a volume does not open the file "kept" since another one has it, and this is the fault of this number.
fn is_kept_away(volume: &mut FileVolume<&HostRuntime>, alloc: Global, number: u64) -> bool {
    let is_refused = matches!(kept_open(volume, alloc), Err(OpenFault::Failed));
    is_refused && volume.faults() == number && volume.why() == FaultCause::InUse
}

#[test]
fn an_open_file_is_kept_from_others(rt: HostRuntime) -> Result<(), Fail> {
    let alloc = rt.alloc();
    let mut reader = FileVolume::new(&rt, alloc, Access::Reading);
    let mut other = FileVolume::new(&rt, alloc, Access::Reading);
    let mut writer = FileVolume::new(&rt, alloc, Access::Writing);
    writer.create("kept", 1, SLOT)?;
    let (header, cells) = kept_open(&mut reader, alloc)?;
    let (others_header, others_cells) = kept_open(&mut other, alloc)?;
    assert!(rt; is_kept_away(&mut writer, alloc, 1));
    reader.give_back("kept", header, cells);
    assert!(rt; is_kept_away(&mut writer, alloc, 2));
    other.give_back("kept", others_header, others_cells);
    let (header, cells) = kept_open(&mut writer, alloc)?;
    assert!(rt; is_kept_away(&mut reader, alloc, 1) && is_kept_away(&mut writer, alloc, 3));
    assert!(rt; peeked(alloc, &mut reader, "kept")?.as_str() == "16896 Some(0)");
    writer.give_back("kept", header, cells);
    let (header, cells) = kept_open(&mut reader, alloc)?;
    reader.give_back("kept", header, cells);
    fs::remove_file(&rt, "kept")?;
    Ok(())
}
