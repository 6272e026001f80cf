// Cells in memory: what a read gives, and what a crash may leave.
ghost use Rattle.std.specs.Prelude.{◌≡◌, ◌<◌, ◌≤◌, length, IfOk, OnOk};
ghost use Rattle.rock_disk.specs.File.{NoneAway};
ghost use Rattle.rock_disk.specs.Memory.{cell_state, volume_ended, volume_files, volume_made};

use crate::rows::calls;
use rock_disk::{
    MemCell, MemStation, MemVolume, Opened, Station, Volume, opened_cells_are_the_files,
    write_keeps_the_old, write_then_read, write_then_sync,
};
use std::alloc::{AllocError, Global};
use std::test::Fail;
use test_rows::fields;

/// A volume whose first station fails at the listed calls.
fn volume_of(alloc: Global, fail: Vec<u64>) -> Result<MemVolume, AllocError>
    ensures home { IfOk result (λ volume. NoneAway (volume_files volume)) }
    ensures ended { IfOk result (λ volume. length (volume_ended volume) ≤ volume_made volume) }
{
    let mut lists = Vec::new(alloc);
    lists.push(fail)?;
    Ok(MemVolume::new(alloc, Vec::new(alloc), lists))
}

/// The slot of a new file, which holds "old", with a station.
fn open_old(alloc: Global, volume: &mut MemVolume) -> Result<(MemStation, MemCell), Fail>
    requires home { NoneAway (volume_files volume.old) }
    requires ended { length (volume_ended volume.old) ≤ volume_made volume.old }
    ensures width { IfOk result (λ o. (cell_state o.1).width ≡ 3) }
    ensures ended { OnOk result (length (volume_ended volume.new) < volume_made volume.new) }
{
    opened_cells_are_the_files();
    let mut file = Vec::new(alloc);
    file.resize(16_384, 0)?;
    file.extend_from_slice(b"old")?;
    volume.put_file("a", &file)?;
    let Opened {
        header: _,
        mut cells,
        bytes: _,
    } = volume.open_file(alloc, "a", 3)?;
    match cells.pop() {
        Some(cell) if cell.now().len() == 3 => Ok((volume.station("a")?, cell)),
        _ => Err(Fail::from("a slot of three bytes")),
    }
}

/// All that a crash may leave of the cell, one content after the other.
fn possible_bytes(alloc: Global, cell: &MemCell) -> Result<Vec<u8>, AllocError> {
    let mut bytes = Vec::new(alloc);
    for content in cell.possible() {
        bytes.extend_from_slice(content.as_slice())?;
    }
    Ok(bytes)
}

// The calls of a station that fail: the writes of "one" and "two" over "old" are calls 0 and 1, the sync is call 2, and the
// read call 3. Then all that a crash may leave before the sync, and behind it, what is read, and how many calls failed.
const WRITTEN: &str = "\
;oldonetwo;two;two;[0]
0;oldonetwo;two;two;[1]
1;oldonetwo;one;one;[1]
0,1;oldonetwo;old;old;[2]
2;oldonetwo;oldonetwo;two;[1]
3;oldonetwo;two;...;[1]
4;oldonetwo;two;two;[0]";

/// Writes the cell twice, syncs it and reads it. What a crash may leave before the sync, and behind it, and what is read.
fn written(alloc: Global, station: &mut MemStation, cell: &mut MemCell) -> Result<String, Fail>
    requires { (cell_state cell.old).width ≡ 3 }
{
    let _ = station.write(cell, b"one");
    let _ = station.write(cell, b"two");
    let unsynced = possible_bytes(alloc, cell)?;
    let _ = station.sync(cell);
    let synced = possible_bytes(alloc, cell)?;
    let mut read = *b"...";
    let _ = station.read(cell, &mut read);
    let (unsynced, synced) = (str::from_utf8(&unsynced)?, str::from_utf8(&synced)?);
    let read = str::from_utf8(&read)?;
    Ok(format!(in alloc; "{unsynced};{synced};{read}")?)
}

#[test]
fn keeps_what_a_crash_may_leave(rt: HostRuntime) -> Result<(), Fail> {
    let alloc = rt.alloc();
    assert_eq!(rt; WRITTEN.lines().count(), 7);
    for row in WRITTEN.lines() {
        let (fail, wanted) = fields(row).ok_or("two fields")?;
        let mut volume = volume_of(alloc, calls(alloc, fail)?)?;
        let (mut station, mut cell) = open_old(alloc, &mut volume)?;
        let written = written(alloc, &mut station, &mut cell);
        volume.end_station(station);
        let (written, faults) = (written?, volume.ended());
        let told = format!(in alloc; "{written};{faults:?}")?;
        assert!(rt; told.as_str() == wanted, "{row}");
    }
    Ok(())
}

#[test]
fn writes_as_the_laws_say(rt: HostRuntime) -> Result<(), Fail> {
    let alloc = rt.alloc();
    let mut volume = volume_of(alloc, Vec::new(alloc))?;
    let (mut station, mut cell) = open_old(alloc, &mut volume)?;
    let mut read = *b"...";
    let is_read = write_then_read(&mut station, &mut cell, b"one", &mut read).is_ok();
    let is_synced = write_then_sync(&mut station, &mut cell, b"two").is_ok();
    let is_written = write_keeps_the_old(&mut station, &mut cell, b"six").is_ok();
    volume.end_station(station);

    assert!(rt; is_read && is_synced && is_written);
    assert!(rt; volume.ended() == [0].as_slice());
    assert!(rt; read == *b"one");
    assert!(rt; possible_bytes(alloc, &cell)?.as_slice() == b"twosix".as_slice());
    Ok(())
}
