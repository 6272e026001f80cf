// The header area of a file in memory is read where it lies, and which calls fail.
ghost use Rattle.std.specs.Prelude.{◌≡◌, IfOk};
ghost use Rattle.rock_disk.specs.File.{NoneAway};
ghost use Rattle.rock_disk.specs.Memory.{volume_files};

use crate::volumes::{station_fault, volume_with};
use rock_disk::{
    MemVolume, Opened, Volume, kept_files_have_their_bytes, opened_cells_are_the_files,
    opened_cells_may_be_given_back,
};
use std::alloc::{AllocError, Global};
use std::test::Fail;
use test_rows::{fields, three_fields};

/// Whether these bytes are the first ones of a file that [volume_with] made.
fn are_first(bytes: &[u8]) -> bool {
    for (i, byte) in bytes.iter().enumerate() {
        if usize::from(*byte) != i % 251 {
            return false;
        }
    }
    true
}

/// The length of a file, and whether its first 16,384 bytes are read, or why not.
fn peeked(alloc: Global, volume: &mut MemVolume, name: &str) -> Result<String, AllocError>
    requires { NoneAway (volume_files volume.old) }
    ensures { volume_files volume.new ≡ volume_files volume.old }
{
    let mut header = [0xaa; 16_384];
    match volume.peek(name, &mut header) {
        Ok(bytes) => {
            let is_read = are_first(&header);
            format!(in alloc; "{bytes} {is_read}")
        }
        Err(fault) => format!(in alloc; "{fault:?}"),
    }
}

// The calls of a volume that fail, the length of its file "a", the name of the file whose header area is read, and the length
// and whether the bytes are that file's, or why it is not read.
const PEEKED: &str = "\
;16384;a;16384 true
;18432;a;18432 true
;16383;a;Small { bytes: 16383 }
;0;a;Small { bytes: 0 }
;16384;b;Missing
0;16384;a;Failed
1;16384;a;16384 true
0;16383;a;Small { bytes: 16383 }
0;16384;b;Missing";

#[test]
fn header_areas_are_read_as_tabled(rt: HostRuntime) -> Result<(), Fail> {
    let alloc = rt.alloc();
    assert_eq!(rt; PEEKED.lines().count(), 9);
    for row in PEEKED.lines() {
        let (fail, rest) = fields(row).ok_or("two fields")?;
        let (length, name, wanted) = three_fields(rest).ok_or("three fields")?;
        let mut volume = volume_with(alloc, fail, "a", length.parse()?)?;
        let peeked = peeked(alloc, &mut volume, name)?;
        assert!(rt; peeked.as_str() == wanted, "{row}");
    }
    Ok(())
}

/// Opens the file "a", makes a station, ends it, and gives the cells back. Whether the file is opened, and the station is
/// made.
fn visit(alloc: Global, volume: &mut MemVolume) -> (bool, bool)
    requires { NoneAway (volume_files volume.old) }
    ensures { NoneAway (volume_files volume.new) }
{
    opened_cells_are_the_files();
    opened_cells_may_be_given_back();
    kept_files_have_their_bytes();
    let Ok(
        Opened {
            header,
            cells,
            bytes: _,
        },
    ) = volume.open_file(alloc, "a", 512)
    else {
        return (false, false);
    };
    let fault = station_fault(volume, "a");
    volume.give_back("a", header, cells);
    (true, fault.is_none())
}

// The calls that fail; and of a volume with a file "a": its header area, whether it is opened and a station is made, its header
// area once more, what making a file "b" answers, and the header area of that one, which is of zeros.
const CALLED: &str = "\
;17508 true, true true, 17508 true, Ok(()), 16896 false
0;Failed, true true, 17508 true, Ok(()), 16896 false
1;17508 true, false false, 17508 true, Ok(()), 16896 false
2;17508 true, true false, 17508 true, Ok(()), 16896 false
3;17508 true, true true, Failed, Ok(()), 16896 false
4;17508 true, true true, 17508 true, Err(Failed), Missing
5;17508 true, true true, 17508 true, Ok(()), Failed
6;17508 true, true true, 17508 true, Ok(()), 16896 false";

/// What these calls answer.
fn called(alloc: Global, volume: &mut MemVolume) -> Result<String, Fail>
    requires { NoneAway (volume_files volume.old) }
{
    let before = peeked(alloc, volume, "a")?;
    let (is_opened, is_made) = visit(alloc, volume);
    let after = peeked(alloc, volume, "a")?;
    let answer = volume.create("b", 1, 512);
    let new = peeked(alloc, volume, "b")?;
    let told = format!(in alloc; "{before}, {is_opened} {is_made}, {after}, {answer:?}, {new}")?;
    Ok(told)
}

#[test]
fn calls_are_numbered_together(rt: HostRuntime) -> Result<(), Fail> {
    let alloc = rt.alloc();
    assert_eq!(rt; CALLED.lines().count(), 8);
    for row in CALLED.lines() {
        let (fail, wanted) = fields(row).ok_or("two fields")?;
        let mut volume = volume_with(alloc, fail, "a", 17_508)?;
        let told = called(alloc, &mut volume)?;
        assert!(rt; told.as_str() == wanted, "{row}");
    }
    Ok(())
}
