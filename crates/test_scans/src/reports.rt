// A report of a file whose slot size is given, or left to its header area.
ghost use Rattle.std.specs.Prelude.{IfOk};
ghost use Rattle.rock_disk.specs.File.{NoneAway};
ghost use Rattle.rock_disk.specs.Memory.{volume_files};

use crate::finding::volume_of;
use crate::rows::fields;
use db_layout::HEADER_BYTES;
use file_commands::{Report, print_report};
use rock_disk::{MemVolume, Opened, PeekFault, Volume, kept_files_have_their_bytes};
use rock_io::MemSink;
use std::alloc::Global;
use std::test::Fail;

// How many bytes a file has, its first ones, and the byte that all others are; the number of the call of its volume that fails;
// the slot size that is given; the anchors of a summary, or `-` for a listing; and the status, with what is printed. The calls
// are the look at the header area, the opening and the making of a station, and 9 is the number of no call. No slot of these
// files is sane, so a listing has no line.
const REPORTS: &str = "\
none;;0;9;-;-;Missing;
none;;0;0;-;-;Missing;
none;;0;9;500;-;BadGeometry field=1;
16383;;0;9;-;-;Small bytes=16383;
16383;;0;9;512;-;Small bytes=16383;
16383;;0;0;-;-;Small bytes=16383;
16383;;0;0;512;5;Small bytes=16383;
16384;;0;9;-;-;BadGeometry field=7;
16384;;0;1;-;-;BadGeometry field=7;
16384;;0;0;-;-;DeviceFault;
16384;;0;9;512;-;Small bytes=16384;
18432;526f636b534d50320002000004000000;0;9;-;-;Done;
18432;526f636b534d50320002000004000000;0;9;512;-;Done;
18432;526f636b534d50320002000004000000;0;9;1024;-;BadGeometry field=5;
18432;526f636b534d50320002000004000000;0;9;513;-;BadGeometry field=1;
18432;526f636b534d50320002000004000000;0;0;-;-;DeviceFault;
18432;526f636b534d50320002000004000000;0;1;-;-;DeviceFault;
18432;526f636b534d50320002000004000000;0;2;-;-;DeviceFault;
18432;526f636b534d50320002000004000000;238;9;-;-;Done;
18943;526f636b534d50320002000004000000;0;9;-;-;Done;
18431;526f636b534d50320002000004000000;0;9;-;-;BadGeometry field=6;
18431;526f636b534d50320002000004000000;0;9;512;-;BadGeometry field=6;
18431;526f636b534d50320002000004000000;0;9;1024;-;BadGeometry field=6;
18944;526f636b534d50320002000004000000;0;9;-;-;BadGeometry field=6;
18944;526f636b534d50320002000004000000;0;9;512;-;BadGeometry field=6;
18944;526f636b534d50320002000004000000;0;9;1024;5;BadGeometry field=6;
18432;526f636b534d50320002000000000000;0;9;-;-;BadGeometry field=6;
18432;526f636b534d50320002000000000000;0;9;512;-;BadGeometry field=6;
18432;526f636b534d50320102000004000000;0;9;-;-;BadGeometry field=6;
18432;526f636b534d50320102000004000000;0;9;512;-;BadGeometry field=6;
18432;526f636b534d50320000000004000000;0;9;-;-;BadGeometry field=6;
18432;526f636b534d50320000000004000000;0;9;512;-;BadGeometry field=6;
18432;526f636b534d50320082000004000000;0;9;-;-;BadGeometry field=6;
18432;526f636b534d50320082000004000000;0;9;512;-;BadGeometry field=6;
18432;526f636b534d50310002000004000000;0;9;-;-;BadGeometry field=7;
18432;526f636b534d50310002000004000000;0;9;1024;2;Done;slots=2 kept=0 used=0 free=2 version=0
18432;526f636b534d50320002000004000000;0;9;-;4;Done;slots=4 kept=0 used=0 free=4 version=0
18432;526f636b534d50320002000004000000;0;9;-;5;BadGeometry field=2;
18432;526f636b534d50320002000004000000;0;9;512;0;BadGeometry field=2;
18432;526f636b534d50320004000002000000;0;9;-;2;Done;slots=2 kept=0 used=0 free=2 version=0
18432;526f636b534d50320004000002000000;0;9;-;3;BadGeometry field=2;
18432;526f636b534d50320004000002000000;0;9;512;3;BadGeometry field=5;";

/// The slot size that is given, or that none is. Slots may not have each.
fn given_of(word: &str) -> Result<Option<u32>, Fail> {
    if word == "-" {
        return Ok(None);
    }
    Ok(Some(word.parse()?))
}

/// The report of so many anchors, or a listing.
fn report_of(word: &str) -> Result<Report, Fail> {
    if word == "-" {
        return Ok(Report::Listing);
    }
    let anchors = word.parse()?;
    Ok(Report::Summary { anchors })
}

/// How a report ends, and what it prints, without the last line feed.
fn reported(
    alloc: Global,
    volume: &mut MemVolume,
    given: Option<u32>,
    report: Report,
) -> Result<String, Fail>
    requires { NoneAway (volume_files volume.old) }
    ensures { IfOk result (λ _. NoneAway (volume_files volume.new)) }
{
    kept_files_have_their_bytes();
    let mut out = MemSink::new(alloc, 512, 512, Vec::new(alloc))?;
    let status = print_report(alloc, volume, &mut out, "db", given, report);
    let text = str::from_utf8(out.taken())?;
    let text = text.strip_suffix("\n").unwrap_or(text);
    Ok(format!(in alloc; "{status};{text}")?)
}

/// The length of the file, its header area where it has one, and its whole slots of 512 bytes. None where there is no file.
pub(crate) fn left(alloc: Global, volume: &mut MemVolume) -> Result<Option<(u64, Vec<u8>)>, Fail>
    requires { NoneAway (volume_files volume.old) }
{
    let mut header = [0u8; HEADER_BYTES as usize];
    // A call that is listed to fail, and that the report did without, fails here.
    let _listed = volume.peek("db", &mut header);
    let bytes = match volume.peek("db", &mut header) {
        Ok(bytes) => bytes,
        Err(PeekFault::Missing) => return Ok(None),
        Err(PeekFault::Small { bytes }) => return Ok(Some((bytes, Vec::new(alloc)))),
        Err(fault) => return Err(Fail::from(fault)),
    };
    let mut content = header.to_vec(alloc)?;
    if bytes >= 16_896 {
        let Opened {
            header: _,
            cells,
            bytes: _,
        } = volume.open_file(alloc, "db", 512)?;
        for cell in &cells {
            content.extend_from_slice(cell.now())?;
        }
    }
    Ok(Some((bytes, content)))
}

#[test]
fn reports_end_as_tabled(rt: HostRuntime) -> Result<(), Fail> {
    let alloc = rt.alloc();
    assert_eq!(rt; REPORTS.lines().count(), 42);
    for row in REPORTS.lines() {
        let (size, rest) = fields(row)?;
        let (front, rest) = fields(rest)?;
        let (other, rest) = fields(rest)?;
        let (fails, rest) = fields(rest)?;
        let (given, rest) = fields(rest)?;
        let (anchors, wanted) = fields(rest)?;
        let mut volume = volume_of(alloc, size, front, other, fails)?;
        let mut untouched = volume_of(alloc, size, front, other, "9")?;
        let told = reported(alloc, &mut volume, given_of(given)?, report_of(anchors)?)?;
        assert_eq!(rt; told.as_str(), wanted, "{row}");
        assert!(rt;
            left(alloc, &mut volume)? == left(alloc, &mut untouched)?,
            "{row}"
        );
    }
    Ok(())
}
