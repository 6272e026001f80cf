// Header areas that are written, or may be.
ghost use Rattle.std.specs.Prelude.{IfOk};
ghost use Rattle.rock_disk.specs.File.{NoneAway};
ghost use Rattle.rock_disk.specs.Memory.{volume_files};

use super::calls::call;
use rock_disk::MemVolume;
use rock_status::Status;
use std::alloc::Global;
use std::process::Abort;
use std::sync::Wait;
use std::test::Fail;
use std::thread::Threads;
use test_stories::{Pipes, Watched, file_of};

/// A command that writes a header area, and what comes of it.
struct Row {
    line: &'static str,
    /// The call of its station that fails, if any: its write is call 0, and its sync is call 1.
    failed: Option<u64>,
    status: &'static str,
    /// How many contents a crash could leave of the header area.
    possible: usize,
}

const ROWS: [Row; 6] = [
    Row {
        line: "create new 512 4",
        failed: None,
        status: "Done 0",
        possible: 1,
    },
    Row {
        line: "create new 512 4",
        failed: Some(0),
        status: "DeviceFault 6",
        possible: 2,
    },
    Row {
        line: "create new 512 4",
        failed: Some(1),
        status: "DeviceFault 6",
        possible: 2,
    },
    Row {
        line: "migrate db 512",
        failed: None,
        status: "Done 0",
        possible: 1,
    },
    Row {
        line: "migrate db 512",
        failed: Some(0),
        status: "DeviceFault 6",
        possible: 2,
    },
    Row {
        line: "migrate db 512",
        failed: Some(1),
        status: "DeviceFault 6",
        possible: 2,
    },
];

/// A volume with a file of one entry whose header area records nothing. This call of the first station fails.
fn volume_of(alloc: Global, failed: Option<u64>) -> Result<Watched, Fail>
    ensures { IfOk result (λ volume. NoneAway (volume_files volume.inner)) }
{
    let mut calls = Vec::new(alloc);
    if let Some(call) = failed {
        calls.push(call)?;
    }
    let mut stations = Vec::new(alloc);
    stations.push(calls)?;
    let mut inner = MemVolume::new(alloc, Vec::new(alloc), stations);
    inner.put_file("db", &file_of(alloc, "entry 7 http://a/b hello")?)?;
    Ok(Watched::new(inner))
}

fn plays_row<R: Abort + Threads + Wait + Sync>(
    rt: &R,
    alloc: Global,
    row: &Row,
) -> Result<(), Fail> {
    let pipes = Pipes::new(alloc);
    let mut volume = volume_of(alloc, row.failed)?;
    let line = row.line;
    let made = call(rt, alloc, &mut volume, &pipes, line, b"")?;
    let status = made.status_text(alloc)?;
    assert_eq!(rt; status.as_str(), row.status, "{line}");
    assert_eq!(rt; volume.possible(), row.possible, "{line}");
    // The entry is whole, whatever the header area is.
    let listed = call(rt, alloc, &mut volume, &pipes, "list db 512", b"")?;
    let is_listed = listed.printed.as_slice() == b"ENTRY 0 7 1 5 http://a/b\n".as_slice();
    assert!(rt; is_listed, "{line}");
    Ok(())
}

/// Where the write or the sync of a header area fails, a crash leaves the old one or the new one.
#[test]
fn a_header_area_is_the_old_one_or_the_new_one(rt: HostRuntime) -> Result<(), Fail> {
    for row in &ROWS {
        plays_row(&rt, rt.alloc(), row)?;
    }
    Ok(())
}

/// The file of a benchmark is listed by what its header area records as by its slot size.
#[test]
fn a_benchmark_records_its_slots(rt: HostRuntime) -> Result<(), Fail> {
    let alloc = rt.alloc();
    let pipes = Pipes::new(alloc);
    let mut volume = MemVolume::new(alloc, Vec::new(alloc), Vec::new(alloc));
    let made = call(&rt, alloc, &mut volume, &pipes, "bench db 7 1 10", b"")?;
    assert_eq!(rt; made.status, Status::Done);
    let recorded = call(&rt, alloc, &mut volume, &pipes, "list db -", b"")?;
    let given = call(&rt, alloc, &mut volume, &pipes, "list db 512", b"")?;
    assert_eq!(rt; recorded.status, Status::Done);
    assert_eq!(rt; given.status, Status::Done);
    assert!(rt; !given.printed.is_empty());
    assert_eq!(rt; recorded.printed.as_slice(), given.printed.as_slice());
    Ok(())
}
