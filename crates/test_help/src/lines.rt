// The line that is said of each status on standard error.
use rock_help::{Asked, DiskCause, line_of};
use rock_status::Status;
use std::alloc::Global;
use std::test::Fail;

/// Each status, with all its fields and causes: its name and its numbers, the words that were asked, and the whole line. That
/// of `Done` is made too, and never printed.
const LINES: &str = "\
Done; command; rock: Done: all was printed
Usage; nothing; rock: Usage: this is no command line; rock --help prints the lines that are
Memory; command; rock: Memory: memory ran out; free some and try again
SourceFault; command; rock: SourceFault: standard input could not be read; see whether it is open, and no folder
SinkFault; command; rock: SinkFault: standard output did not take all of the answer; do not use what was printed
DeviceFault; command; rock: DeviceFault: db could not be read, written or made; look at its disk and its permissions
DeviceFault; in use; rock: DeviceFault: db is in use by another program; try again when that has ended
DeviceFault; too many; rock: DeviceFault: db could not be opened, since too many files are open; raise the limit by ulimit -n, or take fewer workers
BadScript 4097 1; command; rock: BadScript line=4097 cause=1: line 4097 of the script is wrong: it has more than 8192 bytes, or 4096 lines are before it; mend this line, or take it out
BadScript 12 2; command; rock: BadScript line=12 cause=2: line 12 of the script is wrong: it has a byte outside 0x20 to 0x7e; mend this line, or take it out
BadScript 12 3; command; rock: BadScript line=12 cause=3: line 12 of the script is wrong: its first word is no worker from 1 to the number of workers; mend this line, or take it out
BadScript 12 4; command; rock: BadScript line=12 cause=4: line 12 of the script is wrong: its second word is no name of a request; mend this line, or take it out
BadScript 12 5; command; rock: BadScript line=12 cause=5: line 12 of the script is wrong: its request has another number of words; mend this line, or take it out
BadScript 12 6; command; rock: BadScript line=12 cause=6: line 12 of the script is wrong: its tab is no number from 0 to 6; mend this line, or take it out
BadScript 12 7; command; rock: BadScript line=12 cause=7: line 12 of the script is wrong: its URL is not of 1 to 2048 bytes from 0x21 to 0x7e; mend this line, or take it out
BadScript 12 8; command; rock: BadScript line=12 cause=8: line 12 of the script is wrong: its body is none, or makes all bodies more than 67108864 bytes; mend this line, or take it out
BadScript 12 9; command; rock: BadScript line=12 cause=9: line 12 of the script is wrong: its number of bytes or its mark is none, or an earlier line sets the mark; mend this line, or take it out
Missing; command; rock: Missing: there is no file db; look at the name, or make the file with rock create
Small 16895; command; rock: Small bytes=16895: db is shorter than the header area and one slot; name a whole file, or make one with rock create
BadGeometry 1; command; rock: BadGeometry field=1: the slot size 500 is no multiple of 512 from 512 to 32768; give one that is, for a file that is there the one that it was made with
BadGeometry 2; command; rock: BadGeometry field=2: the number of anchors 7 is not from 1 to the number of slots of db; rock check db 500 1 prints how many slots there are
BadGeometry 2; recorded; rock: BadGeometry field=2: the number of anchors 7 is not from 1 to the number of slots of db; rock check db - 1 prints how many slots there are
BadGeometry 3; bench; rock: BadGeometry field=3: the number of workers 33 is not from 1 to 32; give one that is, for a script as many as it names
BadGeometry 4; command; rock: BadGeometry field=4: the number of slots 7 is not from 1 to 1048576; give one that is, for a larger store with larger slots
BadGeometry 4; bench; rock: BadGeometry field=4: the number of rounds 10001 is above 10000; take fewer rounds
BadGeometry 5; command; rock: BadGeometry field=5: the header area of db records its slots already, of another size than 500; rock list db - takes the size that is recorded, and so do check and run
BadGeometry 6; recorded; rock: BadGeometry field=6: the header area of db records other slots than it has: it was cut or grew, or its header area is damaged; give a file that was cut its length again, as docs/OPERATING.md says
BadGeometry 7; recorded; rock: BadGeometry field=7: the header area of db does not record its slots; give the slot size that it was made with in place of -, or record it by rock migrate
Exists; command; rock: Exists: there is a file db already; choose another name, Rock writes over no file";

/// The statuses that have no numbers.
const PLAIN: [Status; 8] = [
    Status::Done,
    Status::Usage,
    Status::Memory,
    Status::SourceFault,
    Status::SinkFault,
    Status::DeviceFault,
    Status::Missing,
    Status::Exists,
];

/// A status by its name and its numbers.
fn status_of(alloc: Global, text: &str) -> Result<Status, Fail> {
    for status in PLAIN {
        if format!(in alloc; "{status}")?.as_str() == text {
            return Ok(status);
        }
    }
    status_with_numbers(text)
}

fn status_with_numbers(text: &str) -> Result<Status, Fail> {
    let (name, numbers) = text.split_once(' ').ok_or("a name and numbers")?;
    match name {
        "BadScript" => {
            let (line, cause) = numbers.split_once(' ').ok_or("a line and a cause")?;
            Ok(Status::BadScript {
                line: line.parse()?,
                cause: cause.parse()?,
            })
        }
        "Small" => Ok(Status::Small {
            bytes: numbers.parse()?,
        }),
        "BadGeometry" => Ok(Status::BadGeometry {
            field: numbers.parse()?,
        }),
        _ => Err(Fail::from("no such status")),
    }
}

/// The words of `create`, `list`, `check`, `run` and `migrate`, also with what is known of the disk, of `check` where no slot size is
/// given, or of `bench`, or none.
fn asked_of(text: &str) -> Result<Asked<'static>, Fail> {
    match text {
        "command" => Ok(Asked {
            name: "db",
            slot: "500",
            count: "7",
            workers: "33",
            ..Asked::NOTHING
        }),
        "in use" => Ok(Asked {
            name: "db",
            disk: DiskCause::InUse,
            ..Asked::NOTHING
        }),
        "too many" => Ok(Asked {
            name: "db",
            disk: DiskCause::TooManyOpen,
            ..Asked::NOTHING
        }),
        "recorded" => Ok(Asked {
            name: "db",
            slot: "-",
            count: "7",
            ..Asked::NOTHING
        }),
        "bench" => Ok(Asked {
            name: "db",
            workers: "33",
            rounds: Some("10001"),
            ..Asked::NOTHING
        }),
        "nothing" => Ok(Asked::NOTHING),
        _ => Err(Fail::from("no such words")),
    }
}

#[test]
fn each_status_is_told_in_one_line(rt: HostRuntime) -> Result<(), Fail> {
    let alloc = rt.alloc();
    assert_eq!(rt; LINES.lines().count(), 29);
    for row in LINES.lines() {
        let (status, rest) = row.split_once("; ").ok_or("a row has words")?;
        let (asked, line) = rest.split_once("; ").ok_or("a row has a line")?;
        let told = line_of(alloc, &status_of(alloc, status)?, &asked_of(asked)?)?;
        assert!(rt; told.as_str() == line, "{row}");
    }
    Ok(())
}
