// What the program says on standard error of a run that did not end well.
use rock_status::Status;
use std::alloc::{AllocError, Global};

/// The words of a command line behind the command's own, or empty ones where they are wanting.
#[derive(Clone, Copy, Debug)]
pub struct Asked<'a> {
    pub name: &'a str,
    /// The slot size, or `-`.
    pub slot: &'a str,
    /// The anchors of `check` and `run`, or the slots of `create`.
    pub count: &'a str,
    /// The workers of `run` and `bench`.
    pub workers: &'a str,
    /// The rounds of `bench`; none for other commands.
    pub rounds: Option<&'a str>,
    /// What is known of why the disk failed, where it did.
    pub disk: DiskCause,
}

/// What is known of why a disk failed.
#[derive(Clone, Copy, Debug, PartialEq, Eq)]
pub enum DiskCause {
    Unknown,
    /// Another program has the file.
    InUse,
    /// Too many files are open.
    TooManyOpen,
}

impl Asked<'static> {
    /// No words.
    pub const NOTHING: Asked<'static> = Asked {
        name: "",
        slot: "",
        count: "",
        workers: "",
        rounds: None,
        disk: DiskCause::Unknown,
    };
}

/// The line on standard error: the status with its numbers, and its sentence.
pub fn line_of(alloc: Global, status: &Status, asked: &Asked<'_>) -> Result<String, AllocError> {
    let text = explanation(alloc, status, asked)?;
    format!(in alloc; "rock: {status}: {text}")
}

/// A sentence for people on what happened to a command, and what to do.
fn explanation(alloc: Global, status: &Status, asked: &Asked<'_>) -> Result<String, AllocError> {
    let name = asked.name;
    match status {
        Status::Done => format!(in alloc; "all was printed"),
        Status::Usage => format!(in alloc;
            "this is no command line; rock --help prints the lines that are"
        ),
        Status::Memory => format!(in alloc; "memory ran out; free some and try again"),
        Status::SourceFault => format!(in alloc;
            "standard input could not be read; see whether it is open, and no folder"
        ),
        Status::SinkFault => format!(in alloc;
            "standard output did not take all of the answer; do not use what was printed"
        ),
        Status::DeviceFault => failed_disk(alloc, asked),
        Status::BadScript { line, cause } => format!(in alloc;
            "line {line} of the script is wrong: {}; mend this line, or take it out",
            wrong_with_line(*cause)
        ),
        Status::Missing => format!(in alloc;
            "there is no file {name}; look at the name, or make the file with rock create"
        ),
        Status::Small { .. } => format!(in alloc;
            "{name} is shorter than the header area and one slot; name a whole file, or make one with rock create"
        ),
        Status::BadGeometry { field } => outside_limits(alloc, *field, asked),
        Status::Exists => format!(in alloc;
            "there is a file {name} already; choose another name, Rock writes over no file"
        ),
    }
}

/// The sentence of a disk that failed.
fn failed_disk(alloc: Global, asked: &Asked<'_>) -> Result<String, AllocError> {
    let name = asked.name;
    match asked.disk {
        DiskCause::Unknown => format!(in alloc;
            "{name} could not be read, written or made; look at its disk and its permissions"
        ),
        DiskCause::InUse => format!(in alloc;
            "{name} is in use by another program; try again when that has ended"
        ),
        DiskCause::TooManyOpen => format!(in alloc;
            "{name} could not be opened, since too many files are open; raise the limit by ulimit -n, or take fewer workers"
        ),
    }
}

/// The sentence of a number that is outside its limits, or of a slot size that is not known, by the number of its field.
fn outside_limits(alloc: Global, field: u8, asked: &Asked<'_>) -> Result<String, AllocError> {
    let (name, slot, count) = (asked.name, asked.slot, asked.count);
    match field {
        2 => format!(in alloc;
            "the number of anchors {count} is not from 1 to the number of slots of {name}; rock check {name} {slot} 1 prints how many slots there are"
        ),
        3 => format!(in alloc;
            "the number of workers {} is not from 1 to 32; give one that is, for a script as many as it names",
            asked.workers
        ),
        4 => match asked.rounds {
            Some(rounds) => format!(in alloc;
                "the number of rounds {rounds} is above 10000; take fewer rounds"
            ),
            None => format!(in alloc;
                "the number of slots {count} is not from 1 to 1048576; give one that is, for a larger store with larger slots"
            ),
        },
        5 => format!(in alloc;
            "the header area of {name} records its slots already, of another size than {slot}; rock list {name} - takes the size that is recorded, and so do check and run"
        ),
        6 => format!(in alloc;
            "the header area of {name} records other slots than it has: it was cut or grew, or its header area is damaged; give a file that was cut its length again, as docs/OPERATING.md says"
        ),
        7 => format!(in alloc;
            "the header area of {name} does not record its slots; give the slot size that it was made with in place of -, or record it by rock migrate"
        ),
        _ => format!(in alloc;
            "the slot size {slot} is no multiple of 512 from 512 to 32768; give one that is, for a file that is there the one that it was made with"
        ),
    }
}

/// What is wrong with a line of a script, by the number of the cause.
fn wrong_with_line(cause: u8) -> &'static str {
    match cause {
        1 => "it has more than 8192 bytes, or 4096 lines are before it",
        2 => "it has a byte outside 0x20 to 0x7e",
        3 => "its first word is no worker from 1 to the number of workers",
        4 => "its second word is no name of a request",
        5 => "its request has another number of words",
        6 => "its tab is no number from 0 to 6",
        7 => "its URL is not of 1 to 2048 bytes from 0x21 to 0x7e",
        8 => "its body is none, or makes all bodies more than 67108864 bytes",
        _ => "its number of bytes or its mark is none, or an earlier line sets the mark",
    }
}
