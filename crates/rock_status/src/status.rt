// How a run of the program ends.
ghost use Rattle.std.specs.Prelude.{◌≡◌};
ghost use Rattle.rock_status.specs.Status.{code_of};

use std::fmt;

/// How a run ended. Its code is the program's exit status.
#[derive(Clone, Copy, Debug, PartialEq, Eq)]
pub enum Status {
    /// All was done and printed.
    Done,
    /// The words are no command line.
    Usage,
    /// Memory ran out.
    Memory,
    /// The script could not be read.
    SourceFault,
    /// The answer could not be printed.
    SinkFault,
    /// The disk failed.
    DeviceFault,
    /// The script's first bad line, from 1, and the first thing that is wrong with it.
    BadScript { line: u32, cause: u8 },
    /// There is no file of that name.
    Missing,
    /// The file has only so many bytes, fewer than the header area, or than that and one slot.
    Small { bytes: u64 },
    /// A number is out of its range: 1 the slot size, 2 the anchors, 3 the workers, 4 the slots, or the rounds of a
    /// benchmark. Or the slot size of a file is not known: 5 its header area records another one than was given, 6 it records
    /// slots that the file has not, 7 it records none and none was given.
    BadGeometry { field: u8 },
    /// There is a file of that name already.
    Exists,
}

impl Status {
    /// The exit status that stands for it.
    pub fn code(&self) -> u8
        ensures { result ≡ code_of self.now }
    {
        match self {
            Status::Done => 0,
            Status::Usage => 2,
            Status::Memory => 3,
            Status::SourceFault => 4,
            Status::SinkFault => 5,
            Status::DeviceFault => 6,
            Status::BadScript { .. } => 7,
            Status::Missing | Status::Small { .. } | Status::BadGeometry { .. } => 8,
            Status::Exists => 9,
        }
    }
}

impl fmt::Display for Status {
    /// The status's name, and its numbers as `name=value`.
    fn fmt<W: fmt::Write>(&self, f: &mut fmt::Formatter<W>) -> fmt::Result {
        match self {
            Status::Done => f.write_str("Done"),
            Status::Usage => f.write_str("Usage"),
            Status::Memory => f.write_str("Memory"),
            Status::SourceFault => f.write_str("SourceFault"),
            Status::SinkFault => f.write_str("SinkFault"),
            Status::DeviceFault => f.write_str("DeviceFault"),
            Status::BadScript { line, cause } => write!(f, "BadScript line={line} cause={cause}"),
            Status::Missing => f.write_str("Missing"),
            Status::Small { bytes } => write!(f, "Small bytes={bytes}"),
            Status::BadGeometry { field } => write!(f, "BadGeometry field={field}"),
            Status::Exists => f.write_str("Exists"),
        }
    }
}
