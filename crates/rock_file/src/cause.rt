ghost use Rattle.std.specs.Prelude.{◌≡◌, ◌↔◌};
ghost use Rattle.std.specs.IoError.{error_kind};

use std::io;
use std::io::ErrorKind;

/// The codes of the system for too many open files: of the program, and of the whole machine.
const TOO_MANY_OPEN: [i32; 2] = [24, 23];

/// What is known of why a call of a volume failed.
#[derive(Clone, Copy, Debug, PartialEq, Eq)]
pub enum FaultCause {
    /// Another program has the lock of the file.
    InUse,
    /// The program has too many files open, or the machine has.
    TooManyOpen,
    /// Nothing that is told apart from others.
    Other,
}

impl FaultCause {
    /// Why the system refused.
    pub(crate) fn of(error: &io::Error) -> FaultCause
        ensures in_use { (result ≡ FaultCause.InUse) ↔ (error_kind error.now ≡ ErrorKind.WouldBlock) }
    {
        if error.kind() == ErrorKind::WouldBlock {
            return FaultCause::InUse;
        }
        match error.raw_os_error() {
            Some(code) if TOO_MANY_OPEN.contains(&code) => FaultCause::TooManyOpen,
            _ => FaultCause::Other,
        }
    }
}

/// A volume that says why its calls fail.
pub trait SaysWhy {
    /// Why the last one of its calls that failed did so; `Other` where none has failed yet.
    fn why(&self) -> FaultCause;
}
