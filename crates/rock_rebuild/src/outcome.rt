// What comes of a scan, and of a tally.
ghost use Rattle.std.specs.Prelude.{◌≡◌};
ghost use Rattle.rock_rebuild.specs.declared.outcome.RebuildFault.TheVariants as fault;

use crate::FoundList;
use rock_disk::FailedAfter;
use std::alloc::AllocError;

/// What a scan tells of a file.
#[derive(Debug, Drop)]
pub struct Scan {
    /// The complete entries, in order of their first slots.
    pub found: FoundList,
    /// The greatest version of a sane slot, or 0 where none is.
    pub greatest: u32,
}

/// How much a store keeps of a file.
#[derive(Clone, Copy, Debug, PartialEq, Eq)]
pub struct Tally {
    /// The slots of the file.
    pub slots: usize,
    /// The entries that are kept.
    pub kept: usize,
    /// The slots of these entries.
    pub used: usize,
    /// The greatest version of a sane slot, or 0 where none is.
    pub greatest: u32,
}

/// Why a file was not scanned.
#[derive(Clone, Copy, Debug, PartialEq, Eq)]
pub enum RebuildFault {
    /// A read failed, and the station's count of faults rose.
    Failed,
    /// Memory ran out. The station's count is as it was.
    Memory,
}

impl From<FailedAfter> for RebuildFault {
    ghost from_gives = { λ _ e. e ≡ fault.Failed };

    fn from(_failed: FailedAfter) -> Self {
        RebuildFault::Failed
    }
}

impl From<AllocError> for RebuildFault {
    ghost from_gives = { λ _ e. e ≡ fault.Memory };

    fn from(_error: AllocError) -> Self {
        RebuildFault::Memory
    }
}
