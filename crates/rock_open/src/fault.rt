// Why a file was not opened as a store.
ghost use Rattle.std.specs.Prelude.{◌≡◌};
ghost use Rattle.rock_open.specs.Faults.{fault_of_open, fault_of_rebuild, fault_of_station};

use rock_disk::{OpenFault, StationFault};
use rock_rebuild::RebuildFault;
use thiserror::Error;

/// Why a file was not opened as a store.
#[derive(Clone, Copy, Debug, PartialEq, Eq, Error)]
pub enum OpenStoreFault {
    /// A number is outside its limits: 1 the slot size, 2 the anchors, 3 the passes.
    #[error("the number of field {field} is outside its limits")]
    BadGeometry { field: u8 },
    #[error("there is no file of that name")]
    Missing,
    /// The file is shorter than the header area and one slot. It has this many bytes.
    #[error("a file of {bytes} bytes is too short")]
    Small { bytes: u64 },
    /// The count of faults of the volume rose, or that of the station, which was ended here.
    #[error("the volume or a station failed")]
    Failed,
    #[error("out of memory")]
    Memory,
}

pub(crate) fn of_open(fault: OpenFault) -> OpenStoreFault
    ensures { result ≡ fault_of_open fault }
{
    match fault {
        OpenFault::Missing => OpenStoreFault::Missing,
        OpenFault::Small { bytes } => OpenStoreFault::Small { bytes },
        OpenFault::Failed => OpenStoreFault::Failed,
        OpenFault::Memory => OpenStoreFault::Memory,
    }
}

pub(crate) fn of_station(fault: StationFault) -> OpenStoreFault
    ensures { result ≡ fault_of_station fault }
{
    match fault {
        StationFault::Failed => OpenStoreFault::Failed,
        StationFault::Memory => OpenStoreFault::Memory,
    }
}

pub(crate) fn of_rebuild(fault: RebuildFault) -> OpenStoreFault
    ensures { result ≡ fault_of_rebuild fault }
{
    match fault {
        RebuildFault::Failed => OpenStoreFault::Failed,
        RebuildFault::Memory => OpenStoreFault::Memory,
    }
}
