// How a command ends that found no slot size.
ghost use Rattle.std.specs.Prelude.{◌≡◌};
ghost use Rattle.slot_finding.specs.Faults.{status_of_find};

use crate::finding::FindFault;
use rock_status::Status;

/// The status of a command that ends because no slot size was found.
pub fn status_of_find(fault: FindFault) -> Status
    ensures { result ≡ status_of_find fault }
{
    match fault {
        FindFault::Missing => Status::Missing,
        FindFault::Small { bytes } => Status::Small { bytes },
        FindFault::BadGeometry { field } => Status::BadGeometry { field },
        FindFault::Failed => Status::DeviceFault,
        FindFault::Memory => Status::Memory,
    }
}
