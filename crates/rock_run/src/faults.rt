// How a command ends whose run was refused.
ghost use Rattle.std.specs.Prelude.{◌≡◌};
ghost use Rattle.rock_run.specs.Faults.{status_of_run};

use rock_open::OpenStoreFault;
use rock_status::Status;

/// The status of a command that ends with this refusal of a run.
pub fn status_of_run(fault: OpenStoreFault) -> Status
    ensures { result ≡ status_of_run fault }
{
    match fault {
        OpenStoreFault::BadGeometry { field } => Status::BadGeometry { field },
        OpenStoreFault::Missing => Status::Missing,
        OpenStoreFault::Small { bytes } => Status::Small { bytes },
        OpenStoreFault::Failed => Status::DeviceFault,
        OpenStoreFault::Memory => Status::Memory,
    }
}
