// How the command ends at a fault of one of its parts.
ghost use Rattle.std.specs.Prelude.{◌≡◌};
ghost use Rattle.run_command.specs.Faults.{status_of_print, status_of_script};

use answer_text::PrintFault;
use rock_status::Status;
use script_text::ScriptFault;

pub(crate) fn of_script(fault: ScriptFault) -> Status
    ensures { result ≡ status_of_script fault }
{
    match fault {
        ScriptFault::BadLine { line, cause } => Status::BadScript { line, cause },
        ScriptFault::Failed => Status::SourceFault,
        ScriptFault::Memory => Status::Memory,
    }
}

pub(crate) fn of_print(fault: PrintFault) -> Status
    ensures { result ≡ status_of_print fault }
{
    match fault {
        PrintFault::Failed => Status::SinkFault,
        PrintFault::Memory => Status::Memory,
    }
}
