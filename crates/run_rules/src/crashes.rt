// The law on a file that was given back, and on what a crash leaves of it.
ghost use Rattle.std.specs.Prelude.{Bool, IsTrue, List, ℕ};
ghost use Rattle.db_layout.specs.Layout.{IsSlotSize};
ghost use Rattle.rock_disk.specs.File.{Files};
ghost use Rattle.script_text.specs.declared.line.Line.{Line};
ghost use Rattle.rock_run.specs.Runs.{HasClosed};
ghost use Rattle.run_rules.specs.Left.{IsGivenBack};

use crashed_stores::closed_cells_leave_responses;
use rock_disk::{Cell, now_is_a_crash_image, opened_slots_are_wide_and_few};
use rock_run::ScriptOrigin;

/// A file that a volume tells was opened as a store for the lines of a script, and the store was closed, however many
/// workers served how many of the lines, and whatever faults they met. Then the file is back. Each complete entry of what a
/// crash may leave of its cells is a response that the file had before, or one that a line of the script offers.
pub fn closed_runs_leave_responses<C: Cell>()
    ensures { (volume_tells : Bool) (files left : Files) (name : List ℕ) (slot anchors workers : ℕ) (script : List Line)
        → IsSlotSize slot → IsTrue volume_tells → HasClosed volume_tells C.tells C.state files left name slot anchors workers script
        → IsGivenBack files left name slot script }
{
    closed_cells_leave_responses::<C, ScriptOrigin>();
    now_is_a_crash_image();
    opened_slots_are_wide_and_few();
}
