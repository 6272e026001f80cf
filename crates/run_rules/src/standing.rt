// The law on the entries that stood when a run came to its end.
ghost use Rattle.std.specs.Prelude.{Bool, IsTrue, List, ℕ};
ghost use Rattle.db_layout.specs.Layout.{IsSlotSize};
ghost use Rattle.rock_disk.specs.File.{Files};
ghost use Rattle.script_text.specs.declared.answer.Answer.{Answer};
ghost use Rattle.script_text.specs.declared.line.Line.{Line};
ghost use Rattle.rock_disk.specs.Counts.{Counts};
ghost use Rattle.rock_run.specs.Runs.{HasRun};
ghost use Rattle.core_model.specs.State.{word};
ghost use Rattle.run_rules.specs.Plain.{AreInOrder};
ghost use Rattle.run_rules.specs.Standing.{LeavesStanding};

use crashed_stores::{
    closed_cells_leave_responses, closed_entries_win, finished_entries_last,
    wiped_entries_do_not_come_back,
};
use crew_accounts::{closed_entries_are_of_lines, saved_entries_stay_known, wiped_slots_stay_seen};
use rock_disk::{Cell, Station, now_is_a_crash_image, opened_slots_are_wide_and_few};
use rock_run::ScriptOrigin;

/// Workers ran a script over a file that a volume tells, however many they were and whatever faults they met. Then the file
/// is back, and its cells have each entry that stood closed and not doomed at the end: a rebuild keeps it at its anchor, with
/// its version, its URL and its body. Each is the file's of before, or what a line of the script offers. So it is in all
/// that a crash may leave of the cells, where the file had it or the line is a `save`, and of what a `save` line was
/// answered STORED for, wherever the version stands closed. Of a version above those of the file that a `wipe` line was answered
/// WIPED with a crash leaves no complete entry.
pub fn runs_leave_standing<C: Cell, St: Station<C = C>>()
    ensures { (tells : Bool) (files left : Files) (name : List ℕ) (slot anchors workers : ℕ) (script : List Line)
        (answers : List (List (ℕ × Answer))) (before after : Counts)
        → IsSlotSize slot → AreInOrder script
        → (ran : HasRun tells C.tells C.state files left name slot anchors workers script St.faults answers before after) → IsTrue tells
        → LeavesStanding files left name slot anchors script answers (word ran.closed.closed.gathered.state) }
{
    closed_cells_leave_responses::<C, ScriptOrigin>();
    now_is_a_crash_image();
    closed_entries_win::<C, ScriptOrigin>();
    finished_entries_last::<C>();
    saved_entries_stay_known::<C, ScriptOrigin, St>();
    wiped_slots_stay_seen::<C, ScriptOrigin, St>();
    wiped_entries_do_not_come_back::<C, ScriptOrigin>();
    closed_entries_are_of_lines::<C, ScriptOrigin, St>();
    opened_slots_are_wide_and_few();
}
