// The law on a run that came to its end, for the commands that make one.
ghost use Rattle.std.specs.Prelude.{Bool, List, ℕ};
ghost use Rattle.db_layout.specs.Layout.{IsSlotSize};
ghost use Rattle.rock_disk.specs.File.{Files};
ghost use Rattle.script_text.specs.declared.answer.Answer.{Answer};
ghost use Rattle.script_text.specs.declared.line.Line.{Line};
ghost use Rattle.rock_disk.specs.Counts.{Counts};
ghost use Rattle.rock_run.specs.Runs.{HasRun};
ghost use Rattle.run_rules.specs.Plain.{AreInOrder};
ghost use Rattle.run_rules.specs.Served.{WasServed};

use crate::laws::{
    lone_runs_are_answered_plainly, private_lines_are_answered_plainly, runs_keep_the_rules,
};
use crate::standing::runs_leave_standing;
use rock_disk::{Cell, Station};

/// What `run_script` ensures of a run that came to its end (`HasRun`), in the words of its files and of its lines alone:
/// the script was served, its answers and the last words of the anchors are explained, and the file was given back with
/// what stood at last. Each line of the script has the number behind its place.
pub fn finished_runs_were_served<C: Cell, St: Station<C = C>>()
    ensures { (tells : Bool) (files left : Files) (name : List ℕ) (slot anchors workers : ℕ) (script : List Line)
        (answers : List (List (ℕ × Answer))) (before after : Counts)
        → IsSlotSize slot → AreInOrder script
        → HasRun tells C.tells C.state files left name slot anchors workers script St.faults answers before after
        → WasServed tells files left name slot anchors workers script answers before after }
{
    runs_keep_the_rules::<C, St>();
    runs_leave_standing::<C, St>();
    lone_runs_are_answered_plainly::<C, St>();
    private_lines_are_answered_plainly::<C, St>();
}
