// What a run printed is explained. The function here does nothing: the proof of a function that calls it may use what it
// ensures.
ghost use Rattle.std.specs.Prelude.{All, Bool, Contains, IsTrue, List, length, sum_by, ◌<◌, ◌≡◌, ◌≤◌, ℕ};
ghost use Rattle.core_model.specs.State.{word};
ghost use Rattle.db_layout.specs.Layout.{IsSlotSize};
ghost use Rattle.rock_disk.specs.File.{Files};
ghost use Rattle.script_text.specs.Script.{IsScript};
ghost use Rattle.script_text.specs.declared.answer.Answer.{Answer};
ghost use Rattle.script_text.specs.declared.line.Line.{Line};
ghost use Rattle.rock_disk.specs.Counts.{Counts};
ghost use Rattle.rock_run.specs.Runs.{HasRun};
ghost use Rattle.run_rules.specs.Last.{AreLastWords};
ghost use Rattle.run_rules.specs.Plain.{AreInOrder, EndedPlainly, IsAnsweredPlainly, NoneFailedServing};
ghost use Rattle.plain_model.specs.Serving.{fresh};
ghost use Rattle.plain_laws.specs.Fitting.{Fits};
ghost use Rattle.plain_runs.specs.Runs.{setting_over};
ghost use Rattle.run_rules.specs.Fitting.{FitsInto};
ghost use Rattle.run_rules.specs.Private.{AreAnsweredAlone};
ghost use Rattle.run_rules.specs.Runs.{IsExplained};

use crate::standing::runs_leave_standing;
use core_model::idle_stores_are_settled;
use crashed_stores::{closed_entries_win, finished_entries_last};
use crew_accounts::{
    closed_entries_are_of_lines, crews_are_closed, faults_are_counted, opened_stores_have_runs,
    saved_entries_stay_known,
};
use line_account::closed_crews_keep_the_rules;
use plain_laws::{
    anchors_hold_slots_of_the_file, fitting_scripts_have_room, stores_begin_at_rest,
    unwritten_slots_have_no_entry,
};
use plain_runs::{
    closed_words_are_plain, lone_runs_are_plain, new_passes_show_plain_stores,
    private_runs_are_plain, whole_entries_stand_closed,
};
use rebuild_model::{one_entry_at_a_slot, one_winner_at_an_anchor};
use rock_disk::{Cell, Station, opened_slots_are_wide_and_few};
use rock_io::Octets;
use rock_run::ScriptOrigin;
use store_key::keys_have_16_bytes;
use swap_meta::written_meta_is_spelled;

/// What `run_script` ensures of a run that came to its end (`HasRun`), in the words of what it prints: there is one answer
/// for each line of the script, the lines keep all rules, and their URLs, bodies and keys are those of the file and of the
/// script. The words at which the anchors stood at last are explained too. The size of a slot has 32 bits.
pub fn runs_keep_the_rules<C: Cell, St: Station<C = C>>()
    ensures { (tells : Bool) (files left : Files) (name : List ℕ) (slot anchors workers : ℕ) (script : List Line)
        (answers : List (List (ℕ × Answer))) (before after : Counts)
        → slot < 4294967296
        → (ran : HasRun tells C.tells C.state files left name slot anchors workers script St.faults answers before after)
        → (e : IsExplained tells files name slot anchors workers script answers before after)
        × AreLastWords e.run e.crew (word ran.closed.closed.gathered.state) }
{
    crews_are_closed::<C, ScriptOrigin, St>();
    faults_are_counted::<C, ScriptOrigin, St>();
    opened_stores_have_runs::<C, ScriptOrigin>();
    closed_crews_keep_the_rules::<Octets>();
    idle_stores_are_settled::<Octets>();
    one_winner_at_an_anchor();
}

/// A run of one worker over a file that the volume tells, whose station met no fault, is answered as by a plain store that
/// is opened on the file, and the file that was given back has the whole entries of what the script leaves of that. A
/// rebuild keeps each of them that is not doomed, also of what a crash leaves, if the file had it or a `save` line stored
/// it. When the store was closed, each anchor had the word of that. Each line of the script has the number behind its
/// place.
pub fn lone_runs_are_answered_plainly<C: Cell, St: Station<C = C>>()
    ensures { (tells : Bool) (files left : Files) (name : List ℕ) (slot anchors workers : ℕ) (script : List Line)
        (answers : List (List (ℕ × Answer))) (before after : Counts)
        → IsSlotSize slot → AreInOrder script
        → (ran : HasRun tells C.tells C.state files left name slot anchors workers script St.faults answers before after)
        → workers ≡ 1 → IsTrue tells → NoneFailedServing before after
        → (plainly : IsAnsweredPlainly files left name slot anchors script answers)
        × EndedPlainly (word ran.closed.closed.gathered.state) plainly }
{
    new_passes_show_plain_stores::<C, ScriptOrigin>();
    lone_runs_are_plain::<C, ScriptOrigin, St>();
    closed_words_are_plain::<C, ScriptOrigin>();
    whole_entries_stand_closed::<C, ScriptOrigin>();
    closed_entries_win::<C, ScriptOrigin>();
    finished_entries_last::<C>();
    saved_entries_stay_known::<C, ScriptOrigin, St>();
    closed_entries_are_of_lines::<C, ScriptOrigin, St>();
    one_entry_at_a_slot();
    opened_slots_are_wide_and_few();
}

/// In a run over a file that the volume tells, each worker that is alone at its anchors, and whose station met no fault, is answered as by
/// a plain store of its own that is opened on the file, but for the numbers of versions, where the script fits into the file. When the
/// store was closed, its anchors had the words of what its lines leave of that store, and the file that was given back has the whole
/// entries of that. Each line of the script has the number behind its place.
pub fn private_lines_are_answered_plainly<C: Cell, St: Station<C = C>>()
    ensures { (tells : Bool) (files left : Files) (name : List ℕ) (slot anchors workers : ℕ) (script : List Line)
        (answers : List (List (ℕ × Answer))) (before after : Counts)
        → IsSlotSize slot → AreInOrder script
        → (ran : HasRun tells C.tells C.state files left name slot anchors workers script St.faults answers before after)
        → IsTrue tells
        → AreAnsweredAlone files left name slot anchors workers script answers before after (word ran.closed.closed.gathered.state) }
{
    runs_keep_the_rules::<C, St>();
    runs_leave_standing::<C, St>();
    new_passes_show_plain_stores::<C, ScriptOrigin>();
    private_runs_are_plain::<C, ScriptOrigin, St>();
    opened_stores_have_runs::<C, ScriptOrigin>();
    fitting_scripts_have_room();
    stores_begin_at_rest();
    anchors_hold_slots_of_the_file();
    one_winner_at_an_anchor();
    written_meta_is_spelled();
    keys_have_16_bytes();
    opened_slots_are_wide_and_few();
}

/// A script fits into a file that was never written where it fits into the plain store that is opened on it.
pub fn scripts_fit_into_unwritten_files()
    ensures { (slot anchors : ℕ) (images : List (List ℕ)) (script : List Line) → IsSlotSize slot
        → All (λ image. All (λ b. b ≡ 0) image) images
        → Fits (setting_over slot anchors (length images)) script (fresh anchors) → FitsInto slot anchors images script }
{
    unwritten_slots_have_no_entry();
    written_meta_is_spelled();
    keys_have_16_bytes();
}

/// Each line of a script that was read has the number behind its place.
pub fn read_lines_are_numbered()
    ensures { (workers : ℕ) (text : List ℕ) (lines : List Line) → IsScript workers text lines → AreInOrder lines }
{}

/// Each line of a script has one answer in a run that came to its end, where each line is for one of the workers: there are
/// as many answers as lines.
pub fn each_line_has_one_answer<C: Cell, St: Station<C = C>>()
    ensures { (tells : Bool) (files left : Files) (name : List ℕ) (slot anchors workers : ℕ) (script : List Line)
        (answers : List (List (ℕ × Answer))) (before after : Counts)
        → ((line : Line) → Contains script line → (1 ≤ line.worker) × (line.worker ≤ workers))
        → HasRun tells C.tells C.state files left name slot anchors workers script St.faults answers before after
        → sum_by (λ mine. length mine) answers ≡ length script }
{}
