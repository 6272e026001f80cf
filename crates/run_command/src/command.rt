// The command `run`.
ghost use Rattle.std.specs.Prelude.{IsTrue, length, map, ◌≡◌, ◌≤◌, ◌↔◌};
ghost use Rattle.std.specs.FinMap.{get};
ghost use Rattle.answer_text.specs.Text.{text_of};
ghost use Rattle.rock_disk.specs.File.{IsNotAway, NoneAway};
ghost use Rattle.rock_disk.specs.Counts.{counts};
ghost use Rattle.rock_open.specs.Opening.{IsPasses};
ghost use Rattle.rock_run.specs.Device.{RunEnded, RunUnfailed};
ghost use Rattle.script_text.specs.Script.{IsTakenFrom};
ghost use Rattle.run_command.specs.Ends.{NoFault, RunEnds, RunsOrLacksMemory};
ghost use Rattle.run_command.specs.Leaves.{RunLeaves};
ghost use Rattle.run_command.specs.Prints.{IsRunText, PrintEnds, RunPrints};
ghost use Rattle.run_command.specs.Says.{IsRunRefused, MayRun, RunSays};

use crate::faults::{of_print, of_script};
use crate::found::run_found;
use answer_text::print_answers;
use rock_disk::Volume;
use rock_io::{Sink, Source};
use rock_run::read_scripts_may_be_served;
use rock_status::Status;
use run_rules::{closed_runs_leave_responses, finished_runs_were_served, read_lines_are_numbered};
use script_text::{Answer, read_script};
use slot_finding::may_be_given;
use std::alloc::Global;
use std::sync::Wait;
use std::thread::Threads;

/// What a script is run over, and by how many workers.
#[derive(Clone, Copy, Debug, PartialEq, Eq)]
pub struct RunTarget<'a> {
    /// The name of the file.
    pub name: &'a str,
    /// The size of a slot in bytes, where it is given. Where it is not, the header area tells it.
    pub slot: Option<u32>,
    pub anchors: u32,
    pub workers: u32,
}

/// Prints the answers of the workers.
fn print<K: Sink>(alloc: Global, out: &mut K, answers: &[Vec<(u32, Answer)>]) -> Status
    requires { length answers.now ≤ 32 }
    ensures ends { PrintEnds (K.faults out.old) (K.faults out.new) result }
    ensures prints { IsTrue K.tells → RunPrints (λ text. text ≡ text_of (map (λ each. each.items) answers.now))
        (K.taken out.old) (K.taken out.new) result }
    ensures sink_faults { K.faults out.old ≤ K.faults out.new }
    ensures sink_unfailed { (result ≡ Status.SinkFault → ⊥) → K.faults out.new ≡ K.faults out.old }
{
    match print_answers(alloc, out, answers) {
        Ok(()) => Status::Done,
        Err(fault) => of_print(fault),
    }
}

/// Whether so many workers may run.
fn are_workers(workers: u32) -> bool
    ensures { IsTrue result ↔ IsPasses workers }
{
    1 <= workers && workers <= 32
}

/// Reads a script to its end, runs it over a file by as many workers as are asked for, and prints one line for each of its
/// lines: for each worker in order, the first of which is worker 1, what its lines were answered. Nothing is printed before
/// all lines were served and the file was given back.
///
/// The script is refused before the numbers and the file: [`Status::SourceFault`], [`Status::BadScript`]; then, in this
/// order, [`Status::BadGeometry`] with field 1 for a slot size that is given, and with field 3 for the workers,
/// [`Status::Missing`], [`Status::Small`] where the file is shorter than its header area, `BadGeometry` with field 6, 5 or 7
/// where its slot size is not known, `Small` where it has no slot, and `BadGeometry` with field 2 for the anchors; then the
/// rebuild may fail, and at last the printing. A fault of a worker's station is a line of the answers, and no status.
pub fn run_command<R: Threads + Wait + Sync, V: Volume, S: Source, K: Sink>(
    rt: &R,
    alloc: Global,
    volume: &mut V,
    script: &mut S,
    out: &mut K,
    target: &RunTarget<'_>,
) -> Status
where
    V::St: Send,
    requires home { IsTrue V.tells → IsNotAway (get (V.files volume.old) target.now.name.now) }

    // When each status comes: by the numbers and the counts of faults,
    ensures ends { RunEnds target.now.slot target.now.anchors target.now.workers
        (S.faults script.old) (S.faults script.new) (K.faults out.old) (K.faults out.new)
        (counts V.faults V.made V.ended volume.old)
        (counts V.faults V.made V.ended volume.new) result }
    // and by the script and the files.
    ensures says { RunSays S.tells V.tells target.now.workers (S.left script.old) (S.left script.new)
        (V.files volume.old) target.now.name.now target.now.slot target.now.anchors result }
    // Where the script, a number or the file refuses the run, it is refused so,
    ensures refused { IsRunRefused S.tells V.tells (S.left script.old) (V.files volume.old)
        target.now.name.now target.now.slot target.now.anchors target.now.workers
        (counts V.faults V.made V.ended volume.old)
        (counts V.faults V.made V.ended volume.new) result }
    // and where nothing refuses it and no fault comes, it is done, unless memory runs out.
    ensures complete { IsTrue S.tells → IsTrue V.tells
        → MayRun (S.left script.old) (V.files volume.old) target.now.name.now target.now.slot target.now.anchors target.now.workers
        → NoFault (S.faults script.old) (S.faults script.new) (K.faults out.old) (K.faults out.new)
        (counts V.faults V.made V.ended volume.old)
        (counts V.faults V.made V.ended volume.new)
        → RunsOrLacksMemory result }

    // What was printed.
    ensures prints { IsTrue K.tells → RunPrints (IsRunText S.tells V.tells
        (S.left script.old) (S.left script.new) (V.files volume.old) (V.files volume.new)
        target.now.name.now target.now.slot target.now.anchors target.now.workers
        (counts V.faults V.made V.ended volume.old)
        (counts V.faults V.made V.ended volume.new))
        (K.taken out.old) (K.taken out.new) result }

    // What is left of the files, and that none is out.
    ensures kept { RunLeaves S.tells V.tells (S.left script.old) (S.left script.new)
        (V.files volume.old) (V.files volume.new)
        target.now.name.now target.now.slot target.now.anchors target.now.workers
        (counts V.faults V.made V.ended volume.old)
        (counts V.faults V.made V.ended volume.new) result }
    ensures back { IsTrue V.tells → NoneAway (V.files volume.old) → NoneAway (V.files volume.new) }

    // Each station that was made was ended.
    ensures ended { RunEnded
        (counts V.faults V.made V.ended volume.old)
        (counts V.faults V.made V.ended volume.new) }
    ensures script_taken { IsTakenFrom S.tells (S.left script.old) (S.left script.new) }
    ensures source_faults { S.faults script.old ≤ S.faults script.new }
    ensures faults { V.faults volume.old ≤ V.faults volume.new }
    ensures sink_faults { K.faults out.old ≤ K.faults out.new }

    // A fault is told as a fault.
    ensures source_unfailed { (result ≡ Status.SourceFault → ⊥) → S.faults script.new ≡ S.faults script.old }
    ensures sink_unfailed { (result ≡ Status.SinkFault → ⊥) → K.faults out.new ≡ K.faults out.old }
    ensures device_unfailed { (result ≡ Status.DeviceFault → ⊥) → RunUnfailed
        (counts V.faults V.made V.ended volume.old)
        (counts V.faults V.made V.ended volume.new) }
{
    read_scripts_may_be_served();
    closed_runs_leave_responses::<V::C>();
    finished_runs_were_served::<V::C, V::St>();
    read_lines_are_numbered();
    let lines = match read_script(alloc, script, target.workers) {
        Ok(lines) => lines,
        Err(fault) => return of_script(fault),
    };
    if !may_be_given(target.slot) {
        return Status::BadGeometry { field: 1 };
    }
    if !are_workers(target.workers) {
        return Status::BadGeometry { field: 3 };
    }
    match run_found(rt, alloc, volume, target, &lines) {
        Ok(answers) => print(alloc, out, &answers),
        Err(status) => status,
    }
}
