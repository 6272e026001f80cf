// A script is run over a file by its slot size, which is found before.
ghost use Rattle.std.specs.Prelude.{IfErr, IfOk, IsErrOf, IsOk, IsTrue, map, ◌≤◌};
ghost use Rattle.std.specs.FinMap.{get};
ghost use Rattle.rock_disk.specs.File.{IsNotAway, NoneAway};
ghost use Rattle.rock_disk.specs.Counts.{counts};
ghost use Rattle.rock_open.specs.Opening.{IsPasses};
ghost use Rattle.rock_run.specs.Device.{RunEnded, RunUnfailed};
ghost use Rattle.rock_run.specs.Scripts.{MayBeServed};
ghost use Rattle.slot_finding.specs.Finding.{IsGiven, WithSlot};
ghost use Rattle.run_command.specs.Ends.{FoundEnds};
ghost use Rattle.run_command.specs.Found.{FoundLeaves, HasClosedFor, HasRunFor};
ghost use Rattle.run_command.specs.Leaves.{LeavesKept};
ghost use Rattle.run_command.specs.Says.{FileSays, Fits, IsFileRefused};

use crate::command::RunTarget;
use rock_disk::Volume;
use rock_run::{run_script, status_of_run};
use rock_status::Status;
use script_text::{Answer, Script};
use slot_finding::{find_slot, status_of_find};
use std::alloc::Global;
use std::sync::Wait;
use std::thread::Threads;

/// Runs a script that was read over a file, where the numbers are within their limits. The header area of the file is looked
/// at first, where it has one, and tells its slot size, or leaves it to what was given. The answers are those of each worker, in
/// order, with the numbers of its lines.
pub(crate) fn run_found<R: Threads + Wait + Sync, V: Volume>(
    rt: &R,
    alloc: Global,
    volume: &mut V,
    target: &RunTarget<'_>,
    script: &Script,
) -> Result<Vec<Vec<(u32, Answer)>>, Status>
where
    V::St: Send,
    requires given { IsGiven target.now.slot }
    requires workers { IsPasses target.now.workers }
    requires home { IsTrue V.tells → IsNotAway (get (V.files volume.old) target.now.name.now) }
    requires lines { MayBeServed target.now.workers script.now.lines }

    ensures ran { IfOk result (λ answers. HasRunFor V.tells V.C.tells V.C.state (V.files volume.old) (V.files volume.new)
        target.now.name.now target.now.slot target.now.anchors target.now.workers script.now.lines V.St.faults
        (map (λ each. each.items) answers.items)
        (counts V.faults V.made V.ended volume.old)
        (counts V.faults V.made V.ended volume.new)) }
    ensures fits { IsTrue V.tells → IsOk result → WithSlot (V.files volume.old) target.now.name.now target.now.slot
        (λ slot. Fits (V.files volume.old) target.now.name.now slot target.now.anchors) }

    // When each refusal comes, and that it does.
    ensures ends { IfErr result (FoundEnds target.now.slot target.now.anchors
        (counts V.faults V.made V.ended volume.old)
        (counts V.faults V.made V.ended volume.new)) }
    ensures says { IsTrue V.tells
        → IfErr result (FileSays (V.files volume.old) target.now.name.now target.now.slot target.now.anchors) }
    ensures refused { IfErr result (IsFileRefused V.tells (V.files volume.old)
        target.now.name.now target.now.slot target.now.anchors
        (counts V.faults V.made V.ended volume.old)
        (counts V.faults V.made V.ended volume.new)) }

    // What is left of the volume.
    ensures kept { IfErr result (FoundLeaves
        (LeavesKept V.tells (V.files volume.old) (V.files volume.new) target.now.name.now target.now.slot)
        (HasClosedFor V.tells V.C.tells V.C.state (V.files volume.old) (V.files volume.new)
        target.now.name.now target.now.slot target.now.anchors target.now.workers script.now.lines)) }
    ensures back { IsTrue V.tells → NoneAway (V.files volume.old) → NoneAway (V.files volume.new) }
    ensures ended { RunEnded
        (counts V.faults V.made V.ended volume.old)
        (counts V.faults V.made V.ended volume.new) }
    ensures faults { V.faults volume.old ≤ V.faults volume.new }
    ensures unfailed { (IsErrOf result Status.DeviceFault → ⊥) → RunUnfailed
        (counts V.faults V.made V.ended volume.old)
        (counts V.faults V.made V.ended volume.new) }
{
    let RunTarget {
        name,
        slot,
        anchors,
        workers,
    } = *target;
    let slot = match find_slot(volume, name, slot) {
        Ok(slot) => slot,
        Err(fault) => return Err(status_of_find(fault)),
    };
    match run_script(rt, alloc, volume, name, slot, anchors, workers, script) {
        Ok(answers) => Ok(answers),
        Err(fault) => Err(status_of_run(fault)),
    }
}
