// The script of a benchmark is run over a file that was made for it.
ghost use Rattle.std.specs.Prelude.{IsTrue, ◌≡◌, ◌≤◌};
ghost use Rattle.std.specs.FinMap.{get};
ghost use Rattle.file_commands.specs.Report.{ReportPrints};
ghost use Rattle.rock_disk.specs.File.{IsNotAway, NoneAway};
ghost use Rattle.rock_disk.specs.Counts.{counts};
ghost use Rattle.rock_open.specs.Opening.{HasSlots};
ghost use Rattle.rock_run.specs.Device.{RunEnded, RunUnfailed};
ghost use Rattle.workload.specs.Script.{bench_lines};
ghost use Rattle.bench_command.specs.Ends.{RunEnds, RunSays};
ghost use Rattle.bench_command.specs.Leaves.{RunLeaves};
ghost use Rattle.bench_command.specs.Numbers.{AreBenchNumbers, slot_size, slots_for};
ghost use Rattle.bench_command.specs.Prints.{IsLineOfRun};

use crate::printing::print_summary;
use rock_disk::Volume;
use rock_io::Sink;
use rock_run::{run_script, status_of_run};
use rock_status::Status;
use run_rules::{closed_runs_leave_responses, each_line_has_one_answer, finished_runs_were_served};
use std::alloc::Global;
use std::sync::Wait;
use std::thread::Threads;
use workload::{answers_are_of_one_kind, bench_lines_may_be_served, bench_script};

/// How many bytes a slot of a benchmark's file has.
pub(crate) const SLOT_BYTES: u32 = 512;

/// How many anchors there are for each worker.
const ANCHORS_EACH: u32 = 16;

/// A benchmark: the name of its file, and of its script the number that it is made from, the workers and the rounds.
#[derive(Clone, Copy, Debug, PartialEq, Eq)]
pub struct BenchTarget<'a> {
    pub name: &'a str,
    pub seed: u64,
    pub workers: u32,
    /// The rounds, in each of which each worker that has a URL makes one request.
    pub count: u32,
}

/// Makes the script of a benchmark, runs it over its file, and prints the line that sums up what the workers were answered.
pub(crate) fn run_bench<R: Threads + Wait + Sync, V: Volume, K: Sink>(
    rt: &R,
    alloc: Global,
    volume: &mut V,
    out: &mut K,
    target: &BenchTarget<'_>,
) -> Status
where
    V::St: Send,
    requires numbers { AreBenchNumbers target.now.workers target.now.count }
    requires home { IsTrue V.tells → IsNotAway (get (V.files volume.old) target.now.name.now) }
    ensures ends { RunEnds target.now.workers (K.faults out.old) (K.faults out.new)
        (counts V.faults V.made V.ended volume.old)
        (counts V.faults V.made V.ended volume.new) result }
    ensures says { IsTrue V.tells → HasSlots (V.files volume.old) target.now.name.now slot_size (slots_for target.now.workers)
        → RunSays result }
    ensures prints { IsTrue K.tells → ReportPrints (IsLineOfRun V.tells (V.files volume.old) (V.files volume.new)
        target.now.name.now target.now.seed target.now.workers target.now.count
        (counts V.faults V.made V.ended volume.old)
        (counts V.faults V.made V.ended volume.new))
        (K.taken out.old) (K.taken out.new) result }
    ensures leaves { RunLeaves V.tells (V.files volume.old) (V.files volume.new)
        target.now.name.now target.now.workers (bench_lines target.now.seed target.now.workers target.now.count)
        (counts V.faults V.made V.ended volume.old)
        (counts V.faults V.made V.ended volume.new) result }
    ensures back { IsTrue V.tells → NoneAway (V.files volume.old) → NoneAway (V.files volume.new) }
    ensures ended { RunEnded
        (counts V.faults V.made V.ended volume.old)
        (counts V.faults V.made V.ended volume.new) }
    ensures faults { V.faults volume.old ≤ V.faults volume.new }
    ensures sink_faults { K.faults out.old ≤ K.faults out.new }
    ensures sink_unfailed { (result ≡ Status.SinkFault → ⊥) → K.faults out.new ≡ K.faults out.old }
    ensures device_unfailed { (result ≡ Status.DeviceFault → ⊥) → RunUnfailed
        (counts V.faults V.made V.ended volume.old)
        (counts V.faults V.made V.ended volume.new) }
{
    bench_lines_may_be_served();
    closed_runs_leave_responses::<V::C>();
    finished_runs_were_served::<V::C, V::St>();
    each_line_has_one_answer::<V::C, V::St>();
    answers_are_of_one_kind();
    let BenchTarget {
        name,
        seed,
        workers,
        count,
    } = *target;
    let Ok(script) = bench_script(alloc, seed, workers, count) else {
        return Status::Memory;
    };
    let anchors = ANCHORS_EACH * workers;
    match run_script(
        rt, alloc, volume, name, SLOT_BYTES, anchors, workers, &script,
    ) {
        Ok(answers) => print_summary(alloc, out, answers),
        Err(fault) => status_of_run(fault),
    }
}
