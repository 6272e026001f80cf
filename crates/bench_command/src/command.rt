// The command `bench`.
ghost use Rattle.std.specs.Prelude.{IsTrue, ◌≡◌, ◌≤◌, ◌↔◌};
ghost use Rattle.file_commands.specs.Report.{ReportPrints, ReportsOrLacksMemory};
ghost use Rattle.rock_disk.specs.File.{NoneAway};
ghost use Rattle.rock_io.specs.Faults.{Rose};
ghost use Rattle.rock_disk.specs.Counts.{counts};
ghost use Rattle.rock_open.specs.Opening.{IsPasses};
ghost use Rattle.workload.specs.Script.{bench_lines};
ghost use Rattle.bench_command.specs.Ends.{BenchEnds, BenchSays, IsBenchRefused};
ghost use Rattle.bench_command.specs.Leaves.{BenchLeaves};
ghost use Rattle.bench_command.specs.Numbers.{IsRounds, MayBench};
ghost use Rattle.bench_command.specs.Prints.{IsBenchText};
ghost use Rattle.bench_command.specs.Stations.{BenchEnded, BenchFailed, BenchUnfailed};

use crate::running::{BenchTarget, SLOT_BYTES, run_bench};
use bench_laws::{bench_lines_are_private, bench_lines_fit, summaries_tell_no_versions};
use db_layout::geometries_are_read_as_written;
use file_commands::create_file;
use plain_laws::unwritten_slots_open_fresh_stores;
use rock_disk::{Volume, cutting_keeps_the_bytes};
use rock_io::Sink;
use rock_status::Status;
use run_rules::scripts_fit_into_unwritten_files;
use std::alloc::Global;
use std::sync::Wait;
use std::thread::Threads;

/// How many slots there are for each worker.
const SLOTS_EACH: u32 = 64;

/// Whether a benchmark may have `workers` workers.
fn is_workers(workers: u32) -> bool
    ensures { IsTrue result ↔ IsPasses workers }
{
    1 <= workers && workers <= 32
}

/// Whether it may have `count` rounds.
fn is_rounds(count: u32) -> bool
    ensures { IsTrue result ↔ IsRounds count }
{
    count <= 10_000
}

/// Makes a file with 64 slots of 512 bytes for each worker, which its header area records, runs the script of a benchmark over it by a
/// store with 16 anchors for each worker, and prints one line that sums up what the workers were answered. The file stays.
///
/// It is refused, in this order, with [`Status::BadGeometry`] and field 3 where there are not 1 to 32 workers, and field 4
/// where there are more than 10,000 rounds; then with [`Status::Exists`] where a file of that name is there. A fault of a
/// worker's station is one of the answers that are counted, and no status.
pub fn bench_command<R: Threads + Wait + Sync, V: Volume, K: Sink>(
    rt: &R,
    alloc: Global,
    volume: &mut V,
    out: &mut K,
    target: &BenchTarget<'_>,
) -> Status
where
    V::St: Send,
    // When each status comes: by the numbers and the counts of faults,
    ensures ends { BenchEnds target.now.workers target.now.count (K.faults out.old) (K.faults out.new)
        (counts V.faults V.made V.ended volume.old)
        (counts V.faults V.made V.ended volume.new) result }
    // and by the files.
    ensures says { IsTrue V.tells → BenchSays (V.files volume.old) target.now.name.now result }
    // Where a number or the files refuse it, it is refused so,
    ensures refused { IsBenchRefused V.tells (V.files volume.old) target.now.name.now target.now.workers target.now.count result }
    // and where nothing refuses it and no fault comes, it is done, unless memory runs out.
    ensures complete { IsTrue V.tells → MayBench (V.files volume.old) target.now.name.now target.now.workers target.now.count
        → (Rose (K.faults out.old) (K.faults out.new) → ⊥)
        → (BenchFailed
        (counts V.faults V.made V.ended volume.old)
        (counts V.faults V.made V.ended volume.new) → ⊥)
        → ReportsOrLacksMemory result }

    // What was printed.
    ensures prints { IsTrue K.tells → ReportPrints (IsBenchText V.tells (V.files volume.old) (V.files volume.new)
        target.now.name.now target.now.seed target.now.workers target.now.count
        (counts V.faults V.made V.ended volume.old)
        (counts V.faults V.made V.ended volume.new))
        (K.taken out.old) (K.taken out.new) result }

    // What is left of the files, and that none is out.
    ensures leaves { BenchLeaves V.tells (V.files volume.old) (V.files volume.new)
        target.now.name.now target.now.workers (bench_lines target.now.seed target.now.workers target.now.count)
        (counts V.faults V.made V.ended volume.old)
        (counts V.faults V.made V.ended volume.new) result }
    ensures back { IsTrue V.tells → NoneAway (V.files volume.old) → NoneAway (V.files volume.new) }

    // Each station that was made was ended.
    ensures ended { BenchEnded
        (counts V.faults V.made V.ended volume.old)
        (counts V.faults V.made V.ended volume.new) }
    ensures faults { V.faults volume.old ≤ V.faults volume.new }
    ensures sink_faults { K.faults out.old ≤ K.faults out.new }

    // A fault is told as a fault.
    ensures sink_unfailed { (result ≡ Status.SinkFault → ⊥) → K.faults out.new ≡ K.faults out.old }
    ensures device_unfailed { (result ≡ Status.DeviceFault → ⊥) → BenchUnfailed
        (counts V.faults V.made V.ended volume.old)
        (counts V.faults V.made V.ended volume.new) }
{
    cutting_keeps_the_bytes();
    geometries_are_read_as_written();
    unwritten_slots_open_fresh_stores();
    scripts_fit_into_unwritten_files();
    bench_lines_are_private();
    bench_lines_fit();
    summaries_tell_no_versions();
    if !is_workers(target.workers) {
        return Status::BadGeometry { field: 3 };
    }
    if !is_rounds(target.count) {
        return Status::BadGeometry { field: 4 };
    }
    let slots = SLOTS_EACH * target.workers;
    match create_file(alloc, volume, target.name, SLOT_BYTES, slots) {
        Status::Done => run_bench(rt, alloc, volume, out, target),
        refused => refused,
    }
}
