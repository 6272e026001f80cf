// The top call.
ghost use Rattle.std.specs.Prelude.{◌≡◌, ℕ, List, ◌≤◌, IsTrue, Option, ◌↔◌};
ghost use Rattle.rock_disk.specs.File.{NoneAway};
ghost use Rattle.rock_commands.specs.Alike.{FaultsAreTold, LeavesScript, MakesOneAtMost};
ghost use Rattle.rock_commands.specs.Bench.{BenchDoes};
ghost use Rattle.rock_commands.specs.Carried.{CarriesOut};
ghost use Rattle.rock_commands.specs.CommandLine.{IsBench, IsCheck, IsCreate, IsList, IsMigrate, IsRun};
ghost use Rattle.rock_commands.specs.CommandLine.{IsBenchLine, IsCommandLine, IsRunLine};
ghost use Rattle.rock_commands.specs.Create.{CreateDoes};
ghost use Rattle.rock_commands.specs.Migrate.{MigrateDoes};
ghost use Rattle.rock_commands.specs.Report.{CheckDoes, ListDoes};
ghost use Rattle.rock_commands.specs.Run.{RunDoes};
ghost use Rattle.rock_commands.specs.World.{telling, world_of};

use crate::command::Command;
use bench_command::bench_command;
use file_commands::{Report, create_file, migrate_file, print_report};
use rock_disk::{Volume, kept_files_have_their_bytes};
use rock_io::{Sink, Source, Words};
use rock_status::Status;
use run_command::{RunTarget, run_command};
use std::alloc::Global;
use std::sync::Wait;
use std::thread::Threads;

/// Carries out a command line, without the program's own name.
///
/// `list NAME SLOT` prints a line `ENTRY first version slots length URL` for each complete entry of
/// the file NAME of slots of SLOT bytes, in order of first slot. `check NAME SLOT ANCHORS` prints the
/// one line `slots=S kept=K used=U free=F version=G`: the file's slots, the entries that a store with
/// ANCHORS anchors keeps, the slots that they take, those that are free, and the greatest version of a
/// sane slot. `create NAME SLOT SLOTS` makes a file of a header area, which records SLOT and SLOTS, and of SLOTS
/// slots of SLOT zero bytes, and prints nothing. `migrate NAME SLOT` makes the header area of the file NAME of slots of
/// SLOT bytes record its slots, where it records nothing, and prints the one line `MIGRATED slots=S`, S being their
/// number. None of them reads the script.
///
/// SLOT of `list`, `check` and `run` may be `-`: then the header area of the file tells the size of its slots. A file whose
/// header area records its slots is refused where it has other slots, and where another size is given.
///
/// `run NAME SLOT ANCHORS WORKERS` reads the script to its end, opens the file NAME as a store with ANCHORS
/// anchors, and lets workers 1 to WORKERS serve their lines on threads. Then it closes the store, gives the
/// cells back to the file, and prints a line for each line of the script, worker by worker. It alone reads the
/// script.
///
/// `bench NAME SEED WORKERS COUNT` makes the file NAME with 64 slots of 512 bytes for each worker, runs the script of a
/// benchmark over it, which is made from SEED and has COUNT rounds, and prints the one line
/// `bench requests=R hits=H misses=M stored=T purged=P none=N other=O bytes=B`. It and `run` start threads and wait.
///
/// The clauses say what is in files where the volume tells them, what was printed where the sink tells what it took, and
/// what the script is where its source tells it (`telling`). Files of the system, standard output and standard input tell
/// nothing: of them no clause says what they hold.
///
/// Opening a file cuts its bytes into cells: the header area, and the slots. So a file as opening cuts it has the bytes
/// that it had. The file is out while a store has its cells. A station reads and writes cells, and counts its calls that
/// failed; when it is ended, the volume keeps its count behind those of the stations before it. [`Status`] says what the
/// numbers of `BadGeometry` stand for.
pub fn rock<R: Threads + Wait + Sync, V: Volume, S: Source, K: Sink>(
    rt: &R,
    alloc: Global,
    words: &Words,
    volume: &mut V,
    script: &mut S,
    out: &mut K,
) -> Status
where
    V::St: Send,
    requires home { IsTrue V.tells → NoneAway (V.files volume.old) }

    // Words that are no command line change nothing.
    ensures usage { (result ≡ Status.Usage) ↔ (IsCommandLine words.now → ⊥) }
    ensures untouched { result ≡ Status.Usage
        → world_of V.files V.faults V.made V.ended K.taken K.faults S.left S.faults volume.new out.new script.new
        ≡ world_of V.files V.faults V.made V.ended K.taken K.faults S.left S.faults volume.old out.old script.old }

    // Of each command, by a record: when each status comes, by the numbers and the counts of faults, and by the
    // files; that it is refused where the numbers or the file refuse it; that where nothing refuses it and no fault
    // comes it is done, unless memory runs out; what was printed; and what is left of the files.

    // `list NAME SLOT` prints the lines of the complete entries, whatever the number of slots. Each file keeps its bytes.
    ensures list { (name : List ℕ) (given : Option ℕ) → IsList words.now name given
        → ListDoes (telling V.tells K.tells S.tells) name given
        (world_of V.files V.faults V.made V.ended K.taken K.faults S.left S.faults volume.old out.old script.old)
        (world_of V.files V.faults V.made V.ended K.taken K.faults S.left S.faults volume.new out.new script.new) result }

    // `check NAME SLOT ANCHORS` prints the line of a rebuild, where ANCHORS is from 1 to the number of slots. Each file keeps
    // its bytes.
    ensures check { (name : List ℕ) (given : Option ℕ) (anchors : ℕ) → IsCheck words.now name given anchors
        → CheckDoes (telling V.tells K.tells S.tells) name given anchors
        (world_of V.files V.faults V.made V.ended K.taken K.faults S.left S.faults volume.old out.old script.old)
        (world_of V.files V.faults V.made V.ended K.taken K.faults S.left S.faults volume.new out.new script.new) result }

    // `create NAME SLOT SLOTS` makes a file of 16,384 + SLOTS * SLOT bytes, where SLOT is a multiple of 512
    // from 512 to 32,768, SLOTS is from 1 to 1,048,576, and no file has that name. Its header area records the
    // slots, which are zeros. It prints nothing, and its one station is that of the header area.
    ensures create { (name : List ℕ) (slot slots : ℕ) → IsCreate words.now name slot slots
        → CreateDoes (telling V.tells K.tells S.tells) name slot slots
        (world_of V.files V.faults V.made V.ended K.taken K.faults S.left S.faults volume.old out.old script.old)
        (world_of V.files V.faults V.made V.ended K.taken K.faults S.left S.faults volume.new out.new script.new) result }

    // `migrate NAME SLOT` makes the header area of a file record its slots, where it records nothing, and prints how
    // many there are. Its statuses are those of `list`.
    ensures migrate { (name : List ℕ) (slot : ℕ) → IsMigrate words.now name slot
        → MigrateDoes (telling V.tells K.tells S.tells) name slot
        (world_of V.files V.faults V.made V.ended K.taken K.faults S.left S.faults volume.old out.old script.old)
        (world_of V.files V.faults V.made V.ended K.taken K.faults S.left S.faults volume.new out.new script.new) result }

    // `run NAME SLOT ANCHORS WORKERS` runs a script over the file by so many workers, and prints what they were
    // answered. It is refused by the script, by a number, and by the file, in this order. A fault of a worker's
    // station is a line of the answers, and no status.
    ensures run { (name : List ℕ) (given : Option ℕ) (anchors workers : ℕ) → IsRun words.now name given anchors workers
        → RunDoes (telling V.tells K.tells S.tells) name given anchors workers
        (world_of V.files V.faults V.made V.ended K.taken K.faults S.left S.faults volume.old out.old script.old)
        (world_of V.files V.faults V.made V.ended K.taken K.faults S.left S.faults volume.new out.new script.new) result }

    // `bench NAME SEED WORKERS COUNT` makes a file of 64 slots of 512 bytes for each worker, runs the script of a
    // benchmark over it by so many workers, and prints the line that sums up what they were answered. It is
    // refused by a number, and by the name, in this order.
    ensures bench { (name : List ℕ) (seed workers count : ℕ) → IsBench words.now name seed workers count
        → BenchDoes (telling V.tells K.tells S.tells) name seed workers count
        (world_of V.files V.faults V.made V.ended K.taken K.faults S.left S.faults volume.old out.old script.old)
        (world_of V.files V.faults V.made V.ended K.taken K.faults S.left S.faults volume.new out.new script.new) result }

    // No other command makes more than one station, which is ended, and at any status but that of a fault of
    // the disk was ended with none.
    ensures stations { ¬ IsRunLine words.now → ¬ IsBenchLine words.now → MakesOneAtMost
        (world_of V.files V.faults V.made V.ended K.taken K.faults S.left S.faults volume.old out.old script.old)
        (world_of V.files V.faults V.made V.ended K.taken K.faults S.left S.faults volume.new out.new script.new) result }

    // No other command than `run` reads the script.
    ensures script { ¬ IsRunLine words.now → LeavesScript
        (world_of V.files V.faults V.made V.ended K.taken K.faults S.left S.faults volume.old out.old script.old)
        (world_of V.files V.faults V.made V.ended K.taken K.faults S.left S.faults volume.new out.new script.new) }

    // A fault is told as a fault. No count of faults falls. At any status but that of a fault of the volume, of the sink
    // or of the source its count is as it was; at that of a fault of the sink or of the source it rose.
    ensures faults { FaultsAreTold
        (world_of V.files V.faults V.made V.ended K.taken K.faults S.left S.faults volume.old out.old script.old)
        (world_of V.files V.faults V.made V.ended K.taken K.faults S.left S.faults volume.new out.new script.new) result }

    // No file is out.
    ensures back { IsTrue V.tells → NoneAway (V.files volume.new) }
{
    let Some(command) = Command::parse(words) else {
        return Status::Usage;
    };
    carry_out(rt, alloc, &command, volume, script, out)
}

/// Carries out a command.
fn carry_out<R: Threads + Wait + Sync, V: Volume, S: Source, K: Sink>(
    rt: &R,
    alloc: Global,
    command: &Command<'_>,
    volume: &mut V,
    script: &mut S,
    out: &mut K,
) -> Status
where
    V::St: Send,
    requires home { IsTrue V.tells → NoneAway (V.files volume.old) }

    ensures carried { CarriesOut (telling V.tells K.tells S.tells) command.now
        (world_of V.files V.faults V.made V.ended K.taken K.faults S.left S.faults volume.old out.old script.old)
        (world_of V.files V.faults V.made V.ended K.taken K.faults S.left S.faults volume.new out.new script.new) result }

    // No count of faults falls,
    ensures faults { V.faults volume.old ≤ V.faults volume.new }
    ensures sink_faults { K.faults out.old ≤ K.faults out.new }
    ensures source_faults { S.faults script.old ≤ S.faults script.new }
    // and a fault is told as a fault.
    ensures volume_unfailed { (result ≡ Status.DeviceFault → ⊥) → V.faults volume.new ≡ V.faults volume.old }
    ensures sink_unfailed { (result ≡ Status.SinkFault → ⊥) → K.faults out.new ≡ K.faults out.old }
    ensures source_unfailed { (result ≡ Status.SourceFault → ⊥) → S.faults script.new ≡ S.faults script.old }

    ensures back { IsTrue V.tells → NoneAway (V.files volume.new) }
{
    kept_files_have_their_bytes();
    match *command {
        Command::List { target } => {
            let listing = Report::Listing;
            print_report(alloc, volume, out, target.name, target.slot, listing)
        }
        Command::Check { target, anchors } => {
            let summary = Report::Summary { anchors };
            print_report(alloc, volume, out, target.name, target.slot, summary)
        }
        Command::Create { target } => {
            create_file(alloc, volume, target.name, target.slot, target.slots)
        }
        Command::Run {
            target,
            anchors,
            workers,
        } => {
            let run = RunTarget {
                name: target.name,
                slot: target.slot,
                anchors,
                workers,
            };
            run_command(rt, alloc, volume, script, out, &run)
        }
        Command::Bench { target } => bench_command(rt, alloc, volume, out, &target),
        Command::Migrate { target } => migrate_file(alloc, volume, out, target.name, target.slot),
    }
}
