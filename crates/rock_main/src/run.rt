// How the program ends.
ghost use Rattle.std.specs.Prelude.{◌≡◌, ◌↔◌, ℕ, List, Option, IsTrue};
ghost use Rattle.std.specs.Process.{exit_status};
ghost use Rattle.rock_disk.specs.File.{NoneAway};
ghost use Rattle.rock_io.specs.Faults.{Rose};
ghost use Rattle.rock_commands.specs.Bench.{BenchDoes};
ghost use Rattle.rock_commands.specs.CommandLine.{IsBench, IsCheck, IsCommandLine, IsCreate, IsList, IsMigrate, IsRun};
ghost use Rattle.rock_commands.specs.Create.{CreateDoes};
ghost use Rattle.rock_commands.specs.Migrate.{MigrateDoes};
ghost use Rattle.rock_commands.specs.Report.{CheckDoes, ListDoes};
ghost use Rattle.rock_commands.specs.Run.{RunDoes};
ghost use Rattle.rock_commands.specs.World.{telling, world_of};
ghost use Rattle.rock_main.specs.Ending.{EndsFor};
ghost use Rattle.rock_status.specs.Status.{code_of};

use rock_commands::rock;
use rock_disk::Volume;
use rock_file::{FaultCause, SaysWhy};
use rock_help::{Asked, DiskCause, help_text, line_of};
use rock_io::{Sink, Source, Words};
use rock_status::Status;
use std::alloc::{AllocError, Global};
use std::process::ExitCode;
use std::sync::Wait;
use std::thread::Threads;

/// Carries out a command line, as [`rock`] does, says how it went where it did not go well, and ends with
/// the status's code.
pub fn run<R: Threads + Wait + Sync + Eprint, V: Volume + SaysWhy, S: Source, K: Sink>(
    rt: &R,
    alloc: Global,
    words: &Words,
    volume: &mut V,
    script: &mut S,
    out: &mut K,
) -> ExitCode
where
    V::St: Send,
    requires home { IsTrue V.tells → NoneAway (V.files volume.old) }

    ensures usage { (exit_status result ≡ 2) ↔ (IsCommandLine words.now → ⊥) }
    ensures source_fault { exit_status result ≡ 4 → Rose (S.faults script.old) (S.faults script.new) }
    ensures sink_fault { exit_status result ≡ 5 → Rose (K.faults out.old) (K.faults out.new) }

    // Whatever else it ends with, the script was given as far as it was read, the output was taken as far as it
    // was given out, and no call of the volume failed.
    ensures source_unfailed { (exit_status result ≡ 4 → ⊥) → S.faults script.new ≡ S.faults script.old }
    ensures sink_unfailed { (exit_status result ≡ 5 → ⊥) → K.faults out.new ≡ K.faults out.old }
    ensures device_unfailed { (exit_status result ≡ 6 → ⊥) → V.faults volume.new ≡ V.faults volume.old }

    // Of each command: it is the code of a status with all that `rock` says of this command and its status. So it is one
    // that the numbers, the counts of faults and the files allow, and the one that they ask for where they refuse the
    // command; and what was printed, and what is left of the files, is what that status says.
    ensures list { (name : List ℕ) (given : Option ℕ) → IsList words.now name given
        → EndsFor (λ status. ListDoes (telling V.tells K.tells S.tells) name given
        (world_of V.files V.faults V.made V.ended K.taken K.faults S.left S.faults volume.old out.old script.old)
        (world_of V.files V.faults V.made V.ended K.taken K.faults S.left S.faults volume.new out.new script.new) status)
        (exit_status result) }
    ensures check { (name : List ℕ) (given : Option ℕ) (anchors : ℕ) → IsCheck words.now name given anchors
        → EndsFor (λ status. CheckDoes (telling V.tells K.tells S.tells) name given anchors
        (world_of V.files V.faults V.made V.ended K.taken K.faults S.left S.faults volume.old out.old script.old)
        (world_of V.files V.faults V.made V.ended K.taken K.faults S.left S.faults volume.new out.new script.new) status)
        (exit_status result) }
    ensures create { (name : List ℕ) (slot slots : ℕ) → IsCreate words.now name slot slots
        → EndsFor (λ status. CreateDoes (telling V.tells K.tells S.tells) name slot slots
        (world_of V.files V.faults V.made V.ended K.taken K.faults S.left S.faults volume.old out.old script.old)
        (world_of V.files V.faults V.made V.ended K.taken K.faults S.left S.faults volume.new out.new script.new) status)
        (exit_status result) }
    ensures migrate { (name : List ℕ) (slot : ℕ) → IsMigrate words.now name slot
        → EndsFor (λ status. MigrateDoes (telling V.tells K.tells S.tells) name slot
        (world_of V.files V.faults V.made V.ended K.taken K.faults S.left S.faults volume.old out.old script.old)
        (world_of V.files V.faults V.made V.ended K.taken K.faults S.left S.faults volume.new out.new script.new) status)
        (exit_status result) }
    ensures run { (name : List ℕ) (given : Option ℕ) (anchors workers : ℕ) → IsRun words.now name given anchors workers
        → EndsFor (λ status. RunDoes (telling V.tells K.tells S.tells) name given anchors workers
        (world_of V.files V.faults V.made V.ended K.taken K.faults S.left S.faults volume.old out.old script.old)
        (world_of V.files V.faults V.made V.ended K.taken K.faults S.left S.faults volume.new out.new script.new) status)
        (exit_status result) }
    ensures bench { (name : List ℕ) (seed workers count : ℕ) → IsBench words.now name seed workers count
        → EndsFor (λ status. BenchDoes (telling V.tells K.tells S.tells) name seed workers count
        (world_of V.files V.faults V.made V.ended K.taken K.faults S.left S.faults volume.old out.old script.old)
        (world_of V.files V.faults V.made V.ended K.taken K.faults S.left S.faults volume.new out.new script.new) status)
        (exit_status result) }
{
    let status = rock(rt, alloc, words, volume, script, out);
    let asked = Asked {
        disk: disk_cause(volume.why()),
        ..asked_by(words)
    };
    end(rt, alloc, &status, &asked)
}

/// Why a disk failed, as people are told.
fn disk_cause(why: FaultCause) -> DiskCause {
    match why {
        FaultCause::InUse => DiskCause::InUse,
        FaultCause::TooManyOpen => DiskCause::TooManyOpen,
        FaultCause::Other => DiskCause::Unknown,
    }
}

/// The words of a command line by what they say.
fn asked_by(words: &Words) -> Asked<'_> {
    if word_at(words, 0) == "bench" {
        return Asked {
            name: word_at(words, 1),
            workers: word_at(words, 3),
            rounds: Some(word_at(words, 4)),
            ..Asked::NOTHING
        };
    }
    Asked {
        name: word_at(words, 1),
        slot: word_at(words, 2),
        count: word_at(words, 3),
        workers: word_at(words, 4),
        ..Asked::NOTHING
    }
}

fn word_at(words: &Words, place: usize) -> &str {
    match words.as_slice().get(place) {
        Some(word) => word.as_str(),
        None => "",
    }
}

/// Says on standard error what went wrong and what to do, after Usage also what would have been right, and
/// gives the status's code. Where memory is wanting, the sentence or the help text is left out, and where standard
/// error takes nothing, nothing is said: the code is the same.
pub fn end<R: Eprint>(rt: &R, alloc: Global, status: &Status, asked: &Asked<'_>) -> ExitCode
    ensures { exit_status result ≡ code_of status.now }
{
    if *status != Status::Done {
        let _ = match line_of(alloc, status, asked) {
            Ok(line) => eprintln!(rt; "{line}"),
            Err(AllocError) => eprintln!(rt; "rock: {status}"),
        };
    }
    if *status == Status::Usage {
        if let Ok(text) = help_text(alloc) {
            let _ = rt.eprint(text.as_str());
        }
    }
    ExitCode::from(status.code())
}
