// The line of a benchmark is printed.
ghost use Rattle.std.specs.Prelude.{IsTrue, map, ◌≡◌, ◌≤◌};
ghost use Rattle.workload.specs.Counts.{summary_of};
ghost use Rattle.workload.specs.Text.{summary_line};
ghost use Rattle.file_commands.specs.Report.{PrintEnds, ReportPrints};
ghost use Rattle.bench_command.specs.Answers.{answers_in};

use crate::answers::all_answers;
use rock_io::{Sink, write_all};
use rock_status::Status;
use script_text::Answer;
use std::alloc::Global;
use workload::{Summary, summary_line, summary_of};

/// Prints the line of a summary. It is made before the sink takes any byte.
fn print_line<K: Sink>(alloc: Global, out: &mut K, summary: &Summary) -> Status
    ensures ends { PrintEnds (K.faults out.old) (K.faults out.new) result }
    ensures prints { IsTrue K.tells
        → ReportPrints (λ text. text ≡ summary_line summary.now) (K.taken out.old) (K.taken out.new) result }
    ensures sink_faults { K.faults out.old ≤ K.faults out.new }
    ensures sink_unfailed { (result ≡ Status.SinkFault → ⊥) → K.faults out.new ≡ K.faults out.old }
{
    let Ok(line) = summary_line(alloc, summary) else {
        return Status::Memory;
    };
    match write_all(out, &line) {
        Ok(()) => Status::Done,
        Err(_) => Status::SinkFault,
    }
}

/// Prints the line that sums up what the workers were answered.
pub(crate) fn print_summary<K: Sink>(
    alloc: Global,
    out: &mut K,
    workers: Vec<Vec<(u32, Answer)>>,
) -> Status
    ensures ends { PrintEnds (K.faults out.old) (K.faults out.new) result }
    ensures prints { IsTrue K.tells
        → ReportPrints (λ text. text ≡ summary_line (summary_of (answers_in (map (λ each. each.items) workers.items))))
        (K.taken out.old) (K.taken out.new) result }
    ensures sink_faults { K.faults out.old ≤ K.faults out.new }
    ensures sink_unfailed { (result ≡ Status.SinkFault → ⊥) → K.faults out.new ≡ K.faults out.old }
{
    match all_answers(alloc, workers) {
        Ok(answers) => print_line(alloc, out, &summary_of(&answers)),
        Err(_) => Status::Memory,
    }
}
