// Answers are printed.
ghost use Rattle.std.specs.Prelude.{IsErrOf, IsTrue, OnErr, OnOk, map, ◌≡◌, ◌+◌, ◌++◌, ◌≤◌, length};
ghost use Rattle.rock_io.specs.Faults.{Rose};
ghost use Rattle.rock_io.specs.Sink.{TakesPrefix};
ghost use Rattle.rock_io.specs.LineBuffer.{held_of, Puts, Stops};
ghost use Rattle.answer_text.specs.Text.{text_from, text_of, text_of_worker};

use crate::line::answer_line;
use rock_io::{BUFFER_BYTES, LineBuffer, Sink};
use script_text::Answer;
use std::alloc::Global;
use thiserror::Error;

/// Why answers were not printed.
#[derive(Clone, Copy, Debug, PartialEq, Eq, Error)]
pub enum PrintFault {
    /// The sink's count of faults rose.
    #[error("the output failed")]
    Failed,
    #[error("out of memory")]
    Memory,
}

/// Prints the lines of a worker.
fn print_worker<K: Sink>(
    alloc: Global,
    out: &mut K,
    buffer: &mut LineBuffer,
    worker: u32,
    answers: &[(u32, Answer)],
) -> Result<(), PrintFault>
    ensures all { OnOk result (IsTrue K.tells → Puts (text_of_worker worker answers.now) (K.taken out.old) (held_of buffer.old) (K.taken out.new) (held_of buffer.new)) }
    ensures prefix { OnErr result (IsTrue K.tells → Stops (text_of_worker worker answers.now) (K.taken out.old) (held_of buffer.old) (K.taken out.new)) }
    ensures faults { K.faults out.old ≤ K.faults out.new }
    ensures unfailed { (IsErrOf result PrintFault.Failed → ⊥) → K.faults out.new ≡ K.faults out.old }
    ensures failed { IsErrOf result PrintFault.Failed → Rose (K.faults out.old) (K.faults out.new) }
{
    let mut left = answers;
    'answers: while let Some(((number, answer), rest)) = left.split_first() {
        let Ok(line) = answer_line(alloc, worker, *number, answer) else {
            return Err(PrintFault::Memory);
        };
        if buffer.put_line(out, line.as_slice()).is_err() {
            return Err(PrintFault::Failed);
        }
        left = rest;
    }
    Ok(())
}

/// Prints the lines of all workers, the first of which is worker 1.
fn print_all<K: Sink>(
    alloc: Global,
    out: &mut K,
    buffer: &mut LineBuffer,
    answers: &[Vec<(u32, Answer)>],
) -> Result<(), PrintFault>
    requires { length answers.now ≤ 32 }
    ensures all { OnOk result (IsTrue K.tells → Puts (text_of (map (λ each. each.items) answers.now)) (K.taken out.old) (held_of buffer.old) (K.taken out.new) (held_of buffer.new)) }
    ensures prefix { OnErr result (IsTrue K.tells → Stops (text_of (map (λ each. each.items) answers.now)) (K.taken out.old) (held_of buffer.old) (K.taken out.new)) }
    ensures faults { K.faults out.old ≤ K.faults out.new }
    ensures unfailed { (IsErrOf result PrintFault.Failed → ⊥) → K.faults out.new ≡ K.faults out.old }
    ensures failed { IsErrOf result PrintFault.Failed → Rose (K.faults out.old) (K.faults out.new) }
{
    let mut left = answers;
    let mut worker: u32 = 1;
    'workers: while let Some((first, rest)) = left.split_first() {
        print_worker(alloc, out, buffer, worker, first)?;
        worker += 1;
        left = rest;
    }
    Ok(())
}

/// Prints the answers of workers: for each worker in order, the first of which is worker 1, a line for each answer, with
/// the number of its line in the script. The lines are gathered in a buffer of 64 KiB. There are at most 32 workers.
///
/// # Errors
///
/// [`PrintFault::Failed`] where the sink's count of faults rose, and [`PrintFault::Memory`]. The sink has then taken a first
/// part of the lines.
pub fn print_answers<K: Sink>(
    alloc: Global,
    out: &mut K,
    answers: &[Vec<(u32, Answer)>],
) -> Result<(), PrintFault>
    requires { length answers.now ≤ 32 }
    ensures all { OnOk result (IsTrue K.tells → K.taken out.new ≡ K.taken out.old ++ text_of (map (λ each. each.items) answers.now)) }
    ensures prefix { OnErr result (IsTrue K.tells → TakesPrefix (K.taken out.old) (K.taken out.new) (text_of (map (λ each. each.items) answers.now))) }
    ensures faults { K.faults out.old ≤ K.faults out.new }
    ensures unfailed { (IsErrOf result PrintFault.Failed → ⊥) → K.faults out.new ≡ K.faults out.old }
    ensures failed { IsErrOf result PrintFault.Failed → Rose (K.faults out.old) (K.faults out.new) }
{
    let Ok(mut buffer) = LineBuffer::new(alloc, BUFFER_BYTES) else {
        return Err(PrintFault::Memory);
    };
    print_all(alloc, out, &mut buffer, answers)?;
    match buffer.write_to(out) {
        Ok(()) => Ok(()),
        Err(_) => Err(PrintFault::Failed),
    }
}
