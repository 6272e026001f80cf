// The answers of all workers are put into one list.
ghost use Rattle.std.specs.Prelude.{IfOk, OnOk, map, ◌++◌, ◌≡◌};
ghost use Rattle.bench_command.specs.Answers.{answers_in};

use rock_io::Memory;
use script_text::Answer;
use std::alloc::Global;

/// Adds the answers of a worker.
fn add_answers(all: &mut Vec<Answer>, answers: Vec<(u32, Answer)>) -> Result<(), Memory>
    ensures { OnOk result (all.new.items ≡ all.old.items ++ map (λ numbered. numbered.1) answers.items) }
{
    'answers: for numbered in answers {
        let (_, answer) = numbered;
        all.push(answer)?;
    }
    Ok(())
}

/// The answers of all workers, in their order, without the numbers of their lines.
pub(crate) fn all_answers(
    alloc: Global,
    workers: Vec<Vec<(u32, Answer)>>,
) -> Result<Vec<Answer>, Memory>
    ensures { IfOk result (λ all. all.items ≡ answers_in (map (λ each. each.items) workers.items)) }
{
    let mut all = Vec::new(alloc);
    'workers: for answers in workers {
        add_answers(&mut all, answers)?;
    }
    Ok(all)
}
