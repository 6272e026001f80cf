// The worker of a line and the name of its request.
ghost use Rattle.std.specs.Prelude.{◌≡◌, ◌≢◌, ◌⊎◌, ℕ, List, ◌≤◌, ◌∷◌, map, decimal};
ghost use Rattle.script_text.specs.Causes.{BeginsWithWorker, NamesRequest};
ghost use Rattle.script_text.specs.Refusals.{ReadOr};
ghost use Rattle.script_text.specs.Requests.{name_of};
ghost use Rattle.script_text.specs.declared.verb.Verb.{Verb};

use crate::refusal::{NAME, Refusal, WORKER};
use crate::verb::{Verb, verb_of};
use crate::words::number_within;

/// The number of the worker, from 1 to `workers`, and the words behind it.
fn worker_of<'w, 'a>(words: &'w [&'a [u8]], workers: u32) -> Result<(u32, &'w [&'a [u8]]), Refusal>
    ensures { ReadOr result
        (λ r. (1 ≤ r.0) × (r.0 ≤ workers) × (map (λ w. w.now) words.now ≡ decimal r.0 ∷ map (λ w. w.now) r.1.now))
        (λ cause. (cause ≡ 3) × ¬ BeginsWithWorker workers (map (λ w. w.now) words.now)) }
{
    let [worker, rest @ ..] = words else {
        return Err(Refusal::Bad { cause: WORKER });
    };
    let Some(worker) = number_within(worker, 1, workers) else {
        return Err(Refusal::Bad { cause: WORKER });
    };
    Ok((worker, rest))
}

/// The request that the first of these words names, and the words behind it.
fn request_named<'w, 'a>(words: &'w [&'a [u8]]) -> Result<(Verb, &'w [&'a [u8]]), Refusal>
    ensures { ReadOr result
        (λ r. map (λ w. w.now) words.now ≡ name_of r.0 ∷ map (λ w. w.now) r.1.now)
        (λ cause. (cause ≡ 4) × ((name : Verb) (fields : List (List ℕ)) → map (λ w. w.now) words.now ≢ name_of name ∷ fields)) }
{
    let [name, fields @ ..] = words else {
        return Err(Refusal::Bad { cause: NAME });
    };
    let Some(name) = verb_of(name) else {
        return Err(Refusal::Bad { cause: NAME });
    };
    Ok((name, fields))
}

/// What the first two words say, and the words behind them.
pub fn head_of<'w, 'a>(
    words: &'w [&'a [u8]],
    workers: u32,
) -> Result<(u32, Verb, &'w [&'a [u8]]), Refusal>
    ensures { ReadOr result
        (λ r. (1 ≤ r.0) × (r.0 ≤ workers) × (map (λ w. w.now) words.now ≡ decimal r.0 ∷ name_of r.1 ∷ map (λ w. w.now) r.2.now))
        (λ cause. ((cause ≡ 3) × ¬ BeginsWithWorker workers (map (λ w. w.now) words.now))
        ⊎ ((cause ≡ 4) × BeginsWithWorker workers (map (λ w. w.now) words.now) × ¬ NamesRequest (map (λ w. w.now) words.now))) }
{
    let (worker, rest) = worker_of(words, workers)?;
    let (name, fields) = request_named(rest)?;
    Ok((worker, name, fields))
}
