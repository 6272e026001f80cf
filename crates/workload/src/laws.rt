// What holds of the lines of every benchmark, and of every summary. These functions do nothing: the proof of a function
// that calls one may use what it ensures.
ghost use Rattle.std.specs.Prelude.{Contains, List, Some, find, length, ℕ, ◌*◌, ◌+◌, ◌/◌, ◌==◌, ◌≡◌, ◌≤◌};
ghost use mathlib.Core.Option.{some};
ghost use lib.ListN.{get_elem?};
ghost use Rattle.store_key.specs.Anchor.{anchor_of};
ghost use Rattle.store_key.specs.Key.{key_of};
ghost use Rattle.script_text.specs.Requests.{url_in};
ghost use Rattle.script_text.specs.declared.answer.Answer.{Answer};
ghost use Rattle.script_text.specs.declared.line.Line.{Line};
ghost use Rattle.workload.specs.Counts.{kinds_in, summary_of};
ghost use Rattle.workload.specs.Requests.{IsSmall, NamesUrl};
ghost use Rattle.workload.specs.Script.{bench_lines};

/// The lines of a benchmark for at most 32 workers: each is for one of the workers, has the number behind its place and is
/// the first of its number, and gets, stores or purges a response under a URL. It is for the worker whose sixteen anchors have
/// the URL's anchor, its URL and its body are small, and each worker has at most one line in each round.
pub fn bench_lines_may_be_served()
    ensures within { (seed workers count : ℕ) (line : Line) → Contains (bench_lines seed workers count) line
        → (1 ≤ line.worker) × (line.worker ≤ workers) }
    ensures found { (seed workers count : ℕ) (line : Line) → Contains (bench_lines seed workers count) line
        → find (λ other. other.number == line.number) (bench_lines seed workers count) ≡ Some line }
    ensures named { (seed workers count : ℕ) (line : Line) → workers ≤ 32 → Contains (bench_lines seed workers count) line
        → NamesUrl line.request }
    ensures numbers { (seed workers count k : ℕ) (line : Line) → get_elem? (bench_lines seed workers count) k ≡ some line
        → line.number ≡ k + 1 }
    ensures homes { (seed workers count : ℕ) (line : Line) (url : List ℕ) → Contains (bench_lines seed workers count) line
        → url_in line.request ≡ Some url → line.worker ≡ 1 + anchor_of (key_of url) (16 * workers) / 16 }
    ensures small { (seed workers count : ℕ) (line : Line) → workers ≤ 32 → Contains (bench_lines seed workers count) line
        → IsSmall line.request }
    ensures few { (seed workers count : ℕ) → length (bench_lines seed workers count) ≤ count * workers }
{}

/// Each answer is counted as one kind, so the requests of a summary are the sum of the six kinds.
pub fn answers_are_of_one_kind()
    ensures { (answers : List Answer) → (summary_of answers).requests ≡ kinds_in (summary_of answers) }
{}
