ghost use Rattle.std.specs.Prelude.{IfSome, vec_len, ◌≤◌};

use crate::rows::numbers;
use answer_text::{PrintFault, print_answers};
use rock_io::{MemSink, Octets};
use script_text::Answer;
use std::alloc::Global;
use test_rows::short;

type Answers = Vec<Vec<(u32, Answer)>>;

/// What three workers were answered, where the second answer of worker 1 has so many bytes.
fn answers(alloc: Global, count: usize) -> Option<Answers>
    ensures { IfSome result (λ answers. vec_len answers ≤ 32) }
{
    let mut bytes = Vec::new(alloc);
    bytes.resize(count, 0x6b).ok()?;
    let bytes = Octets::from_vec(bytes);
    let mut first = Vec::new(alloc);
    first.push((1, Answer::Stored { version: 1 })).ok()?;
    first.push((3, Answer::Hit { version: 1, bytes })).ok()?;
    let mut third = Vec::new(alloc);
    third.push((2, Answer::Dropped)).ok()?;
    let mut answers = Vec::new(alloc);
    answers.push(first).ok()?;
    answers.push(Vec::new(alloc)).ok()?;
    answers.push(third).ok()?;
    Some(answers)
}

/// The lines of these answers.
fn lines(alloc: Global, count: usize) -> Option<String> {
    let bytes = "6b".repeat(alloc, count).ok()?;
    format!(in alloc; "1 1 STORED 1\n1 3 HIT 1 {count} {bytes}\n3 2 DROPPED\n").ok()
}

// How many bytes there are: lines that fit into the buffer together, that do not, and one that is longer than the buffer by
// itself.
const COUNTS: &str = "\
1
5
32747
32748
32753
32754
32759
32760
40000
150000";

/// Whether a sink that takes at most `most` bytes in a call is given the lines.
fn are_printed(alloc: Global, row: &str, most: usize) -> Option<bool> {
    let [count] = numbers::<1>(row)?;
    let count = short(count) as usize;
    let mut sink = MemSink::new(alloc, 400_000, most.max(1), Vec::new(alloc)).ok()?;
    let outcome = print_answers(alloc, &mut sink, &answers(alloc, count)?);
    let wanted = lines(alloc, count)?;
    Some(outcome.is_ok() && sink.taken() == wanted.as_bytes())
}

#[test]
fn each_answer_has_its_line(rt: HostRuntime) {
    assert_eq!(rt; COUNTS.lines().count(), 10);
    for row in COUNTS.lines() {
        for most in [7, 400_000] {
            assert!(rt;
                are_printed(rt.alloc(), row, most) == Some(true),
                "{row} by {most}"
            );
        }
    }
}

// The lines of 40,000 bytes are written in three calls. A call that fails, and how many bytes those before it wrote.
const FAILED: &str = "\
0 0
1 13
2 80030";

/// Whether a call that fails leaves what those before it wrote.
fn leaves_first_part(alloc: Global, row: &str) -> Option<bool> {
    let [call, count] = numbers::<2>(row)?;
    let mut fail = Vec::new(alloc);
    fail.push(call).ok()?;
    let mut sink = MemSink::new(alloc, 400_000, 400_000, fail).ok()?;
    let outcome = print_answers(alloc, &mut sink, &answers(alloc, 40_000)?);
    let (wanted, taken) = (lines(alloc, 40_000)?, sink.taken());
    let is_first_part = wanted.as_bytes().starts_with(taken) && taken.len() as u64 == count;
    Some(outcome == Err(PrintFault::Failed) && is_first_part)
}

#[test]
fn a_sink_that_fails_has_taken_a_first_part(rt: HostRuntime) {
    assert_eq!(rt; FAILED.lines().count(), 3);
    for row in FAILED.lines() {
        assert!(rt; leaves_first_part(rt.alloc(), row) == Some(true), "{row}");
    }
}
