use crate::rows::parted;
use script_text::{Body, Line, Request, Script};
use std::alloc::Global;
use store_key::{anchor_of, key_of};
use workload::bench_script;

/// A line as a text: its worker, its number, the name of its request, the URL, and the body's length and shift,
/// which are 0 where it has none.
fn told(alloc: Global, line: &Line) -> Option<String> {
    let (name, url, length, shift) = match &line.request {
        Request::Get { url } => ("get", url.as_slice(), 0, 0),
        Request::Put {
            url,
            body: Body::Made { length, shift },
        } => ("put", url.as_slice(), *length, *shift),
        Request::Save {
            url,
            body: Body::Made { length, shift },
        } => ("save", url.as_slice(), *length, *shift),
        Request::Purge { url } => ("purge", url.as_slice(), 0, 0),
        _ => ("other", b"".as_slice(), 0, 0),
    };
    let (worker, number, url) = (line.worker, line.number, str::from_utf8(url).ok()?);
    format!(in alloc; "{worker} {number} {name} {url} {length} {shift}").ok()
}

/// The script of a benchmark, told as `SEED WORKERS ROUNDS`.
fn script_of(alloc: Global, words: &str) -> Option<Script> {
    let (seed, rest) = parted(words, " ")?;
    let (workers, rounds) = parted(rest, " ")?;
    let (workers, rounds): (u32, u32) = (workers.parse().ok()?, rounds.parse().ok()?);
    if workers == 0 || workers > 32 || rounds > 10_000 {
        return None;
    }
    bench_script(alloc, seed.parse().ok()?, workers, rounds).ok()
}

/// The lines of two workers in eight rounds from the greatest seed, and the line of one worker in one round from seed 0, by a
/// program in another language.
const LINES: &str = "\
18446744073709551615 2 8
1 1 purge http://bench/74 0 0
2 2 get http://bench/55 0 0
1 3 purge http://bench/58 0 0
2 4 save http://bench/91 600 14
1 5 put http://bench/58 81 18
2 6 get http://bench/98 0 0
1 7 put http://bench/29 766 23
2 8 get http://bench/64 0 0
1 9 get http://bench/42 0 0
2 10 put http://bench/64 1050 3
1 11 put http://bench/12 157 9
2 12 get http://bench/0 0 0
1 13 get http://bench/68 0 0
2 14 get http://bench/77 0 0
1 15 put http://bench/24 179 10
2 16 put http://bench/0 87 15

0 1 1
1 1 get http://bench/62 0 0";

/// Whether the script of a section's head has the lines that stand below.
fn has_lines(alloc: Global, section: &str) -> Option<bool> {
    let (head, rows) = parted(section, "\n")?;
    let script = script_of(alloc, head)?;
    let lines = script.lines.as_slice();
    for (line, row) in lines.iter().zip(rows.lines()) {
        if told(alloc, line)?.as_str() != row {
            return None;
        }
    }
    Some(lines.len() == rows.lines().count())
}

#[test]
fn lines_are_as_another_program_makes_them(rt: HostRuntime) {
    // 17 rows, 2 heads, and a line between the sections.
    assert_eq!(rt; LINES.lines().count(), 20);
    for section in LINES.split("\n\n") {
        assert!(rt; has_lines(rt.alloc(), section) == Some(true), "{section}");
    }
}

/// Scripts, and how many lines they have.
const COUNTS: &str = "\
0 1 0 -> 0
0 1 10000 -> 10000
0 32 3 -> 96";

/// Whether the script of a row has as many lines as the row says.
fn has_count(alloc: Global, row: &str) -> Option<bool> {
    let (words, count) = parted(row, " -> ")?;
    let count: usize = count.parse().ok()?;
    Some(script_of(alloc, words)?.lines.as_slice().len() == count)
}

#[test]
fn scripts_have_a_line_for_each_round_and_worker(rt: HostRuntime) {
    assert_eq!(rt; COUNTS.lines().count(), 3);
    for row in COUNTS.lines() {
        assert!(rt; has_count(rt.alloc(), row) == Some(true), "{row}");
    }
}

/// The URL that a line of a benchmark names.
fn url_of(line: &Line) -> Option<&[u8]> {
    match &line.request {
        Request::Get { url }
        | Request::Put { url, .. }
        | Request::Save { url, .. }
        | Request::Purge { url } => Some(url.as_slice()),
        _ => None,
    }
}

/// The anchor of a line's URL, if it is one of the sixteen of the line's worker.
fn own_anchor(line: &Line, anchors: u32) -> Option<u32> {
    if anchors == 0 {
        return None;
    }
    let anchor = anchor_of(&key_of(url_of(line)?), anchors);
    if anchor / 16 + 1 == line.worker {
        Some(anchor)
    } else {
        None
    }
}

/// Scripts, and the sum of the anchors of all lines, by a program in another language.
const ANCHORS: &str = "\
7 1 300 -> 2240
7 2 300 -> 9324
18446744073709551615 5 100 -> 19809
7 32 20 -> 163575";

/// Whether each line of a row's script is for the worker that has its URL's anchor, and the anchors have the sum of the row.
fn has_anchors(alloc: Global, row: &str) -> Option<bool> {
    let (words, sum) = parted(row, " -> ")?;
    let mut left: u32 = sum.parse().ok()?;
    let (_, rest) = parted(words, " ")?;
    let (workers, _) = parted(rest, " ")?;
    let workers: u32 = workers.parse().ok()?;
    let anchors = workers.checked_mul(16)?;
    let script = script_of(alloc, words)?;
    for line in script.lines.as_slice() {
        left = left.checked_sub(own_anchor(line, anchors)?)?;
    }
    Some(left == 0)
}

#[test]
fn lines_are_for_the_workers_of_their_anchors(rt: HostRuntime) {
    assert_eq!(rt; ANCHORS.lines().count(), 4);
    for row in ANCHORS.lines() {
        assert!(rt; has_anchors(rt.alloc(), row) == Some(true), "{row}");
    }
}
