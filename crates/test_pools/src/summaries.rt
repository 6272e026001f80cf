use lock_word::{Cause, Epoch, Stage};
use rock_io::Octets;
use script_text::Answer;
use std::alloc::Global;
use workload::{summary_line, summary_of};

/// Whether these answers have this line, with a line feed.
fn has_line(alloc: Global, answers: &[Answer], wanted: &str) -> Option<bool> {
    let line = summary_line(alloc, &summary_of(answers)).ok()?;
    Some(line.strip_suffix(b"\n") == Some(wanted.as_bytes()))
}

#[test]
fn no_answers(rt: HostRuntime) {
    let wanted = "bench requests=0 hits=0 misses=0 stored=0 purged=0 none=0 other=0 bytes=0";
    assert!(rt; has_line(rt.alloc(), &[], wanted) == Some(true));
}

fn octets(alloc: Global, text: &str) -> Option<Octets> {
    Some(Octets::from_vec(text.as_bytes().to_vec(alloc).ok()?))
}

/// Answers of each kind.
fn answers(hello: Octets, you: Octets, beside: Octets) -> [Answer; 10] {
    let epoch = Epoch {
        version: 3,
        doom: true,
        stage: Stage::Gone,
    };
    let cause = Cause::Absent { epoch };
    [
        Answer::Hit {
            version: 1,
            bytes: hello,
        },
        Answer::Hit {
            version: 2,
            bytes: you,
        },
        Answer::End { bytes: beside },
        Answer::Miss { cause },
        Answer::Stored { version: 3 },
        Answer::Doomed { version: 4 },
        Answer::Purged { epoch },
        Answer::NoEntry { cause },
        Answer::NoEntry { cause },
        Answer::Full,
    ]
}

/// Whether the line of these answers has them, each counted.
fn are_counted(alloc: Global, wanted: &str) -> Option<bool> {
    let (hello, you) = (octets(alloc, "hello")?, octets(alloc, "you")?);
    let answers = answers(hello, you, octets(alloc, "beside")?);
    has_line(alloc, &answers, wanted)
}

#[test]
fn each_kind_is_counted(rt: HostRuntime) {
    let wanted = "bench requests=10 hits=2 misses=1 stored=1 purged=1 none=2 other=3 bytes=8";
    assert!(rt; are_counted(rt.alloc(), wanted) == Some(true));
}
