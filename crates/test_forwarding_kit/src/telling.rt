// What a line came to, as text.
use collapse::{Forwarded, Why};
use lock_word::Word;
use rock_io::Octets;
use rock_writer::BeginFault;
use script_text::Answer;
use std::alloc::Global;

/// What came of forwarding.
pub fn forwarded(alloc: Global, answer: &Forwarded) -> Option<String> {
    match answer {
        Forwarded::Direct {
            why: Why::Begin(BeginFault::Busy { looked, found }),
        } => {
            let looked = spelled_word(alloc, looked)?;
            let found = spelled_word(alloc, found)?;
            format!(in alloc; "Busy {looked} {found}").ok()
        }
        _ => format!(in alloc; "{answer:?}").ok(),
    }
}

/// The word of an anchor, as in the answers of a run.
fn spelled_word(alloc: Global, word: &Word) -> Option<String> {
    let doom = if word.epoch.doom { "d" } else { "" };
    format!(in alloc;
        "{}.{}{doom}/{}",
        word.epoch.version,
        word.epoch.stage.number(),
        word.readers
    )
    .ok()
}

/// An answer. Where it has bytes they stand as `spelled` has them.
pub fn told(alloc: Global, answer: &Answer) -> Option<String> {
    match answer {
        Answer::Hit { version, bytes } => {
            let body = spelled(alloc, bytes.as_slice())?;
            format!(in alloc; "Hit {version} {body}").ok()
        }
        Answer::Part { bytes, .. } => with_body(alloc, "Part", bytes),
        Answer::End { bytes } => with_body(alloc, "End", bytes),
        Answer::Halted { bytes } => with_body(alloc, "Halted", bytes),
        _ => format!(in alloc; "{answer:?}").ok(),
    }
}

fn with_body(alloc: Global, name: &str, bytes: &Octets) -> Option<String> {
    let body = spelled(alloc, bytes.as_slice())?;
    format!(in alloc; "{name} {body}").ok()
}

/// Bytes as a script spells a body: `-` where there are none, up to 9 as they are behind a `=`, and more, which have to be
/// letters in turn, by their number and the first one.
pub fn spelled(alloc: Global, bytes: &[u8]) -> Option<String> {
    let Some(first) = bytes.first() else {
        return format!(in alloc; "-").ok();
    };
    if bytes.len() < 10 {
        let text = str::from_utf8(bytes).ok()?;
        return format!(in alloc; "={text}").ok();
    }
    if !are_letters(bytes) {
        return None;
    }
    format!(in alloc; "#{}:{}", bytes.len(), first.saturating_sub(b'a')).ok()
}

/// Whether each byte but the first is the letter behind the one before it, or `a` behind `z`.
fn are_letters(bytes: &[u8]) -> bool {
    let behind = bytes.iter().skip(1);
    bytes.iter().zip(behind).all(|(one, next)| {
        if *one == b'z' {
            *next == b'a'
        } else {
            *next == one.wrapping_add(1)
        }
    })
}
