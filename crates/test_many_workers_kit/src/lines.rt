// The lines of a script of many workers.
ghost use Rattle.std.specs.Prelude.{◌<◌};

use std::alloc::{AllocError, Global};

/// What a line asks for. A worker writes on its tab 0, and reads on its tab 1.
#[derive(Clone, Copy, PartialEq, Eq)]
pub enum Kind {
    Put,
    Save,
    Get,
    Purge,
    Wipe,
    Begin,
    Add,
    Drop,
    Open,
    More,
    Close,
    Mark,
    Await,
}

/// A line of a script. It is about the URL, or the mark, of a number; on a tab, about the URL that it was opened for.
#[derive(Clone, Copy)]
pub struct Asked {
    pub worker: u32,
    pub kind: Kind,
    pub about: u32,
}

/// The length of the body that the line of this number offers, and its first letter, from 0. The longest needs three slots.
pub fn body_of(number: u32) -> (u32, u32) {
    (number.wrapping_mul(37) % 1_301, number % 26)
}

/// How many workers there are.
pub const WORKERS: u32 = 32;

/// How many rounds of requests each worker makes.
const ROUNDS: u32 = 6;

/// What each worker asks for in a round, and how many URLs behind the first one of the round. It begins an entry, gives
/// it up while it reads it, or what stands there, and reads on twice.
const ROUND: [(Kind, u32); 13] = [
    (Kind::Put, 0),
    (Kind::Get, 0),
    (Kind::Save, 1),
    (Kind::Get, 1),
    (Kind::Begin, 3),
    (Kind::Add, 3),
    (Kind::Open, 3),
    (Kind::Drop, 3),
    (Kind::More, 3),
    (Kind::More, 3),
    (Kind::Close, 3),
    (Kind::Purge, 2),
    (Kind::Get, 2),
];

fn ask(lines: &mut Vec<Asked>, worker: u32, kind: Kind, about: u32) -> Result<(), AllocError> {
    lines.push(Asked {
        worker,
        kind,
        about,
    })?;
    Ok(())
}

/// Each worker but the last waits until the last one is there.
fn ask_to_begin(lines: &mut Vec<Asked>) -> Result<(), AllocError> {
    ask(lines, WORKERS, Kind::Mark, 0)?;
    for worker in 1..WORKERS {
        ask(lines, worker, Kind::Await, 0)?;
    }
    Ok(())
}

/// In each second round it wipes in place of purging.
fn in_round(kind: Kind, round: u32) -> Kind {
    match kind {
        Kind::Purge if round % 2 == 1 => Kind::Wipe,
        other => other,
    }
}

/// The requests of a worker in a round, about the first `urls` URLs.
fn ask_a_round(lines: &mut Vec<Asked>, round: u32, worker: u32, urls: u32) -> Result<(), AllocError>
    requires { 0 < urls }
{
    let first = worker.wrapping_mul(5).wrapping_add(round.wrapping_mul(3));
    for (kind, behind) in ROUND {
        let about = first.wrapping_add(behind) % urls;
        ask(lines, worker, in_round(kind, round), about)?;
    }
    Ok(())
}

/// The first worker waits for all others, and stores and gets a response.
fn ask_to_end(lines: &mut Vec<Asked>) -> Result<(), AllocError> {
    for mark in 1..WORKERS {
        ask(lines, mark + 1, Kind::Mark, mark)?;
    }
    for mark in 1..WORKERS {
        ask(lines, 1, Kind::Await, mark)?;
    }
    ask(lines, 1, Kind::Put, 0)?;
    ask(lines, 1, Kind::Get, 0)
}

/// The lines of a script about `urls` URLs, which are numbered from 0.
pub fn lines_about(alloc: Global, urls: u32) -> Result<Vec<Asked>, AllocError>
    requires { 0 < urls }
{
    let mut lines = Vec::new(alloc);
    ask_to_begin(&mut lines)?;
    for turn in 0..ROUNDS * WORKERS {
        ask_a_round(&mut lines, turn / WORKERS, turn % WORKERS + 1, urls)?;
    }
    ask_to_end(&mut lines)?;
    Ok(lines)
}

/// The text of a line, and its line feed.
fn text_of(alloc: Global, asked: Asked, number: u32) -> Result<String, AllocError> {
    let Asked {
        worker,
        kind,
        about,
    } = asked;
    let (length, letter) = body_of(number);
    match kind {
        Kind::Put => { format!(in alloc; "{worker} put http://a/{about:02} #{length}:{letter}\n") }
        Kind::Save => {
            format!(in alloc; "{worker} save http://a/{about:02} #{length}:{letter}\n")
        }
        Kind::Get => format!(in alloc; "{worker} get http://a/{about:02}\n"),
        Kind::Purge => format!(in alloc; "{worker} purge http://a/{about:02}\n"),
        Kind::Wipe => format!(in alloc; "{worker} wipe http://a/{about:02}\n"),
        Kind::Begin => {
            format!(in alloc; "{worker} begin 0 http://a/{about:02} #{length}:{letter}\n")
        }
        Kind::Add => format!(in alloc; "{worker} add 0 900\n"),
        Kind::Drop => format!(in alloc; "{worker} drop 0\n"),
        Kind::Open => format!(in alloc; "{worker} open 1 http://a/{about:02}\n"),
        Kind::More => format!(in alloc; "{worker} more 1\n"),
        Kind::Close => format!(in alloc; "{worker} close 1\n"),
        Kind::Mark => format!(in alloc; "{worker} mark {about}\n"),
        Kind::Await => format!(in alloc; "{worker} await {about}\n"),
    }
}

/// The text of a script of these lines, which are numbered from 1 on.
pub fn script_of(alloc: Global, lines: &[Asked]) -> Result<Vec<u8>, AllocError> {
    let mut text = Vec::new(alloc);
    let mut number: u32 = 1;
    for asked in lines {
        text.extend_from_slice(text_of(alloc, *asked, number)?.as_bytes())?;
        number = number.wrapping_add(1);
    }
    Ok(text)
}
