// A command line, and how it ended.
use rock_io::{MemSink, Memory, Words};
use rock_status::Status;
use std::alloc::{AllocError, Global};

/// The words of a command line, with one space between each two. An empty line has none.
pub fn words_of(alloc: Global, line: &str) -> Result<Words, AllocError> {
    let mut words = Vec::new(alloc);
    if line.is_empty() {
        return Ok(Words::from_vec(words));
    }
    for word in line.split(' ') {
        words.push(String::from_str(alloc, word)?)?;
    }
    Ok(Words::from_vec(words))
}

/// How a command ended, and what it printed.
#[derive(Drop)]
pub struct Ended {
    pub status: Status,
    pub printed: Vec<u8>,
}

impl Ended {
    /// A command ended so, and printed what the sink has taken.
    pub fn new(alloc: Global, status: Status, out: &MemSink) -> Result<Ended, Memory> {
        Ok(Ended {
            status,
            printed: out.taken().to_vec(alloc)?,
        })
    }

    /// How it ended and its code, as stories have them.
    pub fn status_text(&self, alloc: Global) -> Result<String, AllocError> {
        format!(in alloc; "{:?} {}", self.status, self.status.code())
    }
}
