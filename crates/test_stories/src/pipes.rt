// What a command reads its script from and prints to.
use crate::numbers::{calls_of, wrong};
use rock_io::{MemSink, MemSource, Memory};
use std::alloc::Global;
use std::test::Fail;

/// What a command reads its script from and prints to.
#[derive(Drop)]
pub struct Pipes {
    /// How many bytes can be printed.
    pub room: usize,
    /// The most bytes that the sink takes at once, and the source gives. 0 is as 1.
    pub taken: usize,
    pub given: usize,
    /// The calls of the sink and of the source that fail.
    pub sink: Vec<u64>,
    pub source: Vec<u64>,
}

impl Pipes {
    /// With room for all that is printed here, and no call that fails.
    pub fn new(alloc: Global) -> Pipes {
        Pipes {
            room: 4_194_304,
            taken: 4_096,
            given: 4_096,
            sink: Vec::new(alloc),
            source: Vec::new(alloc),
        }
    }

    /// A source that gives this script.
    pub fn source(&self, alloc: Global, script: &[u8]) -> Result<MemSource, Memory> {
        let failing = self.source.as_slice().to_vec(alloc)?;
        Ok(MemSource::new(script.to_vec(alloc)?, self.given.max(1), failing))
    }

    /// A sink that has taken nothing yet.
    pub fn sink(&self, alloc: Global) -> Result<MemSink, Memory> {
        let failing = self.sink.as_slice().to_vec(alloc)?;
        MemSink::new(alloc, self.room, self.taken.max(1), failing)
    }

    /// Sets what has this name, to the first of these numbers or to all. False: nothing has it.
    fn set(&mut self, name: &str, numbers: Vec<u64>) -> bool {
        let first = match numbers.first() {
            Some(first) => usize::try_from(*first).unwrap_or(0),
            None => 0,
        };
        match name {
            "room" => self.room = first,
            "taken" => self.taken = first,
            "given" => self.given = first,
            "sink" => self.sink = numbers,
            "source" => self.source = numbers,
            _ => return false,
        }
        true
    }
}

pub(crate) fn pipes_of(alloc: Global, words: &str) -> Result<Pipes, Fail> {
    let mut pipes = Pipes::new(alloc);
    for word in words.split(' ') {
        let (name, list) = word.split_once('=').unwrap_or((word, ""));
        let numbers = calls_of(alloc, list)?;
        if !pipes.set(name, numbers) {
            return Err(wrong("a word of pipes that is none"));
        }
    }
    Ok(pipes)
}
