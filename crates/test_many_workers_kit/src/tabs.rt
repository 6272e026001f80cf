// The rules for the tabs of a worker: what a line on one is answered, by the lines of the worker before it.
use crate::lines::{Kind, body_of};
use crate::rules::{Answered, Told, given_in, rank_of, version_of, word};
use std::alloc::{AllocError, Global};

/// What the tab 0 of a worker, which writes, and its tab 1, which reads, are at.
#[derive(Clone, Copy)]
pub(crate) struct Tabs {
    is_writing: bool,
    reader: Option<Reader>,
}

/// A tab that reads: the version of its OPEN, how many bytes it was given since, and whether it was answered HALTED.
#[derive(Clone, Copy)]
struct Reader {
    version: u32,
    given: u32,
    is_halted: bool,
}

/// Those of a worker with no line.
pub(crate) const NO_TABS: Tabs = Tabs {
    is_writing: false,
    reader: None,
};

/// The tab that a line opened.
fn opened(answer: &str) -> Option<Reader> {
    if word(answer, 0) != "OPEN" {
        return None;
    }
    Some(Reader {
        version: word(answer, 1).parse().ok()?,
        given: 0,
        is_halted: false,
    })
}

/// Whether a word is an epoch of this version.
fn is_of(epoch: &str, version: u32) -> bool {
    match rank_of(epoch) {
        Some(rank) => version_of(rank) == version,
        None => false,
    }
}

impl Tabs {
    /// Whether a line may be answered so, and what it leaves of the tabs.
    pub(crate) fn judge(
        &mut self,
        alloc: Global,
        told: &Told<'_>,
        one: Answered<'_>,
    ) -> Result<bool, AllocError> {
        let name = word(one.answer, 0);
        let Tabs { is_writing, reader } = *self;
        match one.asked.kind {
            Kind::Begin => self.is_writing = name == "BEGUN",
            Kind::Add => self.is_writing = name == "ADDED",
            Kind::Drop => self.is_writing = false,
            Kind::Open => self.reader = opened(one.answer),
            Kind::Close => self.reader = None,
            _ => {}
        }
        match one.asked.kind {
            Kind::Add => Ok((name != "TAB") == is_writing),
            Kind::Drop => Ok((name == "DROPPED") == is_writing),
            Kind::Close => Ok((name == "CLOSED") == reader.is_some()),
            Kind::More => self.reads_on(alloc, told, one),
            _ => Ok(true),
        }
    }

    /// Whether a tab that reads may be answered so. All that it was given is the front of the body of the line that began
    /// the version of its OPEN, and at END the whole of it. What was begun on a tab was given up, and comes to no END, and
    /// nothing else comes to HALTED. Behind HALTED comes HALTED with no byte.
    fn reads_on(
        &mut self,
        alloc: Global,
        told: &Told<'_>,
        one: Answered<'_>,
    ) -> Result<bool, AllocError> {
        let Some(reader) = self.reader else {
            return Ok(one.answer == "TAB");
        };
        if reader.is_halted {
            return Ok(one.answer == "HALTED 0 -");
        }
        let Some(given) = given_in(one.answer, reader.given) else {
            return Ok(false);
        };
        let name = word(one.answer, 0);
        self.reader = Some(Reader {
            version: reader.version,
            given: given.all(),
            is_halted: name == "HALTED",
        });
        let is_part = name == "PART" && is_of(word(one.answer, 1), reader.version);
        let Some((number, began)) = told.beginning(reader.version) else {
            // its line was answered FULL, so it comes to no END
            let may_come = is_part || name == "HALTED";
            return Ok(may_come && told.gives_untold(alloc, given, one.asked.about)?);
        };
        let (length, _) = body_of(number);
        let is_begun = began.kind == Kind::Begin;
        let may_come = match name {
            "PART" => is_part && given.all() < length,
            "END" => !is_begun && given.all() == length,
            "HALTED" => is_begun && given.all() < length,
            _ => false,
        };
        Ok(may_come && given.is_of(alloc, number)?)
    }
}
