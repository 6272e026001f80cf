// What stands below a command line.
use crate::numbers::{number, wrong};
use crate::texts::push_text;
use std::alloc::{AllocError, Global};
use std::test::Fail;

/// What a command is given, and what is to come of it.
#[derive(Drop)]
pub struct Act<'a> {
    pub script: Vec<u8>,
    /// How many lines the script has.
    lines: u32,
    /// The greatest worker who is answered.
    workers: u32,
    /// The answers, each with its worker and the number of its line.
    answers: Vec<(u32, u32, &'a str)>,
    /// What is printed behind the answers.
    printed: Vec<u8>,
    /// How many bytes of all that are printed, if not all.
    cut: Option<usize>,
    pub status: &'a str,
}

impl<'a> Act<'a> {
    fn new(alloc: Global) -> Act<'a> {
        Act {
            script: Vec::new(alloc),
            lines: 0,
            workers: 0,
            answers: Vec::new(alloc),
            printed: Vec::new(alloc),
            cut: None,
            status: "Done 0",
        }
    }

    /// What the lines below a command say, for a store with so many anchors.
    pub fn read(alloc: Global, lines: &'a str, anchors: u32) -> Result<Act<'a>, Fail> {
        let mut act = Act::new(alloc);
        for line in lines.lines() {
            act.add(alloc, line, anchors)?;
        }
        Ok(act)
    }

    /// Adds a line of the script, and its end.
    fn ask(
        &mut self,
        alloc: Global,
        line: &str,
        end: &[u8],
        anchors: u32,
    ) -> Result<(), AllocError> {
        self.lines = self.lines.saturating_add(1);
        push_text(alloc, &mut self.script, line, anchors)?;
        self.script.extend_from_slice(end)
    }

    /// Adds a line of the script and its answer.
    fn ask_and_answer(&mut self, alloc: Global, line: &'a str, anchors: u32) -> Result<(), Fail> {
        let Some((request, answer)) = line.split_once(" -> ") else {
            return Err(wrong("a line of a story that is none"));
        };
        let (worker, _asked) = request.split_once(' ').unwrap_or(("", ""));
        let worker = number(worker)?;
        self.workers = self.workers.max(worker);
        self.ask(alloc, request, b"\n", anchors)?;
        self.answers.push((worker, self.lines, answer))?;
        Ok(())
    }

    /// Adds what a line below a command says.
    fn add(&mut self, alloc: Global, line: &'a str, anchors: u32) -> Result<(), Fail> {
        let (kind, rest) = line.split_once(' ').unwrap_or((line, ""));
        match kind {
            "#" => {}
            "<" => self.ask(alloc, rest, b"\n", anchors)?,
            "<|" => self.ask(alloc, rest, b"", anchors)?,
            ">" => {
                push_text(alloc, &mut self.printed, rest, anchors)?;
                self.printed.push(b'\n')?;
            }
            "cut" => self.cut = Some(number(rest)? as usize),
            "=" => self.status = rest,
            _ => self.ask_and_answer(alloc, line, anchors)?,
        }
        Ok(())
    }

    /// Adds the answers of a worker.
    fn push_answers(
        &self,
        alloc: Global,
        text: &mut Vec<u8>,
        worker: u32,
        anchors: u32,
    ) -> Result<(), AllocError> {
        for (asker, line, answer) in self.answers.as_slice() {
            if *asker == worker {
                text.extend_from_slice(format!(in alloc; "{worker} {line} ")?.as_bytes())?;
                push_text(alloc, text, answer, anchors)?;
                text.push(b'\n')?;
            }
        }
        Ok(())
    }

    /// All that is to be printed: the answers of the first worker in order, then those of the second, and so on.
    pub fn wanted(&self, alloc: Global, anchors: u32) -> Result<Vec<u8>, AllocError> {
        let mut text = Vec::new(alloc);
        for worker in 0..=self.workers {
            self.push_answers(alloc, &mut text, worker, anchors)?;
        }
        text.extend_from_slice(self.printed.as_slice())?;
        text.truncate(self.cut.unwrap_or(usize::MAX));
        Ok(text)
    }
}
