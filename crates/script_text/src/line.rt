ghost use Rattle.std.specs.Prelude.{◌≡◌, List};
ghost use Rattle.script_text.specs.declared.line.Line.{Line};

use crate::request::Request;
use std::marker::Model;

/// One line of a script.
#[derive(Debug, Drop)]
pub struct Line {
    /// Which worker it is for, from 1.
    pub worker: u32,
    /// Its place in the script, from 1.
    pub number: u32,
    pub request: Request,
}

/// Lines in order.
#[derive(Debug, Drop)]
pub struct Lines {
    lines: Vec<Line>,
}

impl Model for Lines {
    ghost Value = { List Line };

    ghost view = { λ l. l.lines.items };
}

impl Lines {
    /// Takes a vector as it is, and no memory.
    pub fn from_vec(lines: Vec<Line>) -> Self
        ensures { result ≡ lines.items }
    {
        Lines { lines }
    }

    pub fn as_slice(&self) -> &[Line]
        ensures { result.now ≡ self.now }
    {
        &self.lines
    }

    /// Gives the vector back, and takes no memory.
    pub fn into_vec(self) -> Vec<Line>
        ensures { result.items ≡ self }
    {
        self.lines
    }
}

/// A script that was read.
#[derive(Debug, Drop)]
pub struct Script {
    pub lines: Lines,
}
