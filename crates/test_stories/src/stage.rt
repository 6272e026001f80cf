// Stories: texts that say what is done to a volume of files in memory, and what comes of it.
//
// A story is paragraphs, with an empty line between each two. Lines that begin with # are comments. The first other line of a
// paragraph says what it does:
//
// - `volume calls=0,1 stations=2/3,4`: a new volume takes the place of the one before. Its calls of these numbers fail, and
//   those of the first station that it makes, and of the second. Both lists may be left out. The lines below make up its file
//   `db` (`files.rt`). Where there are none it has no file. A report and a run make a call for the look at the header area, then
//   one to open the file, and then one for each station. `create` makes three: the file is made, and opened, and a station writes
//   and syncs its header area; so a `bench` begins.
// - `pipes room=9 taken=7 given=8 sink=0 source=1`: how many bytes the sink of the commands below takes in all and at once,
//   how many the source gives at once, and which of their calls fail.
// - `has NAME SLOTS`, `lacks NAME`: the file is there, with so many slots where these are told, or is not.
// - `bytes NAME SLOT AT HEX`: the bytes of a slot of a file, from a place on. `bytes NAME header AT HEX`: those of its header area,
//   which is a call of the volume.
// - `possible NAME SLOT COUNT`: how many contents of a slot a crash may leave.
// - `images NAME MOST`: all files that a crash may leave of this file, at most so many: of each slot any content that it may
//   leave, in each combination. Each of them is listed. The lines below tell the lines of the listings: `all ENTRY ..` stands in
//   each of them, `some ENTRY ..` in at least one and not in all, and no other line stands in any. Where a command opened the file
//   after the run, it has forgotten what a crash may leave: so this, and `possible`, stand before it is listed.
// - Anything else is a command line, which is carried out. `(no words)` is the empty one.
//
// The lines below a command line:
//
// - `1 get u0 -> HIT 1 5 68656c6c6f`: a line of the script, of worker 1, and how it is answered.
// - `< 1 get u0`: a line of the script, with no answer. `<| 1 get u0`: the same with no line feed behind it.
// - `> TEXT`: a line that is printed, behind the answers.
// - `cut 9`: only the first 9 bytes of all that are printed.
// - `= Usage 2`: how the command ends, and its code. Where there is no such line: `Done 0`.
//
// Long words may stand by their names (`texts.rt`).
ghost use Rattle.std.specs.Prelude.{◌≡◌, IfOk};
ghost use Rattle.rock_disk.specs.File.{NoneAway};
ghost use Rattle.rock_disk.specs.Memory.{volume_files};

use crate::act::Act;
use crate::files::file_of;
use crate::images::Images;
use crate::listings::Listings;
use crate::looks::holds;
use crate::numbers::{calls_of, number, stations_of, wrong};
use crate::paragraphs::uncommented;
use crate::pipes::{Pipes, pipes_of};
use rock_disk::MemVolume;
use std::alloc::Global;
use std::test::Fail;

/// A volume with these calls that fail, and with the file that the lines below make up, if there are any.
fn volume_of(alloc: Global, words: &str, below: &str) -> Result<MemVolume, Fail>
    ensures { IfOk result (λ volume. NoneAway (volume_files volume)) }
{
    let (calls, stations) = failing(words)?;
    let calls = calls_of(alloc, calls)?;
    let stations = stations_of(alloc, stations)?;
    let mut volume = MemVolume::new(alloc, calls, stations);
    if !below.is_empty() {
        volume.put_file("db", &file_of(alloc, below)?)?;
    }
    Ok(volume)
}

/// The lists of the calls that fail, of the volume and of its stations. Either may be empty.
fn failing(words: &str) -> Result<(&str, &str), Fail> {
    let mut calls = "";
    let mut stations = "";
    for word in words.split(' ') {
        let (name, list) = word.split_once('=').unwrap_or((word, ""));
        match name {
            "" => {}
            "calls" => calls = list,
            "stations" => stations = list,
            _ => return Err(wrong("a word of a volume that is none")),
        }
    }
    Ok((calls, stations))
}

/// A command line, what it is given, and what is to come of it.
#[derive(Drop)]
pub struct Command<'a> {
    /// The line as the story has it.
    pub line: &'a str,
    pub script: Vec<u8>,
    /// All that is to be printed.
    pub wanted: Vec<u8>,
    /// How it is to end, and its code.
    pub status: &'a str,
}

impl Command<'_> {
    /// The words of the command line, with one space between each two.
    pub fn words(&self) -> &str {
        if self.line == "(no words)" {
            ""
        } else {
            self.line
        }
    }
}

/// What a crash may leave of a file, and what the listings of that are to have.
#[derive(Drop)]
pub struct Crashes<'a> {
    /// The line as the story has it.
    pub line: &'a str,
    pub images: Images,
    pub listings: Listings,
}

/// What a test is to do itself: to carry out a command, or to list files.
#[derive(Drop)]
pub enum Task<'a> {
    Command(Command<'a>),
    Crashes(Crashes<'a>),
}

/// A volume, and what the commands of a story run over beside it.
#[derive(Drop)]
pub struct Stage {
    pub volume: MemVolume,
    pub pipes: Pipes,
    /// The anchors of the last command that named some.
    anchors: u32,
    /// How many commands there were.
    commands: u32,
}

impl Stage {
    /// An empty volume.
    pub fn new(alloc: Global) -> Stage
        ensures { NoneAway (volume_files result.volume) }
    {
        Stage {
            volume: MemVolume::new(alloc, Vec::new(alloc), Vec::new(alloc)),
            pipes: Pipes::new(alloc),
            anchors: 1,
            commands: 0,
        }
    }

    /// How many commands there were.
    pub fn commands(&self) -> u32 {
        self.commands
    }

    /// Does what a paragraph says, or answers what is to be done by the test. A command is to be carried out over the volume.
    pub fn play<'a>(&mut self, alloc: Global, paragraph: &'a str) -> Result<Option<Task<'a>>, Fail>
        requires { NoneAway (volume_files self.old.volume) }
        ensures { NoneAway (volume_files self.new.volume) }
    {
        let text = uncommented(paragraph);
        let (head, below) = text.split_once('\n').unwrap_or((text, ""));
        let (word, rest) = head.split_once(' ').unwrap_or((head, ""));
        match word {
            "" => {}
            "volume" => {
                self.volume = volume_of(alloc, rest, below)?;
                self.pipes = Pipes::new(alloc);
            }
            "pipes" => self.pipes = pipes_of(alloc, rest)?,
            "has" | "lacks" | "bytes" | "possible" => self.look(alloc, head)?,
            "images" => {
                let crashes = self.crashes(alloc, head, below)?;
                return Ok(Some(Task::Crashes(crashes)));
            }
            _ => {
                let command = self.command(alloc, head, below)?;
                return Ok(Some(Task::Command(command)));
            }
        }
        Ok(None)
    }

    /// Looks at what the volume has.
    fn look(&mut self, alloc: Global, words: &str) -> Result<(), Fail>
        requires { NoneAway (volume_files self.old.volume) }
        ensures { NoneAway (volume_files self.new.volume) }
    {
        if holds(alloc, &mut self.volume, words)? {
            Ok(())
        } else {
            Err(Fail::new(words))
        }
    }

    /// What a crash may leave of the file of this line, and what the lines below say of it.
    fn crashes<'a>(&self, alloc: Global, line: &'a str, below: &str) -> Result<Crashes<'a>, Fail> {
        let name = line.split(' ').nth(1).unwrap_or("");
        let most = number(line.split(' ').nth(2).unwrap_or(""))?;
        let Some(cells) = self.volume.cells(name) else {
            return Err(wrong("the file is not in the volume"));
        };
        Ok(Crashes {
            line,
            images: Images::of(alloc, cells, most)?,
            listings: Listings::read(alloc, below, self.anchors)?,
        })
    }

    /// The command of this line, with what the lines below say.
    fn command<'a>(
        &mut self,
        alloc: Global,
        line: &'a str,
        below: &'a str,
    ) -> Result<Command<'a>, Fail>
        ensures { self.new.volume ≡ self.old.volume }
    {
        if line.starts_with("run ") {
            let named = line.split(' ').nth(3).unwrap_or("");
            self.anchors = named.parse().unwrap_or(self.anchors);
        }
        self.commands = self.commands.saturating_add(1);
        let act = Act::read(alloc, below, self.anchors)?;
        let wanted = act.wanted(alloc, self.anchors)?;
        let Act { script, status, .. } = act;
        Ok(Command {
            line,
            script,
            wanted,
            status,
        })
    }
}
