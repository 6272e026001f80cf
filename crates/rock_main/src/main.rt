//! The program `rock`: the store of a caching proxy in one database file.
//!
//! The call [`rock_commands::rock`] carries out a command line over any volume, and `main` makes it over the
//! files of the system. A run that does not end well says so in one line on standard error.
#![tactic(auto)]

mod run;

use rock_file::{Access, FileVolume, Retried};
use rock_help::{Asked, help_text};
use rock_io::{StdSink, StdSource, Words};
use rock_status::Status;
use run::{end, run};
use std::alloc::AllocError;
use std::env;
use std::io::ErrorKind;
use std::process::ExitCode;
use std::rt::Env;

/// What `rock --version` prints.
const VERSION: &str = "rock 0.1.0\n";

fn main(rt: HostRuntime) -> ExitCode {
    let alloc = rt.alloc();
    let words = match words_of(&rt) {
        Ok(words) => words,
        Err(status) => return end(&rt, alloc, &status, &Asked::NOTHING),
    };
    match words.as_slice() {
        [word] if word.as_str() == "--help" => print_help(&rt),
        [word] if word.as_str() == "--version" => print_text(&rt, VERSION),
        _ => {
            let mut volume = FileVolume::new(&rt, alloc, access_of(&words));
            let mut script = StdSource::new(Retried::new(rt.stdin()));
            let mut out = StdSink::new(Retried::new(rt.stdout()));
            run(&rt, alloc, &words, &mut volume, &mut script, &mut out)
        }
    }
}

/// The command line without the program's own name. A word that is no text makes it none of ours.
fn words_of<R: Env + AllocGlobal>(rt: &R) -> Result<Words, Status> {
    match env::args(rt) {
        Ok(args) => Ok(Words::from_vec(
            args.skip(1)
                .collect(rt.alloc())
                .map_err(|_| Status::Memory)?,
        )),
        Err(error) if error.kind() == ErrorKind::OutOfMemory => Err(Status::Memory),
        Err(_) => Err(Status::Usage),
    }
}

/// What a command does with its file: `list` and `check` read it alone.
fn access_of(words: &Words) -> Access {
    match words.as_slice() {
        [command, ..] if command.as_str() == "list" || command.as_str() == "check" =>
            Access::Reading,
        _ => Access::Writing,
    }
}

/// Prints the help text.
fn print_help<R: Print + Eprint + AllocGlobal>(rt: &R) -> ExitCode {
    match help_text(rt.alloc()) {
        Ok(text) => print_text(rt, text.as_str()),
        Err(AllocError) => end(rt, rt.alloc(), &Status::Memory, &Asked::NOTHING),
    }
}

/// Prints a text that was asked for by itself.
fn print_text<R: Print + Eprint + AllocGlobal>(rt: &R, text: &str) -> ExitCode {
    match rt.print(text) {
        Ok(()) => ExitCode::SUCCESS,
        Err(_) => end(rt, rt.alloc(), &Status::SinkFault, &Asked::NOTHING),
    }
}
