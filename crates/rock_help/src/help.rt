// The help text, rendered by `clap`. `clap` reads no command line here: the program has its own table of commands, and this
// says the same to people.
use clap::{Arg, ArgAction, Command};
use std::alloc::{AllocError, Global};

const USAGE: &str = "\
rock create <NAME> <SLOT> <SLOTS>
       rock list <NAME> <SLOT>
       rock check <NAME> <SLOT> <ANCHORS>
       rock run <NAME> <SLOT> <ANCHORS> <WORKERS>
       rock bench <NAME> <SEED> <WORKERS> <COUNT>
       rock migrate <NAME> <SLOT>";

/// What stands behind the lists of commands and words.
const NOTES: &str = "\
Example:
  rock create cache.db 16384 4096
  rock list cache.db 16384
  rock check cache.db 16384 1024
  rock run cache.db 16384 1024 1 < script
  rock bench bench.db 7 1 10000
  rock migrate old.db 16384

Output:
  list     ENTRY first-slot version slots body-bytes URL
  check    slots=S kept=K used=U free=F version=G
  run      worker line answer, for each line of the script
  bench    bench requests=R hits=H misses=M stored=T purged=P none=N other=O
           bytes=B, in one line
  migrate  MIGRATED slots=S

The header area of a file may record the bytes of its slots: SLOT of list,
check and run may be - then. Before migrate list the file with the same SLOT:
a wrong one is recorded as it stands. A number is decimal, without a sign or a
leading zero. A command that does not end well says why in one line on
standard error.
Exit status:
  0 done                    6 the disk failed
  2 no command line         7 the script has a bad line
  3 out of memory           8 no such file, or a wrong size or number
  4 standard input failed   9 there is a file of that name already
  5 standard output failed";

/// What `rock --help` prints, and what follows a command line that is none: plain text in lines of at most
/// 80 characters.
pub fn help_text(alloc: Global) -> Result<String, AllocError> {
    with_words(alloc, with_commands(alloc)?)?.render_help()
}

/// The program and its commands.
fn with_commands<'a>(alloc: Global) -> Result<Command<'a>, AllocError> {
    let create = Command::new(alloc, "create").about("Make a file of empty slots");
    let list = Command::new(alloc, "list").about("Print a line for each complete entry of a file");
    let check = Command::new(alloc, "check").about(
        "Print one line on what a store keeps of a file",
    );
    let run = Command::new(alloc, "run").about(
        "Serve a script from standard input on a file, and print its answers",
    );
    let bench = Command::new(alloc, "bench").about(
        "Serve a made script on a new file, and count its answers in one line",
    );
    let migrate = Command::new(alloc, "migrate").about(
        "Record the slots of an older file in its header area",
    );
    Command::new(alloc, "rock")
        .about("The store of a caching proxy in one database file")
        .override_usage(USAGE)
        .after_help(NOTES)
        .disable_help_flag(true)
        .disable_help_subcommand(true)
        .subcommand(create)?
        .subcommand(list)?
        .subcommand(check)?
        .subcommand(run)?
        .subcommand(bench)?
        .subcommand(migrate)
}

/// The words of the commands, and those that stand alone.
fn with_words<'a>(alloc: Global, command: Command<'a>) -> Result<Command<'a>, AllocError> {
    let words = [
        ("NAME", "The file; its name does not begin with -"),
        (
            "SLOT",
            "A slot's bytes: a multiple of 512 from 512 to 32768, - if recorded",
        ),
        ("SLOTS", "The slots of a new file, from 1 to 1048576"),
        (
            "ANCHORS",
            "The anchors of a store, from 1 to the slots of the file",
        ),
        (
            "WORKERS",
            "The workers of the script, each with a thread, from 1 to 32",
        ),
        (
            "SEED",
            "The number that the script of a benchmark is made from",
        ),
        ("COUNT", "The rounds of a benchmark, at most 10000"),
    ];
    let mut command = command;
    for (word, help) in words {
        let word = Arg::new(alloc, word).required(true).help(help);
        command = command.arg(word)?;
    }
    let alone = [
        ("help", "Print this text"),
        ("version", "Print the version"),
    ];
    for (word, help) in alone {
        let word = Arg::new(alloc, word)
            .long(word)
            .action(ArgAction::SetTrue)
            .help(help);
        command = command.arg(word)?;
    }
    Ok(command)
}
