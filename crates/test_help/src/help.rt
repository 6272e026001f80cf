// The help text, whole.
use rock_help::help_text;
use std::test::Fail;

/// What `--help` prints.
const HELP: &str = "\
The store of a caching proxy in one database file

Usage: rock create <NAME> <SLOT> <SLOTS>
       rock list <NAME> <SLOT>
       rock check <NAME> <SLOT> <ANCHORS>
       rock run <NAME> <SLOT> <ANCHORS> <WORKERS>
       rock bench <NAME> <SEED> <WORKERS> <COUNT>
       rock migrate <NAME> <SLOT>

Commands:
  create   Make a file of empty slots
  list     Print a line for each complete entry of a file
  check    Print one line on what a store keeps of a file
  run      Serve a script from standard input on a file, and print its answers
  bench    Serve a made script on a new file, and count its answers in one line
  migrate  Record the slots of an older file in its header area

Arguments:
  <NAME>     The file; its name does not begin with -
  <SLOT>     A slot's bytes: a multiple of 512 from 512 to 32768, - if recorded
  <SLOTS>    The slots of a new file, from 1 to 1048576
  <ANCHORS>  The anchors of a store, from 1 to the slots of the file
  <WORKERS>  The workers of the script, each with a thread, from 1 to 32
  <SEED>     The number that the script of a benchmark is made from
  <COUNT>    The rounds of a benchmark, at most 10000

Options:
      --help     Print this text
      --version  Print the version

Example:
  rock create cache.db 16384 4096
  rock list cache.db 16384
  rock check cache.db 16384 1024
  rock run cache.db 16384 1024 1 < script
  rock bench bench.db 7 1 10000
  rock migrate old.db 16384

Output:
  list     ENTRY first-slot version slots body-bytes URL
  check    slots=S kept=K used=U free=F version=G
  run      worker line answer, for each line of the script
  bench    bench requests=R hits=H misses=M stored=T purged=P none=N other=O
           bytes=B, in one line
  migrate  MIGRATED slots=S

The header area of a file may record the bytes of its slots: SLOT of list,
check and run may be - then. Before migrate list the file with the same SLOT:
a wrong one is recorded as it stands. A number is decimal, without a sign or a
leading zero. A command that does not end well says why in one line on
standard error.
Exit status:
  0 done                    6 the disk failed
  2 no command line         7 the script has a bad line
  3 out of memory           8 no such file, or a wrong size or number
  4 standard input failed   9 there is a file of that name already
  5 standard output failed
";

/// Whether a line has at most 80 characters, and no escape of a terminal nor another character that is not of ASCII.
fn is_plain(line: &str) -> bool {
    for byte in line.as_bytes() {
        if *byte < 32 || *byte > 126 {
            return false;
        }
    }
    line.len() <= 80
}

#[test]
fn the_help_is_plain_text_of_80_columns(rt: HostRuntime) -> Result<(), Fail> {
    let text = help_text(rt.alloc())?;
    assert!(rt; text.as_str() == HELP, "{text}");
    for line in text.lines() {
        assert!(rt; is_plain(line), "{line}");
    }
    Ok(())
}
