// Scripts of two workers, of whom the second one purges durably, and what comes of that.
ghost use Rattle.std.specs.Prelude.{IfOk, IfSome};
ghost use Rattle.rock_disk.specs.File.{NoneAway};
ghost use Rattle.rock_disk.specs.Memory.{volume_files};
ghost use Rattle.rock_run.specs.Scripts.{MayBeServed};

use crate::left::left_of;
use crate::serving::left_by;
use rock_disk::MemVolume;
use rock_io::MemSource;
use rock_open::Counted;
use rock_run::read_scripts_may_be_served;
use script_text::{Script, read_script};
use std::alloc::{AllocError, Global};
use std::sync::Wait;
use std::test::Fail;
use test_stories::file_of;

// Rows. Their lines are:
//
// - `slots COUNT`: how many slots the store has; it has one anchor;
// - `file LINE`: what the file has at first, by `file_of` of `test_stories`; the other slots are zeros;
// - `fails CALL`: the call of the second worker's station that fails, from 0 on;
// - `do LINE`: a line of the script; a purge of the second worker is a durable one;
// - `told LINE`: what is told: what came of each durable purge, how many slots are free once both workers have left all tabs and
//   the store is closed, how many files a crash may leave then, and in how many of these an entry is complete.
const ROWS: &str = "\
slots 4
do 1 save http://a/b =x
do 2 purge http://a/b
do 2 purge http://a/b
told WIPED 1 Closed doomed
told NONE absent 1 Gone doomed
told free 4
told files 1

slots 4
do 1 put http://a/b =x
do 2 purge http://a/b
told WIPED 1 Closed doomed
told free 4
told files 1

slots 4
do 1 save http://a/b =x
do 1 purge http://a/b
do 2 purge http://a/b
told NONE absent 1 Gone doomed
told free 4
told files 1
told in 1 ENTRY 0 1 1 1 http://a/b

slots 4
do 1 save http://a/b =x
do 1 open 0 http://a/b
do 2 purge http://a/b
do 2 purge http://a/b
do 1 close 0
do 2 purge http://a/b
told LATER 1 Closed doomed
told NONE leaving 1 Closed doomed
told NONE absent 1 Gone doomed
told free 4
told files 1
told in 1 ENTRY 0 1 1 1 http://a/b

slots 4
do 1 begin 0 http://a/b #901:0
do 2 purge http://a/b
do 1 add 0 500
do 2 purge http://a/b
do 1 end 0
told NONE writing 1 Taken
told LATER 1 Appending doomed
told free 4
told files 4
told in 1 ENTRY 0 1 2 901 http://a/b

slots 4
do 1 save http://a/b =x
do 2 purge http://a/c
do 2 purge http://a/b
told NONE other 1 Closed
told WIPED 1 Closed doomed
told free 4
told files 1

slots 4
fails 0
do 1 save http://a/b =x
do 2 purge http://a/b
do 2 purge http://a/b
told FAULT
told NONE absent 1 Gone doomed
told free 4
told files 2
told in 1 ENTRY 0 1 1 1 http://a/b

slots 4
fails 1
do 1 save http://a/b =x
do 2 purge http://a/b
told FAULT
told free 4
told files 2
told in 1 ENTRY 0 1 1 1 http://a/b

slots 4
fails 2
do 1 save http://a/b =x
do 2 purge http://a/b
do 1 save http://a/b =y
do 2 purge http://a/b
told WIPED 1 Closed doomed
told FAULT
told free 4
told files 2
told in 1 ENTRY 0 2 1 1 http://a/b

slots 8
do 1 save http://a/b #1300:0
do 2 purge http://a/b
told WIPED 1 Closed doomed
told free 8
told files 1

slots 8
do 1 save http://a/b #1300:0
do 2 purge http://a/b
do 1 save http://a/c #901:0
told WIPED 1 Closed doomed
told free 6
told files 1
told in 1 ENTRY 0 2 2 901 http://a/c

slots 4
file empty
file entry 5 http://a/b old
do 2 purge http://a/b
told WIPED 5 Closed doomed
told free 4
told files 1

slots 4
file entry 5 http://a/b old
file entry 7 http://a/b new
do 2 purge http://a/b
told WIPED 7 Closed doomed
told free 4
told files 1
told in 1 ENTRY 0 5 1 3 http://a/b

slots 4
file entry 5 http://a/b old
file entry 5 http://a/c new
do 2 purge http://a/b
told WIPED 5 Closed doomed
told free 4
told files 1
told in 1 ENTRY 1 5 1 3 http://a/c";

/// The lines of a row that begin with this word, without it.
fn part(alloc: Global, row: &str, word: &str) -> Result<String, AllocError> {
    let mut text = String::new(alloc);
    for line in row.lines() {
        if let Some((kind, rest)) = line.split_once(' ') {
            if kind == word {
                text.push_str(rest)?;
                text.push_str("\n")?;
            }
        }
    }
    Ok(text)
}

/// The number that a row has behind this word. There is none where it has no such line.
fn number(alloc: Global, row: &str, word: &str) -> Result<Option<u16>, Fail> {
    let text = part(alloc, row, word)?;
    match text.as_str().strip_suffix("\n") {
        Some(digits) => Ok(Some(digits.parse()?)),
        None => Ok(None),
    }
}

/// The script of a row.
fn script_of(alloc: Global, row: &str) -> Result<Script, Fail>
    ensures { IfOk result (λ script. MayBeServed 2 script.lines) }
{
    read_scripts_may_be_served();
    let text = part(alloc, row, "do")?;
    let bytes = text.as_bytes().to_vec(alloc)?;
    let mut source = MemSource::new(bytes, 4096, Vec::new(alloc));
    Ok(
        read_script(alloc, &mut source, 2)
            .ok()
            .ok_or("the script was not read")?,
    )
}

/// The calls that fail, of each station that is made: of the third one, the second worker's, the one of this row.
fn failing(alloc: Global, call: Option<u16>) -> Result<Vec<Vec<u64>>, AllocError> {
    let mut lists = Vec::new(alloc);
    lists.push(Vec::new(alloc))?;
    lists.push(Vec::new(alloc))?;
    let mut calls = Vec::new(alloc);
    if let Some(call) = call {
        calls.push(u64::from(call))?;
    }
    lists.push(calls)?;
    Ok(lists)
}

/// A volume with the file of a row, whose name is `db`.
fn volume_of(alloc: Global, row: &str) -> Result<MemVolume, Fail>
    ensures { IfOk result (λ volume. NoneAway (volume_files volume)) }
{
    let slots = number(alloc, row, "slots")?.ok_or("a row has slots")?;
    let call = number(alloc, row, "fails")?;
    let mut bytes = file_of(alloc, part(alloc, row, "file")?.as_str())?;
    let length = 16384 + 512 * (slots as usize);
    bytes.resize(length, 0)?;
    let mut volume = MemVolume::new(alloc, Vec::new(alloc), failing(alloc, call)?);
    volume.put_file("db", &bytes)?;
    Ok(volume)
}

/// What is told of a row.
fn told_of<R: Wait>(rt: &R, alloc: Global, row: &str) -> Result<String, Fail> {
    let script = script_of(alloc, row)?;
    let mut volume = volume_of(alloc, row)?;
    let mut told = String::new(alloc);
    let Counted { cells, free, .. } = left_by(rt, alloc, &mut volume, 1, &script, &mut told).ok_or(
        "the store was not opened",
    )?;
    let line = format!(in alloc; "free {free}\n")?;
    told.push_str(line.as_str())?;
    told.push_str(left_of(alloc, &cells)?.as_str())?;
    Ok(told)
}

#[test]
fn purges_are_durable_as_tabled(rt: HostRuntime) -> Result<(), Fail> {
    assert_eq!(rt; ROWS.split("\n\n").count(), 14);
    for row in ROWS.split("\n\n") {
        let told = told_of(&rt, rt.alloc(), row)?;
        let wanted = part(rt.alloc(), row, "told")?;
        assert_eq!(rt; told.as_str(), wanted.as_str(), "{row}");
    }
    Ok(())
}
