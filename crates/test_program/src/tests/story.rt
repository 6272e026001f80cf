// Stories are played: texts that say what is done to a volume of files in memory, and what comes of it. `test_stories` tells
// their form.
ghost use Rattle.rock_disk.specs.File.{NoneAway};
ghost use Rattle.rock_disk.specs.Memory.{volume_files};

use super::calls::call;
use std::alloc::Global;
use std::ops::Range;
use std::process::Abort;
use std::sync::Wait;
use std::test::Fail;
use std::thread::Threads;
use test_stories::{Command, Crashes, Pipes, Stage, Task, volume_with, with_number};

/// Carries out a command, and compares how it ends and what it prints.
fn carry_out<R: Abort + Threads + Wait + Sync>(
    rt: &R,
    alloc: Global,
    stage: &mut Stage,
    command: &Command<'_>,
) -> Result<(), Fail>
    requires { NoneAway (volume_files stage.old.volume) }
    ensures { NoneAway (volume_files stage.new.volume) }
{
    let ended = call(
        rt,
        alloc,
        &mut stage.volume,
        &stage.pipes,
        command.words(),
        &command.script,
    )?;
    let line = command.line;
    let status = ended.status_text(alloc)?;
    assert_eq!(rt; status.as_str(), command.status, "{line}");
    assert_eq!(rt;
        std::str::from_utf8(&ended.printed),
        std::str::from_utf8(&command.wanted),
        "{line}"
    );
    Ok(())
}

/// Lists each file that a crash may leave, and compares what they list.
fn list_images<R: Abort + Threads + Wait + Sync>(
    rt: &R,
    alloc: Global,
    mut crashes: Crashes<'_>,
) -> Result<(), Fail> {
    let pipes = Pipes::new(alloc);
    let list = format!(in alloc; "list db {}", crashes.images.width())?;
    for number in 0..crashes.images.count() {
        let file = crashes.images.file(alloc, number)?;
        let mut volume = volume_with(alloc, &file)?;
        let ended = call(rt, alloc, &mut volume, &pipes, list.as_str(), b"")?;
        assert_eq!(rt; ended.status_text(alloc)?.as_str(), "Done 0", "{number}");
        crashes
            .listings
            .see(std::str::from_utf8(&ended.printed).unwrap_or(""))?;
    }
    crashes.listings.judge()
}

/// Plays a story. At least one command is carried out.
pub(super) fn plays<R: Abort + Threads + Wait + Sync>(
    rt: &R,
    alloc: Global,
    story: &str,
) -> Result<(), Fail> {
    let mut stage = Stage::new(alloc);
    for paragraph in story.split("\n\n") {
        match stage.play(alloc, paragraph)? {
            Some(Task::Command(command)) => carry_out(rt, alloc, &mut stage, &command)?,
            Some(Task::Crashes(crashes)) => list_images(rt, alloc, crashes)?,
            None => {}
        }
    }
    assert!(rt; stage.commands() > 0);
    Ok(())
}

/// Plays a story once for each of these numbers, which stands where the text has `@`.
pub(super) fn plays_each<R: Abort + Threads + Wait + Sync>(
    rt: &R,
    alloc: Global,
    numbers: Range<u32>,
    story: &str,
) -> Result<(), Fail> {
    for number in numbers {
        let text = with_number(alloc, story, number)?;
        plays(rt, alloc, text.as_str())?;
    }
    Ok(())
}
