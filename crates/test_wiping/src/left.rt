// What a crash may leave of the cells of a file: the complete entries of each file that it may leave.
use file_commands::{Report, print_report};
use rock_disk::MemCell;
use rock_io::MemSink;
use std::alloc::{AllocError, Global};
use std::test::Fail;
use test_stories::{Images, volume_with};

/// A line of a listing, and how many listings have it.
#[derive(Drop)]
struct Sight {
    line: String,
    count: u32,
}

/// Counts a line that one more listing has.
fn see(alloc: Global, sights: &mut Vec<Sight>, line: &str) -> Result<(), AllocError> {
    let found = sights.iter_mut().find(|sight| sight.line.as_str() == line);
    match found {
        Some(sight) => sight.count = sight.count.saturating_add(1),
        None => {
            let line = format!(in alloc; "{line}")?;
            sights.push(Sight { line, count: 1 })?;
        }
    }
    Ok(())
}

/// Counts the lines of the listing of this file.
fn list(alloc: Global, file: &[u8], sights: &mut Vec<Sight>) -> Result<(), Fail> {
    let mut volume = volume_with(alloc, file)?;
    let mut out = MemSink::new(alloc, 4096, 4096, Vec::new(alloc))?;
    print_report(
        alloc,
        &mut volume,
        &mut out,
        "db",
        Some(512),
        Report::Listing,
    );
    for line in str::from_utf8(out.taken())?.lines() {
        see(alloc, sights, line)?;
    }
    Ok(())
}

/// How many files a crash may leave of these cells, and each line of their listings behind the number of files that have it.
pub(crate) fn left_of(alloc: Global, cells: &[MemCell]) -> Result<String, Fail> {
    let images = Images::of(alloc, cells, 64)?;
    let mut sights = Vec::new(alloc);
    for number in 0..images.count() {
        let file = images.file(alloc, number)?;
        list(alloc, &file, &mut sights)?;
    }
    let count = images.count();
    let mut text = format!(in alloc; "files {count}\n")?;
    for sight in &sights {
        let Sight { line, count } = sight;
        let more = format!(in alloc; "in {count} {line}\n")?;
        text.push_str(more.as_str())?;
    }
    Ok(text)
}
