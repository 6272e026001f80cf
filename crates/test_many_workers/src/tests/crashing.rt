// What a crash may leave of a file that three workers stored in.
ghost use Rattle.std.specs.Prelude.{IfOk};
ghost use Rattle.rock_disk.specs.File.{NoneAway};
ghost use Rattle.rock_disk.specs.Memory.{volume_files};

use super::calls::call;
use rock_disk::MemVolume;
use rock_status::Status;
use std::alloc::Global;
use std::process::Abort;
use std::sync::Wait;
use std::test::Fail;
use std::thread::Threads;
use test_many_workers_kit::Offers;
use test_stories::{Images, Pipes, file_of, volume_with};

/// The file before the run, and a line that offers what it has. It has eight slots.
const FILE: &str = "\
entry 3 http://a/05 before
empty
empty
empty
empty
empty
empty
empty
";

const BEFORE: &str = "0 put http://a/05 =before";

/// What three workers ask. For what is put or given up 12 slots are written, which are not synced, and a call that fails may leave
/// one more. A slot that was written n times since it was synced has n + 1 contents. So 13 such writes to eight slots leave at most
/// 3 * 3 * 3 * 3 * 3 * 2 * 2 * 2 images, which are 1,944.
const SCRIPT: &str = "\
1 save http://a/00 =one
2 put http://a/01 =two
3 save http://a/02 #700:0
1 get http://a/00
2 get http://a/02
3 put http://a/00 #500:1
1 put http://a/03 #500:2
2 save http://a/03 =three
3 get http://a/05
1 begin 0 http://a/04 #900:3
2 begin 1 http://a/06 #901:4
3 wipe http://a/00
1 add 0 600
2 add 1 700
3 save http://a/07 =four
1 drop 0
2 drop 1
3 get http://a/07
1 save http://a/04 #430:5
2 purge http://a/04
3 save http://a/01 #431:6
1 get http://a/01
2 save http://a/00 =five
3 wipe http://a/02
1 wipe http://a/03
2 get http://a/03
3 begin 2 http://a/03 =six
1 save http://a/06 =seven
2 put http://a/07 =eight
3 drop 2
1 get http://a/06
2 get http://a/07
3 save http://a/03 =nine
1 begin 3 http://a/02 #472:7
2 save http://a/02 #902:8
3 get http://a/03
1 add 3 471
2 wipe http://a/06
3 put http://a/06 =ten
1 drop 3
2 save http://a/05 =eleven
3 save http://a/04 =twelve
1 save http://a/01 =thirteen
2 get http://a/05
3 get http://a/04
1 purge http://a/05
2 save http://a/06 #429:9
3 wipe http://a/01
1 save http://a/05 =fourteen
2 get http://a/06
3 save http://a/00 #30:10
1 get http://a/05
2 wipe http://a/00
3 put http://a/01 =fifteen
1 put http://a/02 =sixteen
2 save http://a/07 =seventeen
3 get http://a/01
1 get http://a/02
2 get http://a/07
3 save http://a/03 #31:11
";

/// How often something was looked at.
#[derive(Drop)]
struct Looks {
    runs: u32,
    images: u32,
    entries: u32,
    wiped: usize,
}

/// Whether a line was answered WIPED of this version.
fn is_wiped(printed: &str, version: &str) -> bool {
    for line in printed.lines() {
        let mut words = line.split(' ').skip(2);
        let is_answer = words.next() == Some("WIPED");
        let (wiped, _) = words
            .next()
            .and_then(|epoch| epoch.split_once('.'))
            .unwrap_or(("", ""));
        if is_answer && wiped == version {
            return true;
        }
    }
    false
}

/// A volume with the file, in which this call of this station fails. The first station is that of the rebuild.
fn failing(alloc: Global, station: u32, failed: u64) -> Result<MemVolume, Fail>
    ensures { IfOk result (λ volume. NoneAway (volume_files volume)) }
{
    let mut stations = Vec::new(alloc);
    for _ in 0..station {
        stations.push(Vec::new(alloc))?;
    }
    let mut list = Vec::new(alloc);
    list.push(failed)?;
    stations.push(list)?;
    let mut volume = MemVolume::new(alloc, Vec::new(alloc), stations);
    volume.put_file("db", &file_of(alloc, FILE)?)?;
    Ok(volume)
}

/// Looks at each file that a crash may leave: each entry that it lists is one of the file before, or of the script, and of no version
/// that was wiped.
fn look<R: Abort + Threads + Wait + Sync>(
    rt: &R,
    alloc: Global,
    images: &Images,
    offers: &Offers<'_>,
    printed: &str,
    looks: &mut Looks,
) -> Result<(), Fail> {
    let pipes = Pipes::new(alloc);
    for number in 0..images.count() {
        let file = images.file(alloc, number)?;
        let mut volume = volume_with(alloc, &file)?;
        let ended = call(rt, alloc, &mut volume, &pipes, "list db 512", b"")?;
        assert_eq!(rt; ended.status, Status::Done);
        for entry in std::str::from_utf8(&ended.printed).unwrap_or("").lines() {
            assert!(rt; offers.has(alloc, &file, entry)?, "{entry}");
            let version = entry.split(' ').nth(2).unwrap_or("");
            assert!(rt; !is_wiped(printed, version), "{entry}");
            looks.entries = looks.entries.saturating_add(1);
        }
        looks.images = looks.images.saturating_add(1);
    }
    Ok(())
}

/// Runs the script where this call of this station fails, and looks at what a crash may leave. Answers whether the call was made.
fn crash<R: Abort + Threads + Wait + Sync>(
    rt: &R,
    alloc: Global,
    station: u32,
    failed: u64,
    offers: &Offers<'_>,
    looks: &mut Looks,
) -> Result<bool, Fail> {
    let pipes = Pipes::new(alloc);
    let mut volume = failing(alloc, station, failed)?;
    let ended = call(
        rt,
        alloc,
        &mut volume,
        &pipes,
        "run db 512 4 3",
        SCRIPT.as_bytes(),
    )?;
    assert_eq!(rt; ended.status, Status::Done);
    let Some(cells) = volume.cells("db") else {
        return Err(Fail::from("the file is not in the volume"));
    };
    let images = Images::of(alloc, cells, 4_096)?;
    let printed = std::str::from_utf8(&ended.printed).unwrap_or("");
    look(rt, alloc, &images, offers, printed, looks)?;
    let wiped = printed
        .lines()
        .filter(|line| line.contains(" WIPED "))
        .count();
    looks.wiped = looks.wiped.saturating_add(wiped);
    looks.runs = looks.runs.saturating_add(1);
    Ok(volume.ended().iter().any(|faults| *faults > 0))
}

/// Each call of each worker's station fails in turn, until none is made that could.
#[test]
fn a_crash_leaves_responses_of_the_script(rt: HostRuntime) -> Result<(), Fail> {
    let alloc = rt.alloc();
    let offered = format!(in alloc; "{BEFORE}\n{SCRIPT}")?;
    let offers = Offers::of(alloc, offered.as_str())?;
    let mut looks = Looks {
        runs: 0,
        images: 0,
        entries: 0,
        wiped: 0,
    };
    for station in 1..4u32 {
        for failed in 0..100u64 {
            if !crash(&rt, alloc, station, failed, &offers, &mut looks)? {
                break;
            }
        }
    }
    // The stations of three workers make more than 40 calls together. How many images a run leaves depends on how its workers
    // take turns, but some run leaves several, these list entries, and in some run an entry is wiped.
    assert!(rt; looks.runs > 40, "{}", looks.runs);
    assert!(rt; looks.images > looks.runs, "{}", looks.images);
    assert!(rt; looks.entries > looks.images, "{}", looks.entries);
    assert!(rt; looks.wiped > 0);
    Ok(())
}
