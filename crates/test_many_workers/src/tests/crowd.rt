// Many workers at once. What each is answered depends on the others, and is judged by rules.
ghost use Rattle.std.specs.Prelude.{IsTrue, ◌<◌};
ghost use Rattle.rock_disk.specs.File.{NoneAway};

use super::calls::call;
use rock_disk::{MemVolume, Volume};
use rock_status::Status;
use std::alloc::Global;
use std::process::Abort;
use std::sync::Wait;
use std::test::Fail;
use std::thread::Threads;
use test_many_workers_kit::{Asked, Kind, WORKERS, judge, lines_about, script_of};
use test_stories::Pipes;

/// How many workers run over how many slots, with how many anchors.
#[derive(Clone, Copy)]
struct Sizes {
    workers: u32,
    slots: u32,
    anchors: u32,
}

/// Runs lines of so many workers over a new file of so many slots. Tells what is printed.
fn printed_by<R: Abort + Threads + Wait + Sync, V: Volume>(
    rt: &R,
    alloc: Global,
    volume: &mut V,
    lines: &[Asked],
    sizes: Sizes,
) -> Result<String, Fail>
where
    V::St: Send,
    requires home { IsTrue V.tells → NoneAway (V.files volume.old) }
    ensures back { IsTrue V.tells → NoneAway (V.files volume.new) }
{
    let Sizes {
        workers,
        slots,
        anchors,
    } = sizes;
    let pipes = Pipes::new(alloc);
    let create = format!(in alloc; "create db 512 {slots}")?;
    let made = call(rt, alloc, volume, &pipes, create.as_str(), b"")?;
    assert_eq!(rt; made.status, Status::Done);
    let run = format!(in alloc; "run db 512 {anchors} {workers}")?;
    let script = script_of(alloc, lines)?;
    let ended = call(rt, alloc, volume, &pipes, run.as_str(), &script)?;
    assert_eq!(rt; ended.status, Status::Done);
    let Ok(printed) = std::str::from_utf8(&ended.printed) else {
        return Err(Fail::from("answers are text"));
    };
    Ok(String::from_str(alloc, printed)?)
}

/// Runs such a script over a new file of so many slots, and judges what is printed. Another run finds what the first worker
/// stored at last. Tells how many lines were answered FULL, and how many showed an entry that gave way.
fn crowds<R: Abort + Threads + Wait + Sync>(
    rt: &R,
    alloc: Global,
    slots: u32,
    anchors: u32,
    urls: u32,
) -> Result<(u32, u32), Fail>
    requires { 0 < urls }
{
    let lines = lines_about(alloc, urls)?;
    let mut volume = MemVolume::new(alloc, Vec::new(alloc), Vec::new(alloc));
    let sizes = Sizes {
        workers: WORKERS,
        slots,
        anchors,
    };
    let printed = printed_by(rt, alloc, &mut volume, &lines, sizes)?;
    let judged = judge(alloc, &lines, anchors, slots, printed.as_str())?;
    let pipes = Pipes::new(alloc);
    let again = format!(in alloc; "run db 512 {anchors} 1")?;
    let ended = call(
        rt,
        alloc,
        &mut volume,
        &pipes,
        again.as_str(),
        b"1 get http://a/00",
    )?;
    let last = format!(in alloc; "1 1 {}\n", judged.last)?;
    assert_eq!(rt; std::str::from_utf8(&ended.printed), Ok(last.as_str()));
    Ok((judged.full, judged.gave_way))
}

#[test]
fn workers_crowd_at_one_anchor(rt: HostRuntime) -> Result<(), Fail> {
    for turn in 0..2u32 {
        let _ = turn;
        let (full, gave_way) = crowds(&rt, rt.alloc(), 512, 1, 2)?;
        assert_eq!(rt; full, 0);
        assert_eq!(rt; gave_way, 0);
    }
    Ok(())
}

#[test]
fn workers_crowd_at_32_anchors(rt: HostRuntime) -> Result<(), Fail> {
    for turn in 0..2u32 {
        let _ = turn;
        let (full, gave_way) = crowds(&rt, rt.alloc(), 512, 32, 64)?;
        assert_eq!(rt; full, 0);
        assert_eq!(rt; gave_way, 0);
    }
    Ok(())
}

/// Sixteen slots do not suffice for 16 anchors, so entries give way. Where none may a line is answered FULL, which not each run has.
#[test]
fn workers_crowd_in_a_small_file(rt: HostRuntime) -> Result<(), Fail> {
    let (_, gave_way) = crowds(&rt, rt.alloc(), 16, 16, 32)?;
    assert!(rt; gave_way > 0);
    Ok(())
}

/// The URLs of the lines below, by their numbers: with three anchors each has one of its own.
const FIRST: u32 = 0;

const SECOND: u32 = 2;

const THIRD: u32 = 4;

/// Lines of three workers, of which the first and the third name the first URL.
const SHARED: [(u32, Kind, u32); 17] = [
    (3, Kind::Get, FIRST),
    (1, Kind::Put, FIRST),
    (1, Kind::Open, FIRST),
    (1, Kind::Purge, FIRST),
    (1, Kind::Put, SECOND),
    (1, Kind::More, FIRST),
    (1, Kind::Close, FIRST),
    (1, Kind::Get, FIRST),
    (1, Kind::Get, SECOND),
    (2, Kind::Begin, THIRD),
    (2, Kind::Add, THIRD),
    (2, Kind::Open, THIRD),
    (2, Kind::Drop, THIRD),
    (2, Kind::More, THIRD),
    (2, Kind::Get, THIRD),
    (2, Kind::Close, THIRD),
    (2, Kind::Get, THIRD),
];

/// The anchor that two workers name is nobody's, so what the first worker is answered there is judged by rules alone. It hits
/// what it stored at the other one, as `judge` wants of its last line.
#[test]
fn an_anchor_that_two_workers_name_is_nobodys(rt: HostRuntime) -> Result<(), Fail> {
    let alloc = rt.alloc();
    let mut lines = Vec::new(alloc);
    for (worker, kind, about) in SHARED {
        lines.push(Asked {
            worker,
            kind,
            about,
        })?;
    }
    let mut volume = MemVolume::new(alloc, Vec::new(alloc), Vec::new(alloc));
    let sizes = Sizes {
        workers: 3,
        slots: 8,
        anchors: 3,
    };
    let printed = printed_by(&rt, alloc, &mut volume, &lines, sizes)?;
    let judged = judge(alloc, &lines, 3, 8, printed.as_str())?;
    assert_eq!(rt; judged.full, 0);
    assert_eq!(rt; judged.gave_way, 0);
    Ok(())
}
