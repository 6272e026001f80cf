// Workers of which one waits for another.
use super::calls::call;
use rock_status::Status;
use std::alloc::Global;
use std::process::Abort;
use std::sync::Wait;
use std::test::Fail;
use std::thread::Threads;
use test_many_workers_kit::{Meeting, Part};
use test_stories::{Act, Pipes};

/// No part.
const REST: Part = Part {
    sign_at: 0,
    signs: 0,
};

/// Runs lines of two workers over a new file of so many slots. The stations of the workers have these parts. What is printed
/// is one of these lists of answers, which are written as in a story, with an empty line between each two. All have the same
/// requests.
fn meet<R: Abort + Threads + Wait + Sync>(
    rt: &R,
    alloc: Global,
    slots: u32,
    anchors: u32,
    parts: [Part; 2],
    lists: &str,
) -> Result<(), Fail> {
    let [first, second] = parts;
    let pipes = Pipes::new(alloc);
    // The stations of `create` and of the rebuild come first.
    let mut volume = Meeting::new(alloc, [REST, REST, first, second])?;
    let create = format!(in alloc; "create db 512 {slots}")?;
    let made = call(rt, alloc, &mut volume, &pipes, create.as_str(), b"")?;
    assert_eq!(rt; made.status, Status::Done);
    let command = format!(in alloc; "run db 512 {anchors} 2")?;
    let one = lists.split("\n\n").next().unwrap_or("");
    let act = Act::read(alloc, one, anchors)?;
    let ended = call(
        rt,
        alloc,
        &mut volume,
        &pipes,
        command.as_str(),
        act.script.as_slice(),
    )?;
    assert_eq!(rt; ended.status, Status::Done);
    let mut is_listed = false;
    for list in lists.split("\n\n") {
        let act = Act::read(alloc, list, anchors)?;
        let answers = act.wanted(alloc, anchors)?;
        is_listed = is_listed || ended.printed.as_slice() == answers.as_slice();
    }
    let printed = std::str::from_utf8(&ended.printed);
    assert!(rt; is_listed, "{printed:?}");
    Ok(())
}

/// The first write of each of two stations waits until both have begun such a write. Workers of which one was served behind
/// the other could not go on.
#[test]
fn two_stations_meet(rt: HostRuntime) -> Result<(), Fail> {
    let both = Part {
        sign_at: 1,
        signs: 2,
    };
    meet(
        &rt,
        rt.alloc(),
        4,
        2,
        [both, both],
        "\
1 put u0 =x -> STORED 1
2 put u1 =y -> STORED 2

1 put u0 =x -> STORED 2
2 put u1 =y -> STORED 1
",
    )
}

/// The first write of the second worker's station waits until that of the first worker has begun its second write. So what
/// the first worker stored by its first one is there when the second worker asks for it. Workers that were served each from
/// what the file had would not find it.
#[test]
fn later_get_hits(rt: HostRuntime) -> Result<(), Fail> {
    let first = Part {
        sign_at: 2,
        signs: 0,
    };
    let second = Part {
        sign_at: 0,
        signs: 1,
    };
    meet(
        &rt,
        rt.alloc(),
        4,
        3,
        [first, second],
        "\
1 put u0 =x -> STORED 1
1 put u1 =y -> STORED 2
2 put u2 =z -> STORED 3
2 get u0 -> HIT 1 1 78

1 put u0 =x -> STORED 1
1 put u1 =y -> STORED 3
2 put u2 =z -> STORED 2
2 get u0 -> HIT 1 1 78

1 put u0 =x -> STORED 2
1 put u1 =y -> STORED 3
2 put u2 =z -> STORED 1
2 get u0 -> HIT 2 1 78
",
    )
}

/// Each anchor is named by the lines of one worker alone, and there are slots for both. So no answer is FULL, and each worker hits
/// what it stored. The first writes of both wait for each other.
#[test]
fn workers_with_anchors_of_their_own_lose_nothing(rt: HostRuntime) -> Result<(), Fail> {
    let both = Part {
        sign_at: 1,
        signs: 2,
    };
    meet(
        &rt,
        rt.alloc(),
        4,
        2,
        [both, both],
        "\
1 put u0 =x -> STORED 1
1 get u0 -> HIT 1 1 78
2 put u1 =y -> STORED 2
2 get u1 -> HIT 2 1 79

1 put u0 =x -> STORED 2
1 get u0 -> HIT 2 1 78
2 put u1 =y -> STORED 1
2 get u1 -> HIT 1 1 79
",
    )
}

/// The same with two slots for each worker, which it needs for each of its responses. The versions of each worker rise, and those
/// of both are the first four. Nobody waits, so they may be drawn in each order.
#[test]
fn workers_with_anchors_of_their_own_replace_what_they_stored(rt: HostRuntime) -> Result<(), Fail> {
    meet(
        &rt,
        rt.alloc(),
        4,
        2,
        [REST, REST],
        "\
1 put u0 #901:0 -> STORED 1
2 put u1 #901:0 -> STORED 3
1 put u0 #901:0 -> STORED 2
2 put u1 #901:0 -> STORED 4
1 get u0 -> HIT 2 901 MADE(0,901)
2 get u1 -> HIT 4 901 MADE(0,901)

1 put u0 #901:0 -> STORED 1
2 put u1 #901:0 -> STORED 2
1 put u0 #901:0 -> STORED 3
2 put u1 #901:0 -> STORED 4
1 get u0 -> HIT 3 901 MADE(0,901)
2 get u1 -> HIT 4 901 MADE(0,901)

1 put u0 #901:0 -> STORED 1
2 put u1 #901:0 -> STORED 2
1 put u0 #901:0 -> STORED 4
2 put u1 #901:0 -> STORED 3
1 get u0 -> HIT 4 901 MADE(0,901)
2 get u1 -> HIT 3 901 MADE(0,901)

1 put u0 #901:0 -> STORED 2
2 put u1 #901:0 -> STORED 1
1 put u0 #901:0 -> STORED 3
2 put u1 #901:0 -> STORED 4
1 get u0 -> HIT 3 901 MADE(0,901)
2 get u1 -> HIT 4 901 MADE(0,901)

1 put u0 #901:0 -> STORED 2
2 put u1 #901:0 -> STORED 1
1 put u0 #901:0 -> STORED 4
2 put u1 #901:0 -> STORED 3
1 get u0 -> HIT 4 901 MADE(0,901)
2 get u1 -> HIT 3 901 MADE(0,901)

1 put u0 #901:0 -> STORED 3
2 put u1 #901:0 -> STORED 1
1 put u0 #901:0 -> STORED 4
2 put u1 #901:0 -> STORED 2
1 get u0 -> HIT 4 901 MADE(0,901)
2 get u1 -> HIT 2 901 MADE(0,901)
",
    )
}

/// Worker 1 is alone at the anchors of u0 and u1, and worker 2 at that of u2. Each is answered as by a store of its own, but for
/// versions, of which those of worker 1 rise. Nobody waits.
#[test]
fn workers_alone_at_their_anchors_are_answered_as_by_stores_of_their_own(
    rt: HostRuntime,
) -> Result<(), Fail> {
    meet(
        &rt,
        rt.alloc(),
        8,
        3,
        [REST, REST],
        "\
1 put u0 =x -> STORED 1
1 open 0 u0 -> OPEN 1
1 purge u0 -> PURGED 1.3d
1 put u1 =y -> STORED 2
1 more 0 -> END 1 78
1 close 0 -> CLOSED
1 get u0 -> MISS absent 1.6d
1 get u1 -> HIT 2 1 79
2 begin 0 u2 #1300:0 -> BEGUN 3
2 add 0 900 -> ADDED 900
2 open 1 u2 -> OPEN 3
2 drop 0 -> DROPPED
2 more 1 -> HALTED 429 MADE(0,429)
2 get u2 -> MISS leaving 3.4
2 close 1 -> CLOSED
2 get u2 -> MISS absent 3.6

1 put u0 =x -> STORED 1
1 open 0 u0 -> OPEN 1
1 purge u0 -> PURGED 1.3d
1 put u1 =y -> STORED 3
1 more 0 -> END 1 78
1 close 0 -> CLOSED
1 get u0 -> MISS absent 1.6d
1 get u1 -> HIT 3 1 79
2 begin 0 u2 #1300:0 -> BEGUN 2
2 add 0 900 -> ADDED 900
2 open 1 u2 -> OPEN 2
2 drop 0 -> DROPPED
2 more 1 -> HALTED 429 MADE(0,429)
2 get u2 -> MISS leaving 2.4
2 close 1 -> CLOSED
2 get u2 -> MISS absent 2.6

1 put u0 =x -> STORED 2
1 open 0 u0 -> OPEN 2
1 purge u0 -> PURGED 2.3d
1 put u1 =y -> STORED 3
1 more 0 -> END 1 78
1 close 0 -> CLOSED
1 get u0 -> MISS absent 2.6d
1 get u1 -> HIT 3 1 79
2 begin 0 u2 #1300:0 -> BEGUN 1
2 add 0 900 -> ADDED 900
2 open 1 u2 -> OPEN 1
2 drop 0 -> DROPPED
2 more 1 -> HALTED 429 MADE(0,429)
2 get u2 -> MISS leaving 1.4
2 close 1 -> CLOSED
2 get u2 -> MISS absent 1.6
",
    )
}
