// A station gives other bytes than were written.
use super::calls::call;
use rock_disk::Stations;
use rock_status::Status;
use std::test::Fail;
use test_many_workers_kit::Lying;
use test_stories::{Act, Pipes, file_of};

/// What the worker asks, and how it is answered. Its second read of a slot is the first lie. The last line takes the anchor
/// again, which can be done only where the reader has left it.
const OTHER: &str = "\
1 put http://a/b =hello -> STORED 1
1 get http://a/b -> HIT 1 5 68656c6c6f
1 open 0 http://a/b -> OPEN 1
1 more 0 -> OTHERURL
1 more 0 -> OTHERURL
1 close 0 -> CLOSED
1 get http://a/b -> OTHERURL
1 put http://a/b =hello -> STORED 2
";

/// What a worker asks, and how it is answered, where only the second read is a lie.
const OTHER_ONCE: &str = "\
1 put http://a/b =hello -> STORED 1
1 get http://a/b -> HIT 1 5 68656c6c6f
1 open 0 http://a/b -> OPEN 1
1 more 0 -> OTHERURL
1 more 0 -> OTHERURL
1 close 0 -> CLOSED
1 get http://a/b -> HIT 1 5 68656c6c6f
1 put http://a/b =hello -> STORED 2
";

/// What a worker asks, and how it is answered, where the slot is given as one of the entry.
const GIVEN: &str = "\
1 put http://a/b =hello -> STORED 1
1 get http://a/b -> HIT 1 5 68656c6c6f
1 open 0 http://a/b -> OPEN 1
1 more 0 -> END 5 68656c6c6f
1 more 0 -> END 0 -
1 close 0 -> CLOSED
1 get http://a/b -> HIT 1 5 68656c6c6f
1 put http://a/b =hello -> STORED 2
";

/// The slots that the station gives. The first line of each says what comes of it, and what is told of the slot.
/// The others make it up, as a story has it (`files.rt`).
const SLOTS: &str = "\
given: the slot that was written
slot 47 47 1 0 -1
patch 82 68656c6c6f

given: the greatest version and the last next slot that are sane
slot 47 47 4294901760 0 2
patch 82 68656c6c6f

other: another URL, as long as the wanted one
slot 47 47 1 0 -1
patch 80 63
patch 82 68656c6c6f

once: another URL, as long as the wanted one
slot 47 47 1 0 -1
patch 80 63
patch 82 68656c6c6f

other: a URL that begins with the wanted one
slot 48 48 1 0 -1
patch 41 2b
patch 67 0c
patch 80 62630068656c6c6f

other: the front of the wanted URL
slot 46 46 1 0 -1
patch 41 29
patch 67 0a
patch 80 0068656c6c6f

other: metadata without the zero byte behind the URL
slot 46 46 1 0 -1
patch 41 29
patch 67 0a
patch 81 68656c6c6f

other: no metadata
slot 5 5 1 0 -1
patch 40 68656c6c6f00000000000000000000000000000000000000000000000000000000000000000000000000

other: no version
slot 47 47 0 0 -1
patch 82 68656c6c6f

other: a version past the greatest one
slot 47 47 4294901761 0 -1
patch 82 68656c6c6f

other: a next slot that is not in the file
slot 47 47 1 0 3
patch 82 68656c6c6f

other: a first slot that is not in the file
slot 47 47 1 0 -1
patch 32 03
patch 82 68656c6c6f

other: a payload that does not fit
slot 47 473 1 0 -1
patch 82 68656c6c6f
";

/// Until which read the slot is given, and what the worker asks and is answered then.
fn plan_of(kind: &str) -> Result<(u32, &'static str), Fail> {
    match kind {
        "given" => Ok((9, GIVEN)),
        "other" => Ok((9, OTHER)),
        "once" => Ok((2, OTHER_ONCE)),
        _ => Err(Fail::from("a line of a slot that is none")),
    }
}

#[test]
fn a_slot_of_another_entry_is_not_given(rt: HostRuntime) -> Result<(), Fail> {
    let alloc = rt.alloc();
    let pipes = Pipes::new(alloc);
    for text in SLOTS.split("\n\n") {
        let (head, lines) = text.split_once('\n').unwrap_or((text, ""));
        let (kind, _told) = head.split_once(':').unwrap_or((head, ""));
        let (until, answers) = plan_of(kind)?;
        let file = file_of(alloc, lines)?;
        let page = file.get(16_384..).unwrap_or(&[]).to_vec(alloc)?;
        assert_eq!(rt; page.len(), 512, "{head}");
        let act = Act::read(alloc, answers, 1)?;
        let wanted = act.wanted(alloc, 1)?;
        let mut volume = Lying {
            page,
            until,
            stations: Stations::new(alloc),
        };
        let ended = call(
            &rt,
            alloc,
            &mut volume,
            &pipes,
            "run db 512 1 1",
            act.script.as_slice(),
        )?;
        assert_eq!(rt; ended.status, Status::Done, "{head}");
        assert_eq!(rt;
            std::str::from_utf8(&ended.printed),
            std::str::from_utf8(&wanted),
            "{head}"
        );
    }
    Ok(())
}
