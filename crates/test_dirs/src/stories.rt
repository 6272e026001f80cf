// Stories of a cache over some files.
ghost use Rattle.std.specs.Prelude.{IfSome, ◌<◌, ◌≤◌};
ghost use Rattle.rock_disk.specs.File.{NoneAway};
ghost use Rattle.rock_disk.specs.Memory.{volume_files};

use crate::files::{add, opened, told_over};
use crate::shelf::Ask;
use crate::urls::TwoUrls;
use rock_disk::MemVolume;
use std::alloc::Global;
use std::sync::Wait;

/// A volume with a file of eight slots, whose second station fails at this call.
fn volume(alloc: Global, fails: Option<u64>) -> Option<MemVolume>
    ensures { IfSome result (λ v. NoneAway (volume_files v)) }
{
    let mut stations = Vec::new(alloc);
    stations.push(Vec::new(alloc)).ok()?;
    let mut list = Vec::new(alloc);
    if let Some(call) = fails {
        list.push(call).ok()?;
    }
    stations.push(list).ok()?;
    let mut zeros = Vec::new(alloc);
    for _ in 0..20480 {
        zeros.push(0).ok()?;
    }
    let mut volume = MemVolume::new(alloc, Vec::new(alloc), stations);
    let Ok(()) = volume.put_file("db", &zeros) else {
        return None;
    };
    Some(volume)
}

/// What comes of asking a cache over so many files. The station of the first file fails at this call.
fn asked<R: Wait>(
    rt: &R,
    alloc: Global,
    many: usize,
    fails: Option<u64>,
    first: &Vec<u8>,
    second: &Vec<u8>,
    body: &Vec<u8>,
    asks: &[(Ask, bool)],
) -> Option<String>
    requires some { 0 < many }
    requires few { many ≤ 8 }
{
    let mut devices = volume(alloc, fails)?;
    let mut stores = Vec::new(alloc);
    let mut passes = Vec::new(alloc);
    let origin = TwoUrls::new(first, second, body);
    let (store, pass) = opened(alloc, &mut devices, origin, first, second, body)?;
    add(&mut stores, &mut passes, store, pass, first, second, body)?;
    for _ in 1..many {
        let mut home = volume(alloc, None)?;
        let origin = TwoUrls::new(first, second, body);
        let (store, pass) = opened(alloc, &mut home, origin, first, second, body)?;
        add(&mut stores, &mut passes, store, pass, first, second, body)?;
    }
    told_over(
        rt,
        alloc,
        &mut devices,
        stores,
        passes,
        first,
        second,
        body,
        asks,
    )
}

/// What comes of asking a cache over so many files, where two URLs are offered a body of so many bytes. The station of the
/// first file fails at this call.
fn story_of<R: Wait>(
    rt: &R,
    alloc: Global,
    many: usize,
    fails: Option<u64>,
    length: usize,
    asks: &[(Ask, bool)],
) -> Option<String>
    requires some { 0 < many }
    requires few { many ≤ 8 }
{
    let mut first = Vec::new(alloc);
    first.extend_from_slice(b"http://a/b").ok()?;
    let mut second = Vec::new(alloc);
    second.extend_from_slice(b"http://a/c").ok()?;
    let mut body = Vec::new(alloc);
    for _ in 0..length {
        body.push(b'x').ok()?;
    }
    asked(rt, alloc, many, fails, &first, &second, &body, asks)
}

/// What comes of asking a cache over so many files, where two URLs are offered a body of one byte. The station of the
/// first file fails at this call.
fn story<R: Wait>(
    rt: &R,
    alloc: Global,
    many: usize,
    fails: Option<u64>,
    asks: &[(Ask, bool)],
) -> Option<String>
    requires some { 0 < many }
    requires few { many ≤ 8 }
{
    story_of(rt, alloc, many, fails, 1, asks)
}

#[test]
fn two_files_take_entries_in_turn(rt: HostRuntime) {
    let asks = [
        (Ask::Get, false),
        (Ask::Put, false),
        (Ask::Put, true),
        (Ask::Get, false),
        (Ask::Get, true),
        (Ask::Put, false),
        (Ask::Purge, false),
        (Ask::Get, false),
    ];
    let story = story(&rt, rt.alloc(), 2, None, &asks);
    let wanted = "\
MISS absent 0 absent 0 - - - - - -
STORED 1@0
STORED 1@1
HIT 1@0 Piece { count: 1 }
HIT 1@1 Piece { count: 1 }
STORED 2@0
PURGED 2.true - - - - - - -
MISS absent 2 other 1 - - - - - -
";
    assert_eq!(rt; story.as_ref().map(|s| s.as_str()), Some(wanted));
}

#[test]
fn a_file_that_fails_gives_its_entry_up(rt: HostRuntime) {
    let asks = [
        (Ask::Put, false),
        (Ask::Put, false),
        (Ask::Get, false),
        (Ask::Put, false),
    ];
    let story = story(&rt, rt.alloc(), 2, Some(0), &asks);
    let wanted = "\
FAULT 1@0
STORED 1@1
HIT 1@1 Piece { count: 1 }
STORED 2@0
";
    assert_eq!(rt; story.as_ref().map(|s| s.as_str()), Some(wanted));
}

#[test]
fn eight_files_are_asked_in_order(rt: HostRuntime) {
    let asks = [
        (Ask::Put, false),
        (Ask::Put, true),
        (Ask::Put, true),
        (Ask::Put, true),
        (Ask::Put, true),
        (Ask::Put, true),
        (Ask::Put, true),
        (Ask::Put, true),
        (Ask::Put, true),
        (Ask::Get, false),
        (Ask::Get, true),
        (Ask::Purge, true),
    ];
    let story = story(&rt, rt.alloc(), 8, None, &asks);
    let wanted = "\
STORED 1@0
STORED 1@1
STORED 1@2
STORED 1@3
STORED 1@4
STORED 1@5
STORED 1@6
STORED 1@7
STORED 2@0
MISS other 2 absent 1 absent 1 absent 1 absent 1 absent 1 absent 1 absent 1
HIT 2@0 Piece { count: 1 }
PURGED 2.true - - - - - - -
";
    assert_eq!(rt; story.as_ref().map(|s| s.as_str()), Some(wanted));
}

#[test]
fn a_body_that_is_too_large_for_a_slot_is_given_up(rt: HostRuntime) {
    let asks = [
        (Ask::Put, false),
        (Ask::Get, false),
        (Ask::Put, true),
        (Ask::Get, true),
    ];
    let story = story_of(&rt, rt.alloc(), 2, None, 600, &asks);
    let wanted = "\
FAULT 1@0
MISS absent 1 absent 0 - - - - - -
FAULT 1@1
MISS absent 1 absent 1 - - - - - -
";
    assert_eq!(rt; story.as_ref().map(|s| s.as_str()), Some(wanted));
}

#[test]
fn what_was_seen_is_handed_on(rt: HostRuntime) {
    let asks = [
        (Ask::Note, false),
        (Ask::Put, false),
        (Ask::Note, false),
        (Ask::Get, false),
        (Ask::Put, true),
        (Ask::Note, true),
        (Ask::Get, true),
    ];
    let story = story(&rt, rt.alloc(), 2, None, &asks);
    let wanted = "\
NOTED
STORED 1@0
NOTED
HIT 1@0 Piece { count: 1 }
STORED 1@1
NOTED
HIT 1@1 Piece { count: 1 }
";
    assert_eq!(rt; story.as_ref().map(|s| s.as_str()), Some(wanted));
}
