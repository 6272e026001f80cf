ghost use Rattle.std.specs.Prelude.{◌≡◌, ◌<◌, ◌≤◌, length, map, IfOk, OnOk};
ghost use Rattle.rock_disk.specs.File.{NoneAway};
ghost use Rattle.rock_disk.specs.Memory.{cell_state, volume_files, volume_made, volume_ended};
ghost use Rattle.rock_disk.specs.Opened.{AreSlots};

use crate::entries::kept;
use crate::rows::{Image, fields, numbers, put};
use rock_disk::{
    MemCell, MemStation, MemVolume, Opened, Volume, opened_cells_are_the_files,
    opened_slots_are_wide_and_few,
};
use rock_rebuild::{RebuildFault, Scan, Tally, rebuild, scan, tally};
use std::alloc::{AllocError, Global};
use std::test::Fail;
use test_rows::short;

/// The MD5 of a byte 1 and `http://a/b`, by the program md5sum.
const KEY_B: &[u8; 16] = b"\x1a\x68\xc1\x0d\x6c\x8b\x32\x66\x57\xc7\x75\xf5\x3c\x86\x6d\xd1";

/// The MD5 of a byte 1 and `http://a/c`, by md5sum too.
const KEY_C: &[u8; 16] = b"\x48\x77\xc9\x34\x8b\x6d\x72\x99\xe2\x13\x89\x6f\x83\x9c\x80\xb8";

/// Metadata with `http://a/b` and its key.
const META_B: &[u8; 42] = b"\
    \x03\x2a\0\0\0\x03\x10\0\0\0\x1a\x68\xc1\x0d\x6c\x8b\x32\x66\x57\xc7\x75\xf5\x3c\x86\x6d\xd1\
    \x04\x0b\0\0\0http://a/b\0";

/// A slot of `http://a/b`: entry size, payload size, version, first slot and next slot. Where it names this number
/// first, metadata stands in front of the payload.
fn slot_b(number: u32, fields: [u64; 5]) -> Image {
    let [entry_size, payload_size, version, first_slot, next_slot] = fields;
    let mut image = [0; 512];
    put(&mut image, 0, KEY_B);
    put(&mut image, 16, &entry_size.to_le_bytes());
    put(&mut image, 24, &short(payload_size).to_le_bytes());
    put(&mut image, 28, &short(version).to_le_bytes());
    put(&mut image, 32, &short(first_slot).to_le_bytes());
    put(&mut image, 36, &short(next_slot).to_le_bytes());
    if first_slot == u64::from(number) {
        put(&mut image, 40, META_B);
    }
    image
}

/// A slot of `http://a/c`, with the same fields as `slot_b`.
fn slot_c(number: u32, fields: [u64; 5]) -> Image {
    let mut image = slot_b(number, fields);
    put(&mut image, 0, KEY_C);
    put(&mut image, 50, KEY_C);
    put(&mut image, 80, b"c");
    image
}

/// The slots of a text, apart by commas. Each is `-` where it was never written, or `b` or `c` and the fields of
/// [slot_b] or of [slot_c].
fn slots_of(alloc: Global, text: &str) -> Result<Vec<Image>, Fail> {
    let mut slots = Vec::new(alloc);
    for (number, slot) in (0..4).zip(text.split(',')) {
        slots.push(match slot.split_once(' ') {
            Some(("b", fields)) => slot_b(number, numbers::<5>(fields)?),
            Some(("c", fields)) => slot_c(number, numbers::<5>(fields)?),
            None if slot == "-" => [0; 512],
            _ => return Err(Fail::from("a slot")),
        })?;
    }
    Ok(slots)
}

/// The bytes of a file with these slots.
fn bytes_of(alloc: Global, slots: &[Image]) -> Result<Vec<u8>, AllocError> {
    let mut bytes = Vec::new(alloc);
    bytes.resize(16_384, 0)?;
    for image in slots {
        bytes.extend_from_slice(image)?;
    }
    Ok(bytes)
}

/// A new file with these slots, opened with a station.
fn open(
    alloc: Global,
    volume: &mut MemVolume,
    slots: &[Image],
) -> Result<(MemStation, Vec<MemCell>), Fail>
    requires home { NoneAway (volume_files volume.old) }
    requires ended { length (volume_ended volume.old) ≤ volume_made volume.old }
    ensures slots { IfOk result (λ o. AreSlots 512 (map cell_state o.1.items)) }
    ensures ended { OnOk result (length (volume_ended volume.new) < volume_made volume.new) }
{
    opened_slots_are_wide_and_few();
    opened_cells_are_the_files();
    volume.put_file("a", &bytes_of(alloc, slots)?)?;
    let Opened {
        header: _,
        cells,
        bytes: _,
    } = volume.open_file(alloc, "a", 512)?;
    let station = volume.station("a")?;
    Ok((station, cells))
}

/// A volume whose first station fails at the listed calls.
fn volume_of(alloc: Global, fail: &[u64]) -> Result<MemVolume, AllocError>
    ensures home { IfOk result (λ volume. NoneAway (volume_files volume)) }
    ensures ended { IfOk result (λ volume. length (volume_ended volume) ≤ volume_made volume) }
{
    let mut lists = Vec::new(alloc);
    lists.push(fail.to_vec(alloc)?)?;
    Ok(MemVolume::new(alloc, Vec::new(alloc), lists))
}

/// The entries that a scan found, each with its first slot, its version, the length of its body, its URL and its
/// chain, and the greatest version.
fn scanned(alloc: Global, scan: &Scan) -> Result<String, Fail> {
    let mut told = String::new(alloc);
    for found in scan.found.as_slice() {
        let (first, version, length) = (found.first, found.version, found.length);
        let (url, chain) = (
            str::from_utf8(found.url.as_slice())?,
            found.chain.as_slice(),
        );
        write!(told, "{first} {version} {length} {url} {chain:?}, ")?;
    }
    let greatest = scan.greatest;
    write!(told, "{greatest}")?;
    Ok(told)
}

/// The slots, the entries that are kept, their slots, and the greatest version.
fn counted(alloc: Global, tally: &Tally) -> Result<String, Fail> {
    let (slots, kept, used, greatest) = (tally.slots, tally.kept, tally.used, tally.greatest);
    Ok(format!(in alloc; "{slots} {kept} {used} {greatest}")?)
}

fn failed(alloc: Global, fault: RebuildFault) -> Result<String, Fail> {
    Ok(format!(in alloc; "{fault:?}")?)
}

/// What a scan of a file with these slots tells, or a rebuild or a tally of it for one anchor, where the station
/// fails at the listed calls.
fn told(alloc: Global, asked: &str, slots: &[Image], fail: &[u64]) -> Result<String, Fail> {
    let mut volume = volume_of(alloc, fail)?;
    let (mut station, mut cells) = open(alloc, &mut volume, slots)?;
    let told = match asked {
        "scan" => match scan(alloc, &mut station, &mut cells, 512) {
            Ok(scan) => scanned(alloc, &scan),
            Err(fault) => failed(alloc, fault),
        },
        "rebuild" => match rebuild(alloc, &mut station, &mut cells, 512, 1) {
            Ok(rebuilt) => kept(alloc, &rebuilt),
            Err(fault) => failed(alloc, fault),
        },
        "tally" => match tally(alloc, &mut station, &mut cells, 512, 1) {
            Ok(tally) => counted(alloc, &tally),
            Err(fault) => failed(alloc, fault),
        },
        _ => Err(Fail::from("what is asked")),
    };
    volume.end_station(station);
    told
}

// What is asked of a file of three slots, the slots, the answer, and what it is about.
const FILES: &str = "\
scan;b 473 1 4 2 -1,-,b 0 472 4 2 0;2 4 431 http://a/b [2, 0], 4;a chain that goes back
scan;b 473 1 4 0 -1,-,b 0 472 4 2 0;4;another first slot
scan;b 472 1 4 2 -1,-,b 0 472 4 2 0;4;one byte less than there are
scan;b 474 1 4 2 -1,-,b 0 472 4 2 0;4;one byte more
scan;b 472 472 5 0 0,b 47 47 0 1 -1,b 473 473 9 2 -1;5;a loop, version 0, and a payload past the slot
scan;b 43 43 3 0 -1,c 43 43 5 1 -1,-;0 3 1 http://a/b [0], 1 5 1 http://a/c [1], 5;two entries of one slot
scan;b 0 472 4 2 1,b 945 1 4 2 -1,b 0 472 4 2 0;2 4 903 http://a/b [2, 0, 1], 4;a chain of three slots, through the tail and back
scan;b 0 471 4 2 1,b 944 1 4 2 -1,b 0 472 4 2 0;4;a middle slot that is not full
scan;b 473 1 5 2 -1,-,b 0 472 4 2 0;5;a slot of another version in the chain
scan;c 473 1 4 2 -1,-,b 0 472 4 2 0;4;a slot of another key in the chain
scan;c 43 43 3 0 -1,-,b 0 472 4 2 0;0 3 1 http://a/c [0], 4;a chain that goes on in another entry
scan;b 43 43 3 0 -1,b 0 472 4 1 2,-;0 3 1 http://a/b [0], 4;a newer version that lacks its second slot
scan;-,-,-;0;no slot was ever written
tally;b 43 43 3 0 -1,-,-;3 1 1 3;one entry
tally;b 43 43 3 0 -1,c 43 43 5 1 -1,-;3 1 1 5;the newer of two
tally;b 0 472 4 2 1,b 945 1 4 2 -1,b 0 472 4 2 0;3 1 3 4;a chain of three slots
tally;-,-,-;3 0 0 0;no slot was ever written
rebuild;b 47 47 7 0 -1,-,-;[0] [1, 0, 0] 7;one entry
rebuild;b 43 43 3 0 -1,c 43 43 5 1 -1,-;[1] [0, 1, 0] 5;the newer of two
rebuild;b 43 43 3 0 -1,c 43 43 3 1 -1,-;[0] [1, 0, 0] 3;of one version the one that begins first
rebuild;b 43 43 3 0 -1,b 0 472 4 1 2,-;[0] [1, 0, 0] 4;a newer version that lacks its second slot
rebuild;b 472 472 5 0 0,b 47 47 0 1 -1,b 473 473 9 2 -1;[] [0, 0, 0] 5;a loop, version 0, and a payload past the slot
rebuild;-,-,-;[] [0, 0, 0] 0;no slot was ever written";

#[test]
fn entries_are_found_in_order_kept_and_counted(rt: HostRuntime) -> Result<(), Fail> {
    let alloc = rt.alloc();
    assert_eq!(rt; FILES.lines().count(), 23);
    for row in FILES.lines() {
        let (asked, rest) = fields(row)?;
        let (slots, rest) = fields(rest)?;
        let (wanted, _) = fields(rest)?;
        let slots = slots_of(alloc, slots)?;
        assert_eq!(rt; slots.len(), 3, "{row}");
        assert_eq!(rt; told(alloc, asked, &slots, &[])?.as_str(), wanted, "{row}");
        assert_eq!(rt;
            told(alloc, asked, &slots, &[0])?.as_str(),
            "Failed",
            "{row}"
        );
    }
    Ok(())
}

/// Files of 4,096 slots that are made to keep a scan busy: the first and the next slot that slot s names.
fn links(hostile: u32, s: u64) -> (u64, u64) {
    match hostile {
        // Each slot begins an entry that goes on in the last slot.
        0 if s == 4_095 => (s, u64::MAX),
        0 => (s, 4_095),
        // All slots are one chain, whose size is another.
        1 if s == 4_095 => (0, u64::MAX),
        1 => (0, s.saturating_add(1)),
        // All slots name slot 0 first, and stand in a ring.
        2 => (0, s.saturating_add(1) % 4_096),
        // Each two slots stand in a ring.
        _ if s % 2 == 0 => (s, s.saturating_add(1)),
        _ => (s.saturating_sub(1), s.saturating_sub(1)),
    }
}

fn hostile_slots(alloc: Global, hostile: u32) -> Result<Vec<Image>, AllocError> {
    let mut slots = Vec::new(alloc);
    for s in 0..4_096 {
        let (first, next) = links(hostile, u64::from(s));
        slots.push(slot_b(s, [0, 472, 1, first, next]))?;
    }
    Ok(slots)
}

#[test]
fn each_slot_is_read_once(rt: HostRuntime) -> Result<(), Fail> {
    let alloc = rt.alloc();
    for hostile in 0..4 {
        let slots = hostile_slots(alloc, hostile)?;
        // A station that fails at call 4,096, where calls are numbered from 0, is asked no more often: nothing is
        // found, and the greatest version is 1.
        assert_eq!(rt;
            told(alloc, "scan", &slots, &[4_096])?.as_str(),
            "1",
            "{hostile}"
        );
        assert_eq!(rt;
            told(alloc, "scan", &slots, &[4_095])?.as_str(),
            "Failed",
            "{hostile}"
        );
    }
    Ok(())
}
