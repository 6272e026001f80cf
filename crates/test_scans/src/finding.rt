// The slot size of a file is found, or it is not.
ghost use Rattle.std.specs.Prelude.{IfOk, IfSome};
ghost use Rattle.db_layout.specs.Layout.{IsSlotSize};
ghost use Rattle.rock_disk.specs.File.{NoneAway};
ghost use Rattle.rock_disk.specs.Memory.{volume_files};

use crate::rows::fields;
use db_layout::slot_size_ok;
use rock_disk::MemVolume;
use slot_finding::{FindFault, Looked, find_slot, look_at_header};
use std::alloc::Global;
use std::test::Fail;

/// A volume whose call of this number fails, with a file "db" of so many bytes. Its first ones stand in hexadecimal, and
/// all others are this byte. Where there are to be none, there is no file.
pub(crate) fn volume_of(
    alloc: Global,
    size: &str,
    front: &str,
    other: &str,
    fails: &str,
) -> Result<MemVolume, Fail>
    ensures { IfOk result (λ volume. NoneAway (volume_files volume)) }
{
    let mut fail = Vec::new(alloc);
    fail.push(fails.parse()?)?;
    let mut volume = MemVolume::new(alloc, fail, Vec::new(alloc));
    if size != "none" {
        let mut bytes = hex::decode(alloc, front)?;
        bytes.resize(size.parse()?, other.parse()?)?;
        volume.put_file("db", &bytes)?;
    }
    Ok(volume)
}

/// The slot size that is given, or that none is.
fn given_of(word: &str) -> Result<Option<u32>, Fail>
    ensures { IfOk result (λ given. IfSome given IsSlotSize) }
{
    if word == "-" {
        return Ok(None);
    }
    let slot = word.parse()?;
    if !slot_size_ok(slot) {
        return Err(Fail::from("a size that slots may not have"));
    }
    Ok(Some(slot))
}

// How many bytes a file has and its first ones, the number of the call of its volume that fails, the slot size that is given,
// and what is found. The other bytes are 238. 9 is the number of no call.
const FOUND: &str = "\
none;;9;-;Missing
none;;9;512;Missing
none;;0;-;Missing
0;;9;-;Small { bytes: 0 }
16383;00;9;-;Small { bytes: 16383 }
16383;00;9;512;Small { bytes: 16383 }
16383;00;0;512;Small { bytes: 16383 }
16383;526f636b534d50320002000004000000;9;-;Small { bytes: 16383 }
16384;00;9;-;BadGeometry { field: 7 }
16384;00;1;-;BadGeometry { field: 7 }
16384;00;0;-;Failed
16384;00;0;512;Failed
16384;00;9;512;512
18432;00;9;32768;32768
18432;526f636b534d50320002000004000000;9;-;512
18432;526f636b534d50320002000004000000;1;-;512
18432;526f636b534d50320002000004000000;0;-;Failed
18432;526f636b534d50320002000004000000;9;512;512
18432;526f636b534d50320002000004000000;9;1024;BadGeometry { field: 5 }
18943;526f636b534d50320002000004000000;9;-;512
18431;526f636b534d50320002000004000000;9;-;BadGeometry { field: 6 }
18431;526f636b534d50320002000004000000;9;512;BadGeometry { field: 6 }
18431;526f636b534d50320002000004000000;9;1024;BadGeometry { field: 6 }
18944;526f636b534d50320002000004000000;9;-;BadGeometry { field: 6 }
18944;526f636b534d50320002000004000000;9;1024;BadGeometry { field: 6 }
16384;526f636b534d50320002000000000000;9;-;BadGeometry { field: 6 }
16384;526f636b534d50320002000000000000;9;512;BadGeometry { field: 6 }
18432;526f636b534d50320102000004000000;9;-;BadGeometry { field: 6 }
18432;526f636b534d50320000000004000000;9;512;BadGeometry { field: 6 }
18432;526f636b534d50320082000004000000;9;-;BadGeometry { field: 6 }
18432;526f636b534d50320004000002000000;9;-;1024
18432;526f636b534d50310002000004000000;9;-;BadGeometry { field: 7 }
18432;526f636b534d50310002000004000000;9;1024;1024";

/// What is found.
fn found(alloc: Global, volume: &mut MemVolume, given: Option<u32>) -> Result<String, Fail>
    requires given { IfSome given IsSlotSize }
    requires home { NoneAway (volume_files volume.old) }
{
    Ok(match find_slot(volume, "db", given) {
        Ok(slot) => format!(in alloc; "{slot}")?,
        Err(fault) => format!(in alloc; "{fault:?}")?,
    })
}

#[test]
fn slot_sizes_are_found_as_tabled(rt: HostRuntime) -> Result<(), Fail> {
    let alloc = rt.alloc();
    assert_eq!(rt; FOUND.lines().count(), 33);
    for row in FOUND.lines() {
        let (size, rest) = fields(row)?;
        let (front, rest) = fields(rest)?;
        let (fails, rest) = fields(rest)?;
        let (given, wanted) = fields(rest)?;
        let given = given_of(given)?;
        let mut volume = volume_of(alloc, size, front, "238", fails)?;
        assert_eq!(rt; found(alloc, &mut volume, given)?.as_str(), wanted, "{row}");
    }
    Ok(())
}

// How many bytes a file has and its first ones, the number of the call that fails, and what is seen of it: the slot size and the
// number of slots that are recorded, if they are, and the length.
const SEEN: &str = "\
18432;526f636b534d50320002000004000000;9;512 4 of 18432
16384;526f636b534d50320102000004000000;9;513 4 of 16384
18432;526f636b534d50310002000004000000;9;none of 18432
16383;526f636b534d50320002000004000000;9;Small { bytes: 16383 }
18432;526f636b534d50320002000004000000;0;Failed
none;;9;Missing";

/// What is seen of a header area.
fn seen(alloc: Global, volume: &mut MemVolume) -> Result<String, Fail>
    requires { NoneAway (volume_files volume.old) }
{
    let Looked { recorded, bytes } = match look_at_header(volume, "db") {
        Ok(looked) => looked,
        Err(fault) => return Ok(format!(in alloc; "{fault:?}")?),
    };
    Ok(match recorded {
        Some(geometry) => {
            let (slot, slots) = (geometry.slot, geometry.slots);
            format!(in alloc; "{slot} {slots} of {bytes}")?
        }
        None => format!(in alloc; "none of {bytes}")?,
    })
}

#[test]
fn header_areas_are_seen_as_tabled(rt: HostRuntime) -> Result<(), Fail> {
    let alloc = rt.alloc();
    assert_eq!(rt; SEEN.lines().count(), 6);
    for row in SEEN.lines() {
        let (size, rest) = fields(row)?;
        let (front, rest) = fields(rest)?;
        let (fails, wanted) = fields(rest)?;
        let mut volume = volume_of(alloc, size, front, "238", fails)?;
        assert_eq!(rt; seen(alloc, &mut volume)?.as_str(), wanted, "{row}");
    }
    Ok(())
}
