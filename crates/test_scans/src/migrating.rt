// A file whose header area is made to record its slots.
ghost use Rattle.std.specs.Prelude.{IfOk};
ghost use Rattle.rock_disk.specs.File.{NoneAway};
ghost use Rattle.rock_disk.specs.Memory.{volume_files};

use crate::finding::volume_of;
use crate::reports::left;
use crate::rows::fields;
use file_commands::migrate_file;
use rock_disk::MemVolume;
use rock_io::MemSink;
use std::alloc::Global;
use std::test::Fail;

// How many bytes a file has, its first ones, and the byte that all others are; the number of the call of its volume that fails;
// the slot size that is given; the status, with what is printed; and the first bytes of the file then. The calls are two looks
// at the header area, the opening and the making of a station, and 9 is the number of no call.
const MIGRATIONS: &str = "\
none;;0;9;512;Missing;;
none;;0;9;500;BadGeometry field=1;;
none;;0;0;512;Missing;;
16383;;0;9;512;Small bytes=16383;;
16383;;0;9;33280;BadGeometry field=1;;
16384;;0;9;512;Small bytes=16384;;00000000000000000000000000000000
18432;;0;9;512;Done;MIGRATED slots=4;526f636b534d50320002000004000000
18432;;171;9;512;Done;MIGRATED slots=4;526f636b534d50320002000004000000
18943;;0;9;512;Done;MIGRATED slots=4;526f636b534d50320002000004000000
18432;;0;9;1024;Done;MIGRATED slots=2;526f636b534d50320004000002000000
18432;526f636b534d5031;0;9;512;Done;MIGRATED slots=4;526f636b534d50320002000004000000
18432;;0;9;2560;Small bytes=18432;;00000000000000000000000000000000
18432;526f636b534d50320002000004000000;0;9;512;Done;MIGRATED slots=4;526f636b534d50320002000004000000
18432;526f636b534d50320002000004000000;0;2;512;Done;MIGRATED slots=4;526f636b534d50320002000004000000
18432;526f636b534d50320002000004000000;0;9;1024;BadGeometry field=5;;526f636b534d50320002000004000000
17920;526f636b534d50320002000004000000;0;9;512;BadGeometry field=6;;526f636b534d50320002000004000000
17920;526f636b534d50320002000004000000;0;9;1024;BadGeometry field=6;;526f636b534d50320002000004000000
18432;;0;0;512;DeviceFault;;00000000000000000000000000000000
18432;;0;1;512;DeviceFault;;00000000000000000000000000000000
18432;;0;2;512;DeviceFault;;00000000000000000000000000000000
18432;;0;3;512;DeviceFault;;00000000000000000000000000000000";

/// How a migration ends, and what it prints, without the last line feed.
fn migrated(alloc: Global, volume: &mut MemVolume, slot: u32) -> Result<String, Fail>
    requires { NoneAway (volume_files volume.old) }
    ensures { IfOk result (λ _. NoneAway (volume_files volume.new)) }
{
    let mut out = MemSink::new(alloc, 512, 512, Vec::new(alloc))?;
    let status = migrate_file(alloc, volume, &mut out, "db", slot);
    let text = str::from_utf8(out.taken())?;
    let text = text.strip_suffix("\n").unwrap_or(text);
    Ok(format!(in alloc; "{status};{text}")?)
}

/// Whether a file has the length of another one, these first bytes, where it has a header area, and the slots of the other one.
fn is_left(file: &Option<(u64, Vec<u8>)>, other: &Option<(u64, Vec<u8>)>, front: &[u8]) -> bool {
    match (file, other) {
        (None, None) => true,
        (Some((bytes, content)), Some((length, before))) => {
            bytes == length
                && content.get(..front.len()) == Some(front)
                && content.get(16_384..) == before.get(16_384..)
        }
        _ => false,
    }
}

#[test]
fn migrations_end_as_tabled(rt: HostRuntime) -> Result<(), Fail> {
    let alloc = rt.alloc();
    assert_eq!(rt; MIGRATIONS.lines().count(), 21);
    for row in MIGRATIONS.lines() {
        let (size, rest) = fields(row)?;
        let (first, rest) = fields(rest)?;
        let (other, rest) = fields(rest)?;
        let (fails, rest) = fields(rest)?;
        let (slot, rest) = fields(rest)?;
        let (wanted, front) = rest.rsplit_once(';').ok_or("first bytes")?;
        let mut volume = volume_of(alloc, size, first, other, fails)?;
        let mut untouched = volume_of(alloc, size, first, other, "9")?;
        let told = migrated(alloc, &mut volume, slot.parse()?)?;
        assert_eq!(rt; told.as_str(), wanted, "{row}");
        let file = left(alloc, &mut volume)?;
        let before = left(alloc, &mut untouched)?;
        let front = hex::decode(alloc, front)?;
        assert!(rt; is_left(&file, &before, &front), "{row}");
    }
    Ok(())
}
