// What header areas record of their files' slots.
use crate::rows::numbers;
use db_layout::{Geometry, HEADER_BYTES, read_geometry, write_geometry};
use std::alloc::Global;
use test_rows::{fields, short, three_fields};

// The first bytes of a header area in hexadecimal, and its length, to which it is cut, or filled with bytes 0xee; the slot size
// and the number of slots that it records. In rows 10 to 17 one bit of the mark is turned, in each of its bytes.
const READ: &str = "\
526f636b534d50320002000004000000;16384;512 4
526f636b534d50320002000004000000;16;512 4
526f636b534d50320002000004000000;15;none
526f636b534d50320002000004000000;12;none
526f636b534d50320002000004000000;8;none
;0;none
526f636b534d50320000000001000000;16384;0 1
526f636b534d503201000000ffffffff;16384;1 4294967295
526f636b534d50320102030405060708;16384;67305985 134678021
536f636b534d50320002000004000000;16384;none
526d636b534d50320002000004000000;16384;none
526f676b534d50320002000004000000;16384;none
526f6363534d50320002000004000000;16384;none
526f636b434d50320002000004000000;16384;none
526f636b536d50320002000004000000;16384;none
526f636b534d10320002000004000000;16384;none
526f636b534d50b20002000004000000;16384;none
526f636b534d50310002000004000000;16384;none
00526f636b534d503200020000040000;16384;none
00000000000000000000000000000000;16384;none";

/// What a header area of these bytes records.
fn recorded(alloc: Global, header: &[u8]) -> Option<String> {
    let Some(Geometry { slot, slots }) = read_geometry(header) else {
        return String::from_str(alloc, "none").ok();
    };
    format!(in alloc; "{slot} {slots}").ok()
}

/// Whether the header area of a row records what stands there.
fn is_read(alloc: Global, row: &str) -> Option<bool> {
    let (front, size, wanted) = three_fields(row)?;
    let [size] = numbers::<1>(size)?;
    let mut header = hex::decode(alloc, front).ok()?;
    header.resize(usize::try_from(size).ok()?, 0xee).ok()?;
    Some(recorded(alloc, &header)?.as_str() == wanted)
}

#[test]
fn header_areas_are_read_as_tabled(rt: HostRuntime) {
    assert_eq!(rt; READ.lines().count(), 20);
    for row in READ.lines() {
        assert!(rt; is_read(rt.alloc(), row) == Some(true), "{row}");
    }
}

// A slot size and a number of slots, and the first 16 bytes of the header area that records them, in hexadecimal.
const WRITTEN: &str = "\
512 4;526f636b534d50320002000004000000
0 0;526f636b534d50320000000000000000
1 4294967295;526f636b534d503201000000ffffffff
67305985 134678021;526f636b534d50320102030405060708";

/// Whether the header area for the numbers of a row, written over other bytes, is the bytes of the row and zeros.
fn is_written(alloc: Global, row: &str) -> Option<bool> {
    let (asked, front) = fields(row)?;
    let [slot, slots] = numbers::<2>(asked)?;
    let mut wanted = hex::decode(alloc, front).ok()?;
    wanted.resize(HEADER_BYTES as usize, 0).ok()?;
    let mut header = [0xaa; HEADER_BYTES as usize];
    let geometry = Geometry {
        slot: short(slot),
        slots: short(slots),
    };
    write_geometry(&geometry, &mut header);
    Some(header.as_slice() == wanted.as_slice() && read_geometry(&header) == Some(geometry))
}

#[test]
fn header_areas_are_written_as_tabled(rt: HostRuntime) {
    assert_eq!(rt; WRITTEN.lines().count(), 4);
    for row in WRITTEN.lines() {
        assert!(rt; is_written(rt.alloc(), row) == Some(true), "{row}");
    }
}
