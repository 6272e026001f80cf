use crate::rows::numbers;
use db_layout::{file_size, offset_of, slot_size_ok, slots_of};
use std::alloc::Global;
use test_rows::{fields, short};

// A number of slots and the size of one; the length of a file of these slots, the offset of the slot behind them,
// and how many slots of at most 1,048,576 the file has, where slots may have that size.
const FILES: &str = "\
0 512;16384 16384 0
0 1024;16384 16384 0
0 16384;16384 16384 0
0 32256;16384 16384 0
0 32768;16384 16384 0
1 512;16896 16896 1
3 512;17920 17920 3
4 512;18432 18432 4
1 16384;32768 32768 1
64 16384;1064960 1064960 64
1048576 32768;34359754752 34359754752 1048576
4294967295 32768;140737488338944 140737488338944 1048576
0 0;no size
0 1;no size
0 500;no size
0 511;no size
0 513;no size
0 1000;no size
0 16383;no size
0 32767;no size
0 33280;no size
0 65536;no size
0 4294967295;no size";

/// What is told of the file that is asked for.
fn file_of(alloc: Global, asked: &str) -> Option<String> {
    let [number, slot] = numbers::<2>(asked)?;
    let (number, slot) = (short(number), short(slot));
    if !slot_size_ok(slot) {
        return String::from_str(alloc, "no size").ok();
    }
    let (bytes, offset) = (file_size(number, slot), offset_of(number, slot));
    let slots = slots_of(bytes, slot);
    format!(in alloc; "{bytes} {offset} {slots}").ok()
}

/// Whether a file is as it stands in the row.
fn is_as_tabled(alloc: Global, row: &str) -> Option<bool> {
    let (asked, wanted) = fields(row)?;
    Some(file_of(alloc, asked)?.as_str() == wanted)
}

#[test]
fn sizes_and_offsets_are_as_tabled(rt: HostRuntime) {
    assert_eq!(rt; FILES.lines().count(), 23);
    for row in FILES.lines() {
        assert!(rt; is_as_tabled(rt.alloc(), row) == Some(true), "{row}");
    }
}

// The length of a file, and how many slots of 512 bytes it has.
const LENGTHS: &str = "\
0 0
16383 0
16895 0
17508 2
18431 3
18446744073709551615 1048576";

/// Whether a file of this length has so many slots.
fn has_slots(row: &str) -> Option<bool> {
    let [bytes, slots] = numbers::<2>(row)?;
    Some(u64::from(slots_of(bytes, 512)) == slots)
}

#[test]
fn files_of_any_length_have_whole_slots(rt: HostRuntime) {
    assert_eq!(rt; LENGTHS.lines().count(), 6);
    for row in LENGTHS.lines() {
        assert!(rt; has_slots(row) == Some(true), "{row}");
    }
}
