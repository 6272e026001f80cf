use crate::rows::numbers;
use slot_cell::{Header, build_image, read_image};
use std::alloc::Global;
use test_rows::{fields, short};

// The first bytes of a slot in hexadecimal, and the header there: the two halves of its key in hexadecimal, the sizes of its
// entry and of its payload, its version, its first slot and its next one. The first is a first and last slot with key bytes 0
// to 15, and the second lacks a byte. The third is a file of one slot, as far as its payload goes: the key is that of
// http://a/b, the body "hello".
const FIELDS: &str = "\
000102030405060708090a0b0c0d0e0f2f000000000000002f0000000700000000000000ffffffff;\
0706050403020100 0f0e0d0c0b0a0908 47 47 7 0 -1
000102030405060708090a0b0c0d0e0f2f000000000000002f0000000700000000000000ffffff;none
1a68c10d6c8b326657c775f53c866dd12f000000000000002f0000000700000000000000ffffffff\
032a00000003100000001a68c10d6c8b326657c775f53c866dd1040b000000687474703a2f2f612f620068656c6c6f;\
66328b6c0dc1681a d16d863cf575c757 47 47 7 0 -1
00000000000000000000000000000000000000000000000000000000000000000000000000000000;\
0000000000000000 0000000000000000 0 0 0 0 0";

/// The header of these bytes.
fn decoded(alloc: Global, bytes: &[u8]) -> Option<String> {
    let Some(header) = Header::decode(bytes) else {
        return String::from_str(alloc, "none").ok();
    };
    let (k0, k1, entry, payload) = (header.k0, header.k1, header.entry_size, header.payload_size);
    let (version, first, next) = (header.version, header.first_slot, header.next_slot);
    format!(in alloc; "{k0:016x} {k1:016x} {entry} {payload} {version} {first} {next}").ok()
}

/// Whether the bytes of a row have its fields.
fn has_fields(alloc: Global, row: &str) -> Option<bool> {
    let (bytes, wanted) = fields(row)?;
    let bytes = hex::decode(alloc, bytes).ok()?;
    Some(decoded(alloc, &bytes)?.as_str() == wanted)
}

#[test]
fn fields_stand_in_order(rt: HostRuntime) {
    assert_eq!(rt; FIELDS.lines().count(), 4);
    for row in FIELDS.lines() {
        assert!(rt; has_fields(rt.alloc(), row) == Some(true), "{row}");
    }
}

// The fields of a header, whether it is sane in a file of 4 slots of 512, and whether it is empty.
const HEADERS: &str = "\
0 0 0 1 1 0 -1 true false
0 0 0 472 4294901760 3 3 true false
0 0 0 1 0 0 -1 false false
0 0 0 1 4294901761 0 -1 false false
0 0 0 0 1 0 -1 false false
0 0 0 473 1 0 -1 false false
0 0 0 1 1 -1 -1 false false
0 0 0 1 1 4 -1 false false
0 0 0 1 1 0 -2 false false
0 0 0 1 1 0 4 false false
0 0 0 0 0 0 0 false true
0 0 0 1 0 0 0 false false
0 0 0 0 0 1 0 false false
0 0 0 0 0 0 -1 false false
1 0 1 0 1 0 0 false true";

/// Whether a header is sane and empty as it stands in the row.
fn is_as_tabled(row: &str) -> Option<bool> {
    let [
        k0,
        k1,
        entry_size,
        payload,
        version,
        first,
        next,
        sane,
        empty,
    ] = numbers::<9>(row)?;
    let header = Header {
        k0,
        k1,
        entry_size,
        payload_size: short(payload),
        version: short(version),
        first_slot: i32::try_from(first.cast_signed()).ok()?,
        next_slot: i32::try_from(next.cast_signed()).ok()?,
    };
    Some(header.is_sane(4, 512) == (sane == 1) && header.is_empty() == (empty == 1))
}

#[test]
fn headers_are_sane_or_empty_as_tabled(rt: HostRuntime) {
    assert_eq!(rt; HEADERS.lines().count(), 15);
    for row in HEADERS.lines() {
        assert!(rt; is_as_tabled(row) == Some(true), "{row}");
    }
}

// A file of one slot, as far as its payload goes, as above.
const SLOT: &str = "\
1a68c10d6c8b326657c775f53c866dd12f000000000000002f0000000700000000000000ffffffff\
032a00000003100000001a68c10d6c8b326657c775f53c866dd1040b000000687474703a2f2f612f620068656c6c6f";

/// The image of a slot with this header and payload, written over other bytes.
fn image_of(header: &Header, payload: &[u8]) -> Option<[u8; 512]> {
    if payload.len() != 47 || header.payload_size != 47 {
        return None;
    }
    let mut image = [0xaa; 512];
    build_image(header, payload, &mut image);
    Some(image)
}

/// Whether the image of the slot has its bytes, and zeros behind them.
fn is_built(alloc: Global) -> Option<bool> {
    let mut slot = hex::decode(alloc, SLOT).ok()?;
    let image = image_of(&Header::decode(&slot)?, slot.get(40..)?)?;
    slot.resize(512, 0).ok()?;
    Some(image.as_slice() == slot.as_slice())
}

// How many bytes of the image are read, of how many slots the file is, and whether the slot is found: not slot 0 in a file of
// none, nor with one byte too few for the payload, nor with a header that is cut.
const READ: &str = "\
512 1 true
87 1 true
512 0 false
86 1 false
39 1 false";

/// Whether the slot is found in its image as it stands in the row.
fn is_read(alloc: Global, row: &str) -> Option<bool> {
    let [length, slots, wanted] = numbers::<3>(row)?;
    let slot = hex::decode(alloc, SLOT).ok()?;
    let (header, payload) = (Header::decode(&slot)?, slot.get(40..)?);
    let image = image_of(&header, payload)?;
    let found = read_image(image.get(..short(length) as usize)?, short(slots));
    if wanted == 1 {
        Some(found == Some((header, payload)))
    } else {
        Some(found.is_none())
    }
}

#[test]
fn an_image_is_built_and_read(rt: HostRuntime) {
    assert!(rt; is_built(rt.alloc()) == Some(true));
    assert_eq!(rt; READ.lines().count(), 5);
    for row in READ.lines() {
        assert!(rt; is_read(rt.alloc(), row) == Some(true), "{row}");
    }
}
