ghost use Rattle.std.specs.Prelude.{◌≡◌, length, IfOk};
ghost use Rattle.rebuild_model.specs.Image.{IsFile};

use crate::rows::{Image, fields, put};
use plain_rebuild::{complete_at, rebuilt_of};
use rebuild_model::{FileImage, Found, Images, Rebuilt};
use rock_io::{Memory, Octets};
use slot_cell::{Header, build_image};
use std::alloc::Global;
use std::test::Fail;
use store_key::key_of;
use swap_meta::write_meta;

// The front of a slot with the one entry http://a/b of version 7, whose body is "hello". The key is the MD5 of
// a byte 1 and the URL, by the program md5sum.
const FRONT: &[u8; 87] = b"\
    \x1a\x68\xc1\x0d\x6c\x8b\x32\x66\x57\xc7\x75\xf5\x3c\x86\x6d\xd1\x2f\x00\x00\x00\x00\x00\x00\x00\
    \x2f\x00\x00\x00\x07\x00\x00\x00\x00\x00\x00\x00\xff\xff\xff\xff\x03\x2a\x00\x00\x00\x03\x10\x00\
    \x00\x00\x1a\x68\xc1\x0d\x6c\x8b\x32\x66\x57\xc7\x75\xf5\x3c\x86\x6d\xd1\x04\x0b\x00\x00\x00\x68\
    \x74\x74\x70\x3a\x2f\x2f\x61\x2f\x62\x00\x68\x65\x6c\x6c\x6f";

/// The slot as the writers of metadata and of images make it, over other bytes.
fn built() -> Result<Image, Fail> {
    let url = b"http://a/b";
    let key = key_of(url);
    let mut payload = [0; 47];
    let end = write_meta(&key, url, &mut payload);
    payload[end..].copy_from_slice(b"hello");
    let header = Header {
        k0: u64::from_le_bytes(*key.first_chunk().ok_or("a half")?),
        k1: u64::from_le_bytes(*key.last_chunk().ok_or("a half")?),
        entry_size: 47,
        payload_size: 47,
        version: 7,
        first_slot: 0,
        next_slot: -1,
    };
    let mut image = [0xaa; 512];
    build_image(&header, &payload, &mut image);
    Ok(image)
}

#[test]
fn an_entry_of_one_slot_is_built_byte_for_byte(rt: HostRuntime) -> Result<(), Fail> {
    let image = built()?;
    let mut wanted = [0; 512];
    put(&mut wanted, 0, FRONT);
    assert_eq!(rt; image, wanted);
    Ok(())
}

// Four slots. `http://a/b` of version 7 is in slots 2 and 0, with a body of 430 and 5 bytes, and `http://a/c` of
// version 3 in slot 1, with 5 bytes. Slot 3 was never written. Each part is a slot, a place in it, and the bytes
// that stand there, over those of the parts before.
const BASE: &str = "\
2.0=1a68c10d6c8b326657c775f53c866dd12f000000000000002f0000000700000000000000ffffffff032a00000003100000001a68c10d6c8b326657c775f53c866dd1040b000000687474703a2f2f612f6200
2.16=0000000000000000d8010000070000000200000000000000
0.0=1a68c10d6c8b326657c775f53c866dd1
0.16=dd01000000000000050000000700000002000000ffffffff68656c6c6f
1.0=1a68c10d6c8b326657c775f53c866dd12f000000000000002f0000000700000000000000ffffffff032a00000003100000001a68c10d6c8b326657c775f53c866dd1040b000000687474703a2f2f612f620068656c6c6f
1.0=4877c9348b6d7299e213896f839c80b8
1.28=0300000001000000
1.50=4877c9348b6d7299e213896f839c80b8
1.80=63";

/// Puts parts into slots.
fn patch(alloc: Global, slots: &mut [Image; 4], parts: &str) -> Result<(), Fail> {
    for part in parts.split_whitespace() {
        let (place, bytes) = part.split_once('=').ok_or("bytes")?;
        let (slot, at) = place.split_once('.').ok_or("a place")?;
        let (slot, at): (usize, usize) = (slot.parse()?, at.parse()?);
        let bytes = hex::decode(alloc, bytes)?;
        match slots.get_mut(slot) {
            Some(image) if at <= 512 && bytes.len() <= 512 - at => put(image, at, &bytes),
            _ => return Err(Fail::from("no place of four slots")),
        }
    }
    Ok(())
}

fn octets(alloc: Global, image: &Image) -> Result<Octets, Memory>
    ensures { IfOk result (λ bytes. length bytes ≡ 512) }
{
    Ok(Octets::from_vec(image.to_vec(alloc)?))
}

/// A file of these slots, with other bytes in some places.
fn file_of(alloc: Global, parts: &str) -> Result<FileImage, Fail>
    ensures { IfOk result (λ file. IsFile file.slot file.slots × (length file.slots ≡ 4)) }
{
    let mut slots = [[0; 512]; 4];
    patch(alloc, &mut slots, BASE)?;
    patch(alloc, &mut slots, parts)?;
    let mut images = Vec::new(alloc);
    images.push(octets(alloc, &slots[0])?)?;
    images.push(octets(alloc, &slots[1])?)?;
    images.push(octets(alloc, &slots[2])?)?;
    images.push(octets(alloc, &slots[3])?)?;
    Ok(FileImage {
        slot: 512,
        slots: Images::from_vec(images),
    })
}

/// An entry: its version, the length of its body, and its chain.
fn told(alloc: Global, found: Option<&Found>) -> Result<String, Fail> {
    let Some(found) = found else {
        return Ok(String::from_str(alloc, "none")?);
    };
    let (version, length, chain) = (found.version, found.length, found.chain.as_slice());
    Ok(format!(in alloc; "{version} {length} {chain:?}")?)
}

// Where complete entries begin in files that differ from the base in a few bytes: what it is about, the parts that
// differ, the slot, and the entry that begins there. First the chain. From "version 0" on versions and payloads at
// their limits, from "a middle payload one byte short" on a slot that is not full and the size of the whole, and from
// "the last slot says its own size" on that a chain begins at the first slot, and not where the size would be right.
// From "no mark" on metadata.
const COMPLETE: &str = "\
two slots;;2;7 435 [2, 0]
the last slot of a chain;;0;none
one slot;;1;3 5 [1]
a slot of zeros;;3;none
through another version;0.28=08;2;none
through another key;0.15=d0;2;none
through another first;0.32=00;2;none
back to the first;0.36=02000000;2;none
the last to itself;0.36=00000000;2;none
the first to itself;2.36=02;2;none
into another entry;2.36=01;2;none
into zeros;2.36=03;2;none
out of the file;2.36=04;2;none
to slot -2;2.36=feffffff;2;none
the last out of the file;0.36=04000000;2;none
cut behind the first;2.36=ffffffff;2;none
cut behind the first, and that is the whole;2.36=ffffffff 2.16=d801;2;7 430 [2]
the first names another first;2.32=00;2;none
the first names one out of the file;2.32=04;2;none
the first names slot -1;2.32=ffffffff;2;none
into the tail of another;1.36=00000000;1;none
another goes on in its tail;1.36=00000000;2;7 435 [2, 0]
version 0;1.28=00;1;none
version 1;1.28=01;1;1 5 [1]
the greatest version;1.28=0000ffff;1;4294901760 5 [1]
a version above;1.28=0100ffff;1;none
no payload;1.24=00 1.16=00;1;none
the greatest payload;1.24=d801 1.16=d801;1;3 430 [1]
a payload past the slot;1.24=d901 1.16=d901;1;none
no body;1.24=2a 1.16=2a;1;3 0 [1]
a middle payload one byte short;2.24=d7 0.16=dc;2;none
one byte less than the sum;0.16=dc;2;none
one byte more than the sum;0.16=de;2;none
no size yet;0.16=0000;2;none
the last slot says its own size;0.16=0500;2;none
the last slot says its own size and names itself first;0.16=0500 0.32=00;0;none
another size in the first slot;2.16=63;2;7 435 [2, 0]
one slot, one byte less;1.16=2e;1;none
no mark;1.40=04;1;none
metadata past the first slot;2.41=d901;2;none
another key in the metadata;1.65=b9;1;none
a key that is not the URL's;1.0=1a68c10d6c8b326657c775f53c866dd12f000000000000002f0000000700000000000000ffffffff032a00000003100000001a68c10d6c8b326657c775f53c866dd1040b000000687474703a2f2f612f620068656c6c6f 1.28=0300000001 1.80=63;1;none
a URL that is not the key's;1.80=64;1;none
a URL with a space, and its key;1.0=8ea519d76c5011880fc2eebcb1dbb484 1.50=8ea519d76c5011880fc2eebcb1dbb484 1.80=20;1;none
a URL without its zero byte;1.81=21;1;none";

#[test]
fn complete_entries_are_found_where_they_begin(rt: HostRuntime) -> Result<(), Fail> {
    let alloc = rt.alloc();
    assert_eq!(rt; COMPLETE.lines().count(), 45);
    for row in COMPLETE.lines() {
        let (_, rest) = fields(row)?;
        let (parts, rest) = fields(rest)?;
        let (first, wanted) = fields(rest)?;
        let first = first.parse()?;
        assert!(rt; first < 4);
        let found = complete_at(alloc, &file_of(alloc, parts)?, first)?;
        assert_eq!(rt; told(alloc, found.as_ref())?.as_str(), wanted, "{row}");
    }
    Ok(())
}

/// Where the entries that are kept begin, whose each slot is, and the greatest version.
pub(crate) fn kept(alloc: Global, rebuilt: &Rebuilt) -> Result<String, Fail> {
    let (owner, greatest) = (rebuilt.owner.as_slice(), rebuilt.greatest);
    let mut firsts = Vec::new(alloc);
    for found in rebuilt.winners.as_slice() {
        firsts.push(found.first)?;
    }
    Ok(format!(in alloc; "{firsts:?} {owner:?} {greatest}")?)
}

// What a rebuild keeps: what it is about, the parts that differ from the base, how many anchors there are, and where
// the entries that are kept begin, in order of their anchors, whose each slot is, and the greatest version. Of 16
// anchors `http://a/b` has number 1, and `http://a/c` number 10.
const KEPT: &str = "\
the newer of one anchor;;1;[2] [1, 0, 1, 0] 7
the other is newer;1.28=09;1;[1] [0, 1, 0, 0] 9
one version: the first slot;1.28=07;1;[1] [0, 1, 0, 0] 7
two anchors;;16;[2, 1] [2, 11, 2, 0] 7
one URL, and both are whole;1.0=1a68c10d6c8b326657c775f53c866dd1 1.50=1a68c10d6c8b326657c775f53c866dd1 1.80=62;16;[2] [2, 0, 2, 0] 7
one URL, and the newer one lacks its second slot;0.24=00 1.0=1a68c10d6c8b326657c775f53c866dd1 1.50=1a68c10d6c8b326657c775f53c866dd1 1.80=62;16;[1] [0, 2, 0, 0] 7
a broken chain;0.28=08;16;[1] [0, 11, 0, 0] 8
a slot that is not sane;0.28=0100ffff;16;[1] [0, 11, 0, 0] 7
a newer slot of no entry;3.0=1a68c10d6c8b326657c775f53c866dd12f000000000000002f0000000700000000000000ffffffff032a00000003100000001a68c10d6c8b326657c775f53c866dd1040b000000687474703a2f2f612f620068656c6c6f 3.28=6300000003 3.16=00;16;[2, 1] [2, 11, 2, 0] 99
no sane slot;0.24=00 1.24=00 2.24=0000;16;[] [0, 0, 0, 0] 0";

#[test]
fn the_best_entry_of_each_anchor_is_kept(rt: HostRuntime) -> Result<(), Fail> {
    let alloc = rt.alloc();
    assert_eq!(rt; KEPT.lines().count(), 10);
    for row in KEPT.lines() {
        let (_, rest) = fields(row)?;
        let (parts, rest) = fields(rest)?;
        let (anchors, wanted) = fields(rest)?;
        let anchors = anchors.parse()?;
        assert!(rt; anchors > 0);
        let rebuilt = rebuilt_of(alloc, &file_of(alloc, parts)?, anchors)?;
        assert_eq!(rt; kept(alloc, &rebuilt)?.as_str(), wanted, "{row}");
    }
    Ok(())
}
