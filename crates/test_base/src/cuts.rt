ghost use Rattle.entry_cut.specs.Labels.{Fits};

use crate::rows::numbers;
use entry_cut::{Behind, Cutter, Label, piece_header, published, put_header, slots_needed};
use std::alloc::Global;
use test_rows::{fields, short};

// The size of a slot and the bytes of a content; the slots that it needs, and those that are published while it
// grows. Of nothing none is published, and what is can't be asked.
const NEEDED: &str = "\
512 0;0 0
512 1;1 0
512 471;1 0
512 472;1 0
512 473;2 1
512 944;2 1
512 945;3 2
4096 0;0 0
4096 1;1 0
4096 4055;1 0
4096 4056;1 0
4096 4057;2 1
4096 8112;2 1
4096 8113;3 2
32768 0;0 0
32768 1;1 0
32768 32727;1 0
32768 32728;1 0
32768 32729;2 1
32768 65456;2 1
32768 65457;3 2
41 18446744073709551615;18446744073709551615 18446744073709551614";

/// Whether a content needs the slots of its row, and has those that are published.
fn needs_its_slots(row: &str) -> Option<bool> {
    let (asked, wanted) = fields(row)?;
    let ([slot, content], [needed, there]) = (numbers::<2>(asked)?, numbers::<2>(wanted)?);
    let slot = short(slot);
    if slot <= 40 {
        return None;
    }
    let is_published = if content == 0 {
        there == 0
    } else {
        published(content, slot) == there
    };
    Some(slots_needed(content, slot) == needed && is_published)
}

#[test]
fn contents_need_the_slots_that_they_fill(rt: HostRuntime) {
    assert_eq!(rt; NEEDED.lines().count(), 22);
    for row in NEEDED.lines() {
        assert!(rt; needs_its_slots(row) == Some(true), "{row}");
    }
}

/// The pieces of a content: their sizes, and all of them joined.
#[derive(Drop)]
struct Pieces {
    sizes: Vec<usize>,
    joined: Vec<u8>,
}

/// Adds what the cutter holds in a page to the pieces.
fn keep(pieces: &mut Pieces, page: &[u8], held: usize) -> Option<()> {
    pieces.joined.extend_from_slice(page.get(..held)?).ok()?;
    pieces.sizes.push(held).ok()
}

/// The pieces of a content, which comes in parts of seven bytes.
fn pieces_of(alloc: Global, content: &[u8], room: usize) -> Option<Pieces> {
    let mut page = Vec::new(alloc);
    page.resize(room, 0).ok()?;
    let mut pieces = Pieces {
        sizes: Vec::new(alloc),
        joined: Vec::new(alloc),
    };
    let mut cutter = Cutter::new(room);
    for part in content.chunks(7) {
        let taken = cutter.fill(&mut page, part);
        if cutter.is_full() {
            keep(&mut pieces, &page, cutter.held())?;
            cutter.next();
            cutter.fill(&mut page, part.get(taken..)?);
        }
    }
    if cutter.held() > 0 {
        keep(&mut pieces, &page, cutter.held())?;
    }
    Some(pieces)
}

// Bytes of a content, the room of a slot, and the sizes of the pieces.
const PIECES: &str = "\
0 472;[]
1 472;[1]
472 472;[472]
473 472;[472, 1]
1000 472;[472, 472, 56]
4056 4056;[4056]
4057 4056;[4056, 1]
32728 32728;[32728]
32729 32728;[32728, 1]";

/// Whether the pieces of a content have the sizes of the row, and joined are the content again.
fn is_cut(alloc: Global, row: &str) -> Option<bool> {
    let (asked, wanted) = fields(row)?;
    let [length, room] = numbers::<2>(asked)?;
    let mut content = Vec::new(alloc);
    for at in 0..length {
        content.push((at % 251) as u8).ok()?;
    }
    let pieces = pieces_of(alloc, &content, short(room) as usize)?;
    let sizes = format!(in alloc; "{:?}", pieces.sizes).ok()?;
    Some(sizes.as_str() == wanted && pieces.joined.as_slice() == content.as_slice())
}

#[test]
fn pages_are_filled_piece_after_piece(rt: HostRuntime) {
    assert_eq!(rt; PIECES.lines().count(), 9);
    for row in PIECES.lines() {
        assert!(rt; is_cut(rt.alloc(), row) == Some(true), "{row}");
    }
}

// A payload, in hexadecimal: how often a part stands there, and the part. Then the first slot, the slot behind this one, or
// -1 for none, and the size of the whole, where that is told; and the front of the image behind the key: the sizes and slots
// that the header says, and the payload. The first is the whole entry http://a/b of version 7, whose body is "hello"; the
// second and the third are its two slots, the second of them slot 0, with 430 and 5 bytes of body.
const IMAGES: &str = "\
1;032a00000003100000001a68c10d6c8b326657c775f53c866dd1040b000000687474703a2f2f612f620068656c6c6f;\
0 -1 47;2f000000000000002f0000000700000000000000ffffffff
472;78;2 0 0;0000000000000000d8010000070000000200000000000000
1;68656c6c6f;2 -1 477;dd01000000000000050000000700000002000000ffffffff
1;78;2147483647 2147483646 0;00000000000000000100000007000000ffffff7ffeffff7f";

/// What comes behind a piece: a slot, or, in place of the greatest number, the end of the whole.
fn behind(next: u64, whole: u64) -> Behind
    ensures { Fits result }
{
    if next < 2_147_483_648 {
        Behind::Slot(next as u32)
    } else {
        Behind::End(whole)
    }
}

// The key of http://a/b: the MD5 of a byte 1 and the URL, by the program md5sum.
const KEY: [u8; 16] = *b"\x1a\x68\xc1\x0d\x6c\x8b\x32\x66\x57\xc7\x75\xf5\x3c\x86\x6d\xd1";

/// The image of a slot with this payload, over other bytes.
fn image_of(payload: &[u8], asked: &str) -> Option<[u8; 512]> {
    let [first, next, whole] = numbers::<3>(asked)?;
    let first = short(first);
    if first >= 2_147_483_648 {
        return None;
    }
    let label = Label {
        key: KEY,
        version: 7,
        first,
    };
    let mut image = [0xaa; 512];
    let mut cutter = Cutter::new(472);
    cutter.fill(&mut image[40..], payload);
    let header = piece_header(&label, cutter.held() as u32, behind(next, whole));
    put_header(&header, &mut image);
    Some(image)
}

/// The image as it should be: the key, the fields in hexadecimal, the payload and zeros.
fn image_with(alloc: Global, fields: &str, payload: &[u8]) -> Option<Vec<u8>> {
    let mut image = KEY.to_vec(alloc).ok()?;
    image
        .extend_from_slice(&hex::decode(alloc, fields).ok()?)
        .ok()?;
    image.extend_from_slice(payload).ok()?;
    image.resize(512, 0).ok()?;
    Some(image)
}

/// Whether the image of a row is as it should be.
fn is_made(alloc: Global, row: &str) -> Option<bool> {
    let (copies, rest) = fields(row)?;
    let (part, rest) = fields(rest)?;
    let (asked, wanted) = fields(rest)?;
    let part = part.repeat(alloc, copies.parse().ok()?).ok()?;
    let payload = hex::decode(alloc, part).ok()?;
    let image = image_of(&payload, asked)?;
    Some(image.as_slice() == image_with(alloc, wanted, &payload)?.as_slice())
}

#[test]
fn images_are_made_in_place(rt: HostRuntime) {
    assert_eq!(rt; IMAGES.lines().count(), 4);
    for row in IMAGES.lines() {
        assert!(rt; is_made(rt.alloc(), row) == Some(true), "{row}");
    }
}
